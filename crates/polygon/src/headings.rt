// The heading of a plan.
ghost use Rattle.std.specs.Prelude.{◌≡◌};
ghost use Rattle.polygon.specs.Headings.{headed};

use text::{Fault, Ground, space_behind};

// The place behind the heading.
pub(crate) fn heading(text: &[u8]) -> Result<usize, Fault>
    ensures { result ≡ headed text.now }
{
    match text {
        [b'O', b'F', b'F', rest @ ..] => space_behind(3, rest),
        _ => Err(Fault::new(Ground::Heading, 0)),
    }
}
