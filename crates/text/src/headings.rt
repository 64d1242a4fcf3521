// What stands behind the heading of a plan.
ghost use Rattle.std.specs.Prelude.{◌≡◌};
ghost use Rattle.text.specs.Headings.{spaced};

use crate::bytes::is_white;
use crate::faults::{Fault, Ground};

// The place behind a heading of `size` bytes, if `rest`, which stands there, begins with white space.
pub fn space_behind(size: usize, rest: &[u8]) -> Result<usize, Fault>
    ensures { result ≡ spaced size rest.now }
{
    match rest.first() {
        None => Err(Fault::new(Ground::Early, size)),
        Some(b) if is_white(*b) => Ok(size),
        Some(_) => Err(Fault::new(Ground::Heading, 0)),
    }
}
