// A whole plan: its text read into the caller's space.
ghost use Rattle.std.specs.Prelude.{◌≡◌, ◌≤◌, length};
ghost use Rattle.grid.specs.Plans.{planned, answered};
ghost use Rattle.grid.specs.Pictures.{Understood};
ghost use Rattle.grid.specs.Refusals.{Blamed};

use crate::headings::heading;
use crate::pixels::paint;
use crate::sizes::{Size, sizes};
use text::{Fault, Ground, Lexer, MOST_TEXT};

// The caller's space: a byte for each pixel of the largest plan.
const SPACE: usize = 1539;

fn plan(text: &[u8], space: &mut [u8]) -> Result<Size, Fault>
    requires { 1539 ≤ length space.old }
    ensures answer { result ≡ (planned text.now space.old).result }
    ensures after { space.new ≡ (planned text.now space.old).space }
{
    if text.len() > MOST_TEXT {
        return Err(Fault::new(Ground::Limits, MOST_TEXT));
    }
    let at = heading(text)?;
    let mut lexer = Lexer::new(text, at);
    let size = sizes(&mut lexer)?;
    paint(&mut lexer, size, space)?;
    lexer.expect_end()?;
    Ok(size)
}

// Reads the plan in `text` into `space`, one byte for each pixel and then zeros, and answers its size.
pub fn read(text: &[u8], space: &mut [u8]) -> Result<Size, Fault>
    ensures answer { result ≡ (answered text.now space.old).result }
    ensures after { space.new ≡ (answered text.now space.old).space }
    ensures blamed { Blamed text.now space.old result }
    ensures understood { Understood text.now space.old result space.new }
{
    if space.len() < SPACE {
        return Err(Fault::new(Ground::Space, 0));
    }
    space.fill(0);
    let answer = plan(text, space);
    if answer.is_err() {
        space.fill(0);
    }
    answer
}
