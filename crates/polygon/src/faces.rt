// The faces of a plan: corner counts and corner numbers, read one by one into space.
ghost use Rattle.std.specs.Prelude.{◌≡◌, ◌+◌, ◌*◌, ◌≤◌, length, take, drop, IfOk};
ghost use Rattle.text.specs.Lexing.{text_of, at_of, Read};
ghost use Rattle.polygon.specs.Outs.{filled, filling_out};
ghost use Rattle.polygon.specs.Faces.{number, faced, facing_out};

use crate::wholes::whole_within;
use text::{Fault, Ground, Lexer};

// A face has at least 3 corners, and fewer than this many.
const TOO_MANY: usize = 17;

// A corner number below `limit` for each of the places.
fn read_numbers(lexer: &mut Lexer, limit: usize, places: &mut [u16]) -> Result<(), Fault>
    requires { limit ≤ 65536 }
    ensures read { Read (filling_out (filled (number (text_of lexer.old) limit) (length places.old) 0 (at_of lexer.old) places.old)) lexer.old lexer.new result }
    ensures after { places.new ≡ (filled (number (text_of lexer.old) limit) (length places.old) 0 (at_of lexer.old) places.old).space }
{
    for place in places.iter_mut() {
        *place = whole_within(lexer, Ground::Corner, 0, limit)? as u16;
    }
    Ok(())
}

// All faces of a plan; the answer is how many corner numbers they have.
pub(crate) fn read_faces(
    lexer: &mut Lexer,
    limit: usize,
    total: usize,
    sizes: &mut [u8],
    numbers: &mut [u16],
) -> Result<usize, Fault>
    requires few { total ≤ length sizes.old }
    requires room { 16 * total ≤ length numbers.old }
    requires small { limit ≤ 65536 }
    ensures read { Read (facing_out (faced (text_of lexer.old) limit total 0 0 (at_of lexer.old) sizes.old numbers.old)) lexer.old lexer.new result }
    ensures sizes { sizes.new ≡ (faced (text_of lexer.old) limit total 0 0 (at_of lexer.old) sizes.old numbers.old).sizes }
    ensures numbers { numbers.new ≡ (faced (text_of lexer.old) limit total 0 0 (at_of lexer.old) sizes.old numbers.old).numbers }
    ensures bound { IfOk result (λ used. used ≤ 16 * total) }
{
    let mut used = 0;
    for place in sizes[..total].iter_mut() {
        let size = whole_within(lexer, Ground::Corner, 3, TOO_MANY)?;
        read_numbers(lexer, limit, &mut numbers[used..used + size])?;
        *place = size as u8;
        used += size;
    }
    Ok(used)
}

// The first face, which has `size` corner numbers or as many as there are, and the numbers behind it.
pub(crate) fn first_face(numbers: &[u16], size: u8) -> (&[u16], &[u16])
    ensures face { result.0.now ≡ take size numbers.now }
    ensures behind { result.1.now ≡ drop size numbers.now }
{
    numbers.split_at(usize::from(size).min(numbers.len()))
}
