// The width and the height of a plan, in rooms.
ghost use Rattle.std.specs.Prelude.{◌≡◌, ◌*◌};
ghost use Rattle.text.specs.Lexing.{text_of, at_of, Read};
ghost use Rattle.grid.specs.Doorways.{column, row};
ghost use Rattle.grid.specs.Sizes.{side_of, sided, fitted, sized, across, area};

use std::marker::Model;
use text::{Fault, Ground, Lexer, Number};

// At most this many rooms.
const MOST_ROOMS: u64 = 256;

// A plan of `w` by `h` rooms.
#[derive(Clone, Copy, PartialEq, Debug)]
pub struct Size {
    pub w: u16,
    pub h: u16,
}

impl Size {
    // The pixels in a row.
    pub(crate) fn width(self) -> usize
        ensures { result ≡ across self.w }
    {
        2 * usize::from(self.w) + 1
    }

    // All pixels.
    pub(crate) fn area(self) -> usize
        ensures { result ≡ area self }
    {
        self.width() * (2 * usize::from(self.h) + 1)
    }

    // All rooms.
    pub(crate) fn rooms(self) -> usize
        ensures { result ≡ self.w * self.h }
    {
        usize::from(self.w) * usize::from(self.h)
    }

    // The column and the row of pixel k, counted in reading order from 0.
    pub(crate) fn spot(self, k: usize) -> (usize, usize)
        ensures { result ≡ (column self k, row self k) }
    {
        (k % self.width(), k / self.width())
    }
}

// The rooms along a side of a plan, one at least, and the place of the number that gave them. A clause sees the two as a pair.
#[derive(Drop)]
struct Side {
    rooms: u32,
    place: usize,
}

impl Model for Side {
    ghost use Rattle.std.specs.Prelude.{ℕ, ◌≤◌};

    ghost Value = { ℕ × ℕ };

    ghost view = { λ s. (s.rooms, s.place) };

    ghost invariant = { λ s. 1 ≤ s.rooms };
}

// The rooms along a side of `n` pixels.
fn half(n: Number) -> Result<Side, Fault>
    ensures answer { result ≡ side_of n }
{
    if n.magnitude < 3 || n.magnitude % 2 == 0 {
        Err(Fault::new(Ground::Limits, n.start))
    } else {
        Ok(Side {
            rooms: n.magnitude / 2,
            place: n.start,
        })
    }
}

fn next_side(lexer: &mut Lexer) -> Result<Side, Fault>
    ensures { Read (sided (text_of lexer.old) (at_of lexer.old)) lexer.old lexer.new result }
{
    let n = lexer.number(false)?;
    half(n)
}

// The size of w by h rooms.
fn fit(w: Side, h: Side) -> Result<Size, Fault>
    ensures answer { result ≡ fitted w h }
{
    if u64::from(w.rooms) * u64::from(h.rooms) > MOST_ROOMS {
        Err(Fault::new(Ground::Limits, h.place))
    } else {
        Ok(Size {
            w: w.rooms as u16,
            h: h.rooms as u16,
        })
    }
}

pub(crate) fn sizes(lexer: &mut Lexer) -> Result<Size, Fault>
    ensures { Read (sized (text_of lexer.old) (at_of lexer.old)) lexer.old lexer.new result }
{
    let w = next_side(lexer)?;
    let h = next_side(lexer)?;
    fit(w, h)
}
