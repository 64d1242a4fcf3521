// The plan that a space holds.
ghost use Rattle.std.specs.Prelude.{◌≡◌, length, take, Decides, MatchOption};
ghost use Rattle.std.specs.List.{list_all, enumerate_from};
ghost use Rattle.grid.specs.Doorways.{Drawn, right_pixel};
ghost use Rattle.grid.specs.Sizes.{Roomy, area};

use crate::colours::rule_of_pixel;
use crate::sizes::Size;

// A plan with its pixels, all of right colours.
#[derive(Clone, Copy)]
pub(crate) struct Plan<'a> {
    pub(crate) size: Size,
    pub(crate) pixels: &'a [u8],
    ghost whole: { length pixels.now ≡ area size },
    ghost drawn: { Drawn size pixels.now },
}

// Whether pixel k may have this colour.
fn is_right(size: Size, k: usize, pixel: u8) -> bool
    ensures { result ≡ right_pixel size (k, pixel) }
{
    pixel < 2 && rule_of_pixel(size, k).allows(pixel)
}

// Whether all these pixels have right colours.
fn all_right(size: Size, pixels: &[u8]) -> bool
    ensures { result ≡ list_all (right_pixel size) (enumerate_from 0 pixels.now) }
{
    pixels
        .iter()
        .enumerate()
        .all(|(k, pixel)| is_right(size, k, *pixel))
}

// Whether the plan has a room, and at most 256.
fn is_roomy(size: Size) -> bool
    ensures { Decides result (Roomy size) }
{
    size.w >= 1 && size.h >= 1 && size.rooms() <= 256
}

impl<'a> Plan<'a> {
    // The plan of this size whose pixels the space holds; nothing where it holds none.
    pub(crate) fn of(size: Size, space: &'a [u8]) -> Option<Plan<'a>>
        ensures { MatchOption result (Drawn size space.now → ⊥) (λ p. (p.size ≡ size) × (p.pixels.now ≡ take (area size) space.now)) }
    {
        if !is_roomy(size) {
            return None;
        }
        let pixels = space.get(..size.area())?;
        if all_right(size, pixels) {
            Some(Plan { size, pixels })
        } else {
            None
        }
    }
}
