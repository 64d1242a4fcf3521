// Which colour a pixel must have: 0 is open, 1 is wall.
ghost use Rattle.std.specs.Prelude.{◌≡◌};
ghost use Rattle.grid.specs.Pixels.{border, rule_of, allowed};
ghost use Rattle.grid.specs.Doorways.{column, row};

use crate::sizes::Size;

#[derive(Clone, Copy)]
pub(crate) enum Rule {
    // A room: open.
    Room,
    // The border, or a corner of rooms: wall.
    Wall,
    // Between two rooms: either.
    Free,
}

impl Rule {
    pub(crate) fn allows(self, ink: u8) -> bool
        ensures { result ≡ allowed self ink }
    {
        match self {
            Rule::Room => ink == 0,
            Rule::Wall => ink == 1,
            Rule::Free => true,
        }
    }
}

fn on_border(size: Size, column: usize, row: usize) -> bool
    ensures { result ≡ border size column row }
{
    let right = 2 * usize::from(size.w);
    let top = 2 * usize::from(size.h);
    column == 0 || column == right || row == 0 || row == top
}

// The rule of the pixel in this column and row, counted from 0.
fn rule_at(size: Size, column: usize, row: usize) -> Rule
    ensures { result ≡ rule_of size column row }
{
    let odd_column = column % 2 == 1;
    let odd_row = row % 2 == 1;
    if odd_column && odd_row {
        Rule::Room
    } else if on_border(size, column, row) || (!odd_column && !odd_row) {
        Rule::Wall
    } else {
        Rule::Free
    }
}

// The rule of pixel k, counted in reading order from 0.
pub(crate) fn rule_of_pixel(size: Size, k: usize) -> Rule
    ensures { result ≡ rule_of size (column size k) (row size k) }
{
    let (column, row) = size.spot(k);
    rule_at(size, column, row)
}
