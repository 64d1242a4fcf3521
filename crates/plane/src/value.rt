// The value of a line at a point. Its sign tells the side.
ghost use Rattle.std.specs.Prelude.{◌≡◌};
ghost use Rattle.plane.specs.Separation.{value};
ghost use Rattle.plane.specs.Shapes.{coefficients};

use crate::line::Line;

impl Line {
    // a·x + b·y + c, at any whole numbers x and y.
    pub fn value(&self, x: i32, y: i32) -> i64
        ensures { result ≡ value (coefficients self.now) (x, y) }
    {
        self.a as i64 * x as i64 + self.b as i64 * y as i64 + self.c as i64
    }
}
