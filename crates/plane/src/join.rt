// The line through two posts.
ghost use Rattle.std.specs.Prelude.{◌≡◌, if◌then◌else◌, Some, None};
ghost use Rattle.std.specs.Option.{option_map};
ghost use Rattle.plane.specs.Lines.{through};
ghost use Rattle.plane.specs.Shapes.{coefficients, place};
ghost use Rattle.plane.specs.Tests.{same_point};

use crate::line::Line;
use crate::post::Post;

impl Line {
    // The line from p to q, with the points left of it above 0; nothing where p and q are the same point.
    pub fn through(p: Post, q: Post) -> Option<Line>
        ensures { option_map coefficients result ≡ (if same_point (place p) (place q) then None else Some (through (place p) (place q))) }
    {
        let a = p.y - q.y;
        let b = q.x - p.x;
        let c = p.x * q.y - q.x * p.y;
        Line::new(a, b, c).ok()
    }
}
