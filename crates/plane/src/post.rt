// A post: one side of a doorway, a point of the plane.
ghost use Rattle.std.specs.Prelude.{◌≤◌, unsigned_abs};

#[derive(Clone, Copy, PartialEq, Eq, Debug)]
pub struct Post {
    pub x: i32,
    pub y: i32,
    ghost x_within: { unsigned_abs x ≤ 10000 },
    ghost y_within: { unsigned_abs y ≤ 10000 },
}
