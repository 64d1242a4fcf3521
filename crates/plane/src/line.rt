// A line that is stored or answered: the points with a·x + b·y + c = 0.
ghost use Rattle.std.specs.Prelude.{◌+◌, ◌<◌, ◌≤◌, unsigned_abs};

#[derive(Clone, Copy, PartialEq, Eq, Debug)]
pub struct Line {
    pub a: i32,
    pub b: i32,
    pub c: i32,
    ghost a_within: { unsigned_abs a ≤ 20000 },
    ghost b_within: { unsigned_abs b ≤ 20000 },
    ghost c_within: { unsigned_abs c ≤ 200000000 },
    ghost proper: { 0 < unsigned_abs a + unsigned_abs b },
}
