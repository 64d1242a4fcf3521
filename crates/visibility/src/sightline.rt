// A walk with its line: how many doorways the walk has, and the numbers (a, b, c) of a line that separates its path.
#[derive(Clone, Copy)]
pub struct Sightline {
    pub line: (i32, i32, i32),
    pub doorways: usize,
}
