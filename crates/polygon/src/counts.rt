// How many rooms and doorways a plan has.
#[derive(Clone, Copy, PartialEq, Debug)]
pub struct Counts {
    pub rooms: usize,
    pub doorways: usize,
}
