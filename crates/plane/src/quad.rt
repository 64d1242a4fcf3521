// A crossing as four plain numbers, which nothing has tested yet.
#[derive(Clone, Copy, PartialEq, Eq, Debug, Default)]
pub struct Quad {
    pub lx: i32,
    pub ly: i32,
    pub rx: i32,
    pub ry: i32,
}
