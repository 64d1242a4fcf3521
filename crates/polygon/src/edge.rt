// An edge of a face, from one corner to the next.
#[derive(Clone, Copy, PartialEq, Debug, Default)]
pub struct Edge {
    pub from: u16,
    pub to: u16,
    pub face: u8,
}
