// Crossings, shortly written.
use plane::quad::Quad;

pub(crate) fn quad(lx: i32, ly: i32, rx: i32, ry: i32) -> Quad {
    Quad { lx, ly, rx, ry }
}
