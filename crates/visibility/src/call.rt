// A call on a table, and its answer, as values.
use crate::sightline::Sightline;

#[derive(Clone, Copy)]
pub enum Call {
    Fill(usize),
    Shows(usize, usize),
    Shut(usize),
    Open(usize),
    Witness(usize, usize),
    Bitmap,
}

#[derive(Clone, Copy)]
pub enum Answer {
    // How many rooms a row shows, or how many rows are filled no more.
    Count(usize),
    // Whether a room is seen.
    Seen(bool),
    Found(Sightline),
    // How many bytes a bitmap has.
    Written(usize),
    // The stabber answers no lines, so there are no witnesses.
    NotSharp,
}
