// A table: a map, a stabber, which doorways are shut, and the rows.
use crate::row::DOORWAYS;
use crate::rows::Rows;

#[derive(Drop)]
pub struct Table<M, S> {
    pub(crate) map: M,
    pub(crate) stabber: S,
    pub(crate) closed: [bool; DOORWAYS],
    pub(crate) rows: Rows,
}
