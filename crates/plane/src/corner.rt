// A corner of a polygon.
use crate::post::Post;

#[derive(Clone, Copy, PartialEq, Eq, Debug)]
pub struct Corner {
    pub at: Post,
}

impl Corner {
    // The corner at (0, 0).
    pub const ORIGIN: Corner = Corner {
        at: Post { x: 0, y: 0 },
    };
}
