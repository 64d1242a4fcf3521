// A doorway as six plain numbers, which nothing has tested yet; all zeros where none is held.
#[derive(Clone, Copy, PartialEq, Debug, Default)]
pub struct Passage {
    pub near: u8,
    pub far: u8,
    pub left_x: i32,
    pub left_y: i32,
    pub right_x: i32,
    pub right_y: i32,
}

impl Passage {
    // No doorway.
    pub const NONE: Passage = Passage {
        near: 0,
        far: 0,
        left_x: 0,
        left_y: 0,
        right_x: 0,
        right_y: 0,
    };
}
