// Maps: rooms, and the doorways between them.
#![tactic(auto)]

pub mod doorway;
pub mod gather;
pub mod listed;
pub mod lists;
pub mod map;
pub mod passage;
