// Stabbers: what lets a path through, and by which line.
#![tactic(auto)]

mod arrow;
pub mod both;
mod doorways;
pub mod exact;
pub mod memory;
mod refutation;
mod span;
pub mod stabber;
pub mod wedge;
