// The piles of stabbers by name, and tasks over the stabber of any of them.
#![tactic(auto)]

pub mod pile;
pub mod task;
