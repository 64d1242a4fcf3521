// Plans of any kind, read from a text into their maps.
#![tactic(auto)]

mod plan;

pub use plan::Plan;
