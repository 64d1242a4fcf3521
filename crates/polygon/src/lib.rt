// Reads a floor plan that is given as an OFF polygon file, and makes the map of it.
#![tactic(auto)]

mod chains;
mod convexity;
mod corners;
pub mod counts;
mod doorways;
mod edge;
mod edges;
mod faces;
mod headings;
mod layout;
pub mod map;
pub mod plans;
mod wholes;
