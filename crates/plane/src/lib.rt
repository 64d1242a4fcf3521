// Posts, crossings and lines in the plane, and the one check that sets elements against a line.
#![tactic(auto)]

pub mod check;
pub mod corner;
pub mod crossing;
pub mod join;
pub mod line;
pub mod make;
pub mod path;
pub mod post;
pub mod quad;
pub mod refusal;
pub mod value;
