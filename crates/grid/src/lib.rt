// Reads a floor plan that is drawn as a plain PBM picture.
#![tactic(auto)]

mod colours;
mod doorways;
mod drawn;
mod headings;
mod map;
mod pixels;
mod plans;
mod sizes;

pub use map::GridMap;
pub use plans::read;
pub use sizes::Size;
