// The text layer of the readers: bytes into white space, decimal numbers and marks, each fault with its number, layer and place.
#![tactic(auto)]

mod bytes;
mod faults;
mod headings;
mod lexing;

pub use bytes::is_white;
pub use faults::{Fault, Ground, Layer};
pub use headings::space_behind;
pub use lexing::{Lexer, Number};

// A text has at most this many bytes.
pub const MOST_TEXT: usize = 60_000;
