// A call with the space that the caller lends for it, and its answer once the call was made.
use crate::call::{Answer, Call};
use crate::refusal::Refusal;

#[derive(Drop)]
pub struct Order {
    pub call: Call,
    pub answer: Option<Result<Answer, Refusal>>,
    // Space for the doorways of a witness.
    pub doorways: Vec<usize>,
    // Space for a bitmap.
    pub bytes: Vec<u8>,
}
