// Orders by their words.
use crate::lines::words;
use std::alloc::{AllocError, Global};
use visibility::call::Call;
use visibility::order::Order;

// The longest bitmap is that of 256 rooms.
const BITMAP: usize = 8203;

// A decimal number of one to nine digits.
fn number(word: &[u8]) -> Option<usize> {
    if word.len() > 9 || !word.iter().all(|b| b.is_ascii_digit()) {
        return None;
    }
    std::str::from_utf8(word).ok()?.parse().ok()
}

// The call that the words name.
fn call(words: &[&[u8]]) -> Option<Call> {
    match words {
        [b"fill", a] => Some(Call::Fill(number(a)?)),
        [b"shows", a, b] => Some(Call::Shows(number(a)?, number(b)?)),
        [b"shut", k] => Some(Call::Shut(number(k)?)),
        [b"open", k] => Some(Call::Open(number(k)?)),
        [b"witness", a, b] => Some(Call::Witness(number(a)?, number(b)?)),
        [b"bitmap"] => Some(Call::Bitmap),
        _ => None,
    }
}

// The order in a line, with the space that it needs; nothing where the line is no order.
pub fn order(heap: Global, rooms: usize, line: &[u8]) -> Result<Option<Order>, AllocError> {
    let words = words(heap, line)?;
    let Some(call) = call(words.as_slice()) else {
        return Ok(None);
    };
    let (doorways, bytes) = match call {
        Call::Witness(_, _) => (rooms, 0),
        Call::Bitmap => (0, BITMAP),
        _ => (0, 0),
    };
    Ok(Some(Order {
        call,
        answer: None,
        doorways: vec![in heap; 0usize; doorways]?,
        bytes: vec![in heap; 0u8; bytes]?,
    }))
}
