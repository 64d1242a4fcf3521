// The lines of the input, and their words.
use std::alloc::{AllocError, Global};
use text::is_white;

// The line without the white space at its ends.
pub fn trimmed(line: &[u8]) -> &[u8] {
    let start = line.iter().position(|b| !is_white(*b));
    let end = line.iter().rposition(|b| !is_white(*b));
    match (start, end) {
        (Some(start), Some(end)) => line.get(start..=end).unwrap_or(&[]),
        _ => &[],
    }
}

// The words of a line, which any white space parts.
pub fn words(heap: Global, line: &[u8]) -> Result<Vec<&[u8]>, AllocError> {
    line.split(|b| is_white(*b))
        .filter(|word| !word.is_empty())
        .collect(heap)
}
