// Orders: `through K ..` walks doorways by number, `Kr` from far to near.
use decks::Plan;
use maps::map::Map;
use plane::quad::Quad;
use std::alloc::{AllocError, Global};

// The crossing of the doorway that a word names, as walked.
fn walked(plan: &Plan, word: &str) -> Option<Quad> {
    let (digits, back) = match word.strip_suffix('r') {
        Some(digits) => (digits, true),
        None => (word, false),
    };
    let there = plan.doorway(digits.parse().ok()?)?.crossing;
    Some(Quad::from(if back { there.turned() } else { there }))
}

// The path of an order, or nothing where it is none.
pub fn path(heap: Global, plan: &Plan, order: &str) -> Result<Option<Vec<Quad>>, AllocError> {
    let mut words = order.split_whitespace();
    let mut quads = Vec::new(heap);
    if words.next() != Some("through") {
        return Ok(None);
    }
    for word in words {
        let Some(quad) = walked(plan, word) else {
            return Ok(None);
        };
        quads.push(quad)?;
    }
    Ok(Some(quads))
}
