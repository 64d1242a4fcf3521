// A map is made from a number of rooms and plain doorways.
ghost use Rattle.std.specs.Prelude.{◌≡◌, ◌<◌, ◌≤◌, true, map, length, take, [], MatchOption};
ghost use Rattle.std.specs.List.{AllByRecursion};
ghost use Rattle.maps.specs.Passages.{plain, Joins, Fits, within, Becomes};

use crate::doorway::Doorway;
use crate::listed::{Listed, MOST_DOORWAYS};
use crate::passage::Passage;
use arrayvec::ArrayVec;
use plane::crossing::Crossing;
use plane::post::Post;
use plane::quad::Quad;

// At most this many rooms.
const MOST_ROOMS: usize = 256;

// What fills the places of a list that hold no doorway.
impl Default for Doorway {
    ghost is_default = { λ d. (d.near ≡ 0) × (d.far ≡ 1) };

    fn default() -> Doorway {
        let left = Post { x: 0, y: 1 };
        let right = Post { x: 0, y: 0 };
        Doorway {
            near: 0,
            far: 1,
            crossing: Crossing { left, right },
        }
    }
}

// The doorway that the numbers are, between rooms below `rooms`.
fn doorway_of(rooms: usize, p: Passage) -> Option<Doorway>
    ensures { MatchOption result (Joins rooms p → ⊥) (λ d. (plain d ≡ p) × (d.near < rooms) × (d.far < rooms)) }
{
    if usize::from(p.near) >= rooms || usize::from(p.far) >= rooms || p.near == p.far {
        return None;
    }
    let crossing = Crossing::try_from(Quad {
        lx: p.left_x,
        ly: p.left_y,
        rx: p.right_x,
        ry: p.right_y,
    })
    .ok()?;
    Some(Doorway {
        near: p.near,
        far: p.far,
        crossing,
    })
}

// Puts the doorways that all of `from` are into the empty `held`; nothing where some is none. A list is lent and not answered, since a
// full one takes 40 KiB and would be moved from place to place.
fn gather(rooms: usize, from: &[Passage], held: &mut ArrayVec<Doorway, MOST_DOORWAYS>) -> Option<()>
    requires { (length from.now ≤ 2048) × (held.old.items ≡ []) }
    ensures { MatchOption result (AllByRecursion (Joins rooms) from.now → ⊥) (λ _. AllByRecursion (Joins rooms) from.now × (map plain held.new.items ≡ from.now) × (within rooms held.new.items ≡ true) × (length held.new.items ≤ 2048)) }
{
    for passage in from {
        held.push(doorway_of(rooms, *passage)?);
    }
    Some(())
}

// The same of the first `count` doorways of the space, where these and `rooms` rooms make a map.
fn fill(
    rooms: usize,
    count: usize,
    space: &[Passage],
    held: &mut ArrayVec<Doorway, MOST_DOORWAYS>,
) -> Option<()>
    requires { held.old.items ≡ [] }
    ensures { MatchOption result (Fits rooms count space.now → ⊥) (λ _. Fits rooms count space.now × (map plain held.new.items ≡ take count space.now) × (within rooms held.new.items ≡ true) × (length held.new.items ≤ 2048)) }
{
    if rooms < 1 || rooms > MOST_ROOMS || count > MOST_DOORWAYS {
        return None;
    }
    gather(rooms, space.get(..count)?, held)
}

impl Listed {
    // One room and no doorway.
    fn single() -> Listed
        ensures { (result.rooms ≡ 1) × (result.held.items ≡ []) }
    {
        Listed {
            rooms: 1,
            held: ArrayVec::new(),
        }
    }

    // The map of `rooms` rooms and the first `count` doorways of the space. Where these make none, it has one room and no doorway.
    pub fn new(rooms: usize, count: usize, space: &[Passage]) -> Listed
        ensures { Becomes rooms count space.now result.rooms result.held.items }
    {
        let mut held = ArrayVec::new();
        if fill(rooms, count, space, &mut held).is_none() {
            return Listed::single();
        }
        Listed { rooms, held }
    }
}
