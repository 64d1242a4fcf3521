// The doorways of each room, so that a search passes over all others.
ghost use Rattle.std.specs.Prelude.{◌≡◌, ◌<◌, length, replicate};
ghost use Rattle.visibility.specs.Indexes.{Indexed, entered_in};

use crate::arrays::all_of;
use crate::row::{DOORWAYS, ROOMS};
use maps::doorway::{Doorway, Room};
use maps::map::Map;

// The doorways that come next after one: of its near and of its far room.
#[derive(Clone, Copy)]
pub(crate) struct Next {
    pub near: usize,
    pub far: usize,
}

// Where to look for a room's doorways, by rising number: the first, and those that come next after each doorway.
#[derive(Clone, Copy)]
pub(crate) struct Index {
    pub first: [usize; ROOMS],
    pub next: [Next; DOORWAYS],
}

impl Index {
    // Enters doorway k in front of the others of its two rooms.
    fn enter(&mut self, k: usize, doorway: &Doorway)
        requires { k < 2048 }
        ensures { self.new ≡ entered_in self.old k doorway.now }
    {
        let near = doorway.near as usize;
        let far = doorway.far as usize;
        self.next[k] = Next {
            near: self.first[near],
            far: self.first[far],
        };
        self.first[near] = k;
        self.first[far] = k;
    }

    pub(crate) fn new<M: Map>(map: &M) -> Index
        ensures { Indexed (M.Map.doorways map.now) result }
    {
        let count = map.doorway_count();
        let first = all_of(count);
        let next = all_of(Next { near: 0, far: 0 });
        let mut index = Index { first, next };
        for k in (0..count).rev() {
            if let Some(doorway) = map.doorway(k) {
                index.enter(k, &doorway);
            }
        }
        index
    }
}
