// What is searched.
ghost use Rattle.std.specs.Prelude.{◌≡◌, ◌+◌, ◌<◌, ◌≤◌, length};
ghost use Rattle.visibility.specs.Indexes.{Indexed, Passed};

use crate::index::Index;
use maps::doorway::Room;
use maps::map::Map;

// A map, and which of its doorways are shut. Where to look for the doorways of each room says an index, which is lent beside it: to move
// one costs as much as to make one.
#[derive(Drop)]
pub(crate) struct Deck<'a, M: Map> {
    pub map: &'a M,
    pub shut: &'a [bool],
    ghost long: { length (M.Map.doorways map.now) ≤ length shut.now },
}

impl<'a, M: Map> Deck<'a, M> {
    pub(crate) fn new(map: &'a M, shut: &'a [bool]) -> Deck<'a, M>
        requires { length (M.Map.doorways map.now) ≤ length shut.now }
        ensures { (result.map ≡ map.entry) × (result.shut ≡ shut.entry) }
    {
        Deck { map, shut }
    }

    // No doorway before this one has a side in the room.
    pub(crate) fn begin(&self, index: &Index, here: Room) -> usize
        requires { Indexed (M.Map.doorways self.now.map.now) index.now }
        ensures { Passed (M.Map.doorways self.now.map.now) here 0 result }
    {
        index.first[here as usize]
    }

    // No doorway after k and before this one has a side in the room.
    pub(crate) fn after(&self, index: &Index, here: Room, k: usize) -> usize
        requires index { Indexed (M.Map.doorways self.now.map.now) index.now }
        requires doorway { k < length (M.Map.doorways self.now.map.now) }
        ensures { Passed (M.Map.doorways self.now.map.now) here (k + 1) result }
    {
        match self.map.doorway(k) {
            Some(doorway) if doorway.near == here => index.next[k].near,
            Some(doorway) if doorway.far == here => index.next[k].far,
            _ => k + 1,
        }
    }
}
