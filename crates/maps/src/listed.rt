// A map that holds a list of doorways.
ghost use Rattle.std.specs.Prelude.{◌≡◌, ◌≤◌, true, length};
ghost use Rattle.maps.specs.Passages.{within};
ghost use Rattle.maps.specs.Inside.{within_all};

use crate::doorway::Doorway;
use crate::map::Map;
use arrayvec::ArrayVec;

// At most this many doorways.
pub(crate) const MOST_DOORWAYS: usize = 2048;

#[derive(Drop)]
pub struct Listed {
    pub(crate) rooms: usize,
    pub(crate) held: ArrayVec<Doorway, MOST_DOORWAYS>,
    ghost inhabited: { 1 ≤ rooms },
    ghost bounded: { rooms ≤ 256 },
    ghost few: { length held.items ≤ 2048 },
    ghost inside: { within rooms held.items ≡ true },
}

impl Map for Listed {
    ghost rooms = { λ m. m.rooms };

    ghost doorways = { λ m. m.held.items };

    ghost inhabited = { λ m. m.inhabited };

    ghost bounded = { λ m. m.bounded };

    ghost few = { λ m. m.few };

    ghost inside = { λ m. within_all m.rooms _ m.inside };

    fn room_count(&self) -> usize {
        self.rooms
    }

    fn doorway_count(&self) -> usize {
        self.held.len()
    }

    fn doorway(&self, k: usize) -> Option<Doorway> {
        self.held.as_slice().get(k).copied()
    }
}
