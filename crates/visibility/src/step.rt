// The step through one doorway.
ghost use Rattle.std.specs.Prelude.{◌≡◌, ◌<◌, ◌≤◌, length};
ghost use Rattle.visibility.specs.Sets.{marks};
ghost use Rattle.visibility.specs.Steps.{leave, onward};

use crate::deck::Deck;
use maps::doorway::{Doorway, Room};
use maps::map::Map;
use plane::quad::Quad;

// Where the doorway leads from the room `here`, and by which crossing: from far to near the posts change sides.
pub fn leave(doorway: &Doorway, here: Room) -> Option<(Room, Quad)>
    ensures { result ≡ leave doorway.now here }
{
    if doorway.near == here {
        Some((doorway.far, Quad::from(doorway.crossing)))
    } else if doorway.far == here {
        Some((doorway.near, Quad::from(doorway.crossing.turned())))
    } else {
        None
    }
}

impl<'a, M: Map> Deck<'a, M> {
    // The same for doorway k, where it is open and leads to a room that was not entered yet.
    pub(crate) fn onward(&self, entered: &[bool], here: Room, k: usize) -> Option<(Room, Quad)>
        requires shut { k < length self.now.shut.now }
        requires entered { M.Map.rooms self.now.map.now ≤ length entered.now }
        ensures { result ≡ onward (M.Map.doorways self.now.map.now) (marks self.now.shut.now) (marks entered.now) here k }
    {
        if self.shut[k] {
            return None;
        }
        let doorway = self.map.doorway(k)?;
        let (room, quad) = leave(&doorway, here)?;
        if entered[room as usize] {
            return None;
        }
        Some((room, quad))
    }
}
