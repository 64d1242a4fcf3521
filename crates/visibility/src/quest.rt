// The search for the first walk to a room.
ghost use Rattle.std.specs.Prelude.{◌≡◌, ◌≤◌, length, is_some, None};
ghost use Rattle.visibility.specs.Quests.{quested, kept};
ghost use Rattle.std.proofs.Common.{rules};

use crate::row::ROOMS;
use crate::visitor::Visitor;
use arrayvec::ArrayVec;
use maps::doorway::Room;
use plane::quad::Quad;
use stabbing::stabber::Sharp;

// A walk to the goal: a line that separates its path, and its doorways.
#[derive(Drop)]
pub(crate) struct Found {
    pub line: (i32, i32, i32),
    pub doors: ArrayVec<usize, ROOMS>,
}

// Wants a walk to the room `goal` that has a line, and keeps the first.
#[derive(Drop)]
pub(crate) struct Quest {
    pub goal: Room,
    pub found: Option<Found>,
}

impl Quest {
    pub(crate) fn new(goal: Room) -> Quest
        ensures { (result.goal ≡ goal) × (result.found ≡ None) }
    {
        Quest { goal, found: None }
    }

    fn keep(&mut self, line: (i32, i32, i32), doors: &[usize])
        requires { length doors.now ≤ 256 }
        ensures { self.new ≡ kept self.old line doors.now }
    {
        if let Ok(doors) = ArrayVec::try_from(doors) {
            self.found = Some(Found { line, doors });
        }
    }
}

impl<S: Sharp> Visitor<S> for Quest {
    ghost lets = { λ s p. S.Stabber.lets s p };

    ghost heard = { λ s p. S.Sharp.lined s p };

    ghost told = { λ v s t. quested v (S.Sharp.line s t.path) t };

    ghost ended = { λ v. is_some v.found };

    ghost steady = { Prim.search rules };

    fn visit(&mut self, stabber: &mut S, doors: &[usize], room: Room, path: &[Quad]) -> bool {
        match stabber.stabbing_line(path) {
            Some(line) => {
                if room == self.goal {
                    self.keep(line, doors);
                }
                true
            }
            None => false,
        }
    }

    fn has_ended(&self) -> bool {
        self.found.is_some()
    }
}
