// A walk as far as a search has come with it.
ghost use Rattle.std.specs.Prelude.{◌≡◌, ℕ, ◌<◌, List, [], ◌∷◌, ◌++◌, length};
ghost use Rattle.plane.specs.declared.quad.Quad.{Quad};
ghost use Rattle.visibility.specs.Sets.{marks, only};

use crate::arrays::no_marks;
use crate::row::ROOMS;
use arrayvec::ArrayVec;
use maps::doorway::Room;
use plane::quad::Quad;

// The rooms that the walk entered, the doorways that it passed and the crossings on its way.
#[derive(Drop)]
pub(crate) struct Trail {
    pub entered: [bool; ROOMS],
    pub doors: ArrayVec<usize, ROOMS>,
    pub path: ArrayVec<Quad, ROOMS>,
}

impl Trail {
    // The walk that stays in the room a.
    pub(crate) fn new(a: Room) -> Trail
        ensures entered { (marks result.entered ≡ only a) × (length result.entered ≡ 256) }
        ensures walk { (result.doors.items ≡ []) × (result.path.items ≡ []) }
    {
        let mut entered = no_marks();
        entered[a as usize] = true;
        Trail {
            entered,
            doors: ArrayVec::new(),
            path: ArrayVec::new(),
        }
    }

    // Goes on through doorway k.
    pub(crate) fn step(&mut self, k: usize, quad: Quad)
        requires { (length self.old.doors.items < 256) × (length self.old.path.items < 256) }
        ensures entered { self.new.entered ≡ self.old.entered }
        ensures doors { self.new.doors.items ≡ self.old.doors.items ++ k ∷ [] }
        ensures path { self.new.path.items ≡ self.old.path.items ++ quad ∷ [] }
    {
        self.doors.push(k);
        self.path.push(quad);
    }

    // Takes the last doorway back.
    pub(crate) fn back(&mut self)
        ensures entered { self.new.entered ≡ self.old.entered }
        ensures doors { (ks : List ℕ) (k : ℕ) → self.old.doors.items ≡ ks ++ k ∷ [] → self.new.doors.items ≡ ks }
        ensures path { (p : List Quad) (q : Quad) → self.old.path.items ≡ p ++ q ∷ [] → self.new.path.items ≡ p }
    {
        self.doors.pop();
        self.path.pop();
    }
}
