// Tasks over a stabber of any kind, and the stabber of each pile.
ghost use Rattle.std.specs.Prelude.{◌≡◌, Bool, false, ⊤, List, Option, None};
ghost use Rattle.plane.specs.Separation.{Coefficients};
ghost use Rattle.piles.specs.declared.pile.Pile.TheVariants.{Exact as ExactAlone, MemoryExact, BothWedgeExact, MemoryBothWedgeExact, BothWedgeMemoryExact, MemoryMemoryExact};
ghost use Rattle.plane.specs.declared.quad.Quad.{Quad};
ghost use Rattle.piles.specs.Sets.{lets_of, is_sharp, says};

use crate::pile::Pile;
use stabbing::both::Both;
use stabbing::exact::Exact;
use stabbing::memory::Memory;
use stabbing::stabber::{Sharp, Stabber};
use stabbing::wedge::Wedge;

// What is to be done with a stabber.
//   done t L r    r may come of the task t over a stabber that lets through the paths L
//   lined t L A r the same over a sharp stabber that answers the lines A to any paths, one after the other
pub trait Task {
    type Done;

    ghost done: { Self → (List Quad → Bool) → Self.Done → Type 0 } = { λ _ _ _. ⊤ };

    ghost lined: { Self → (List Quad → Bool) → (List (List Quad) → List (Option Coefficients)) → Self.Done → Type 0 } = { λ _ _ _ _. ⊤ };

    fn over<S: Stabber + Drop>(self, stabber: S) -> Self::Done
        ensures { done self (S.Stabber.lets stabber) result };

    fn over_sharp<S: Sharp + Drop>(self, stabber: S) -> Self::Done
        ensures { lined self (S.Stabber.lets stabber) (says S.Sharp.line S.Sharp.lined stabber) result };
}

impl Pile {
    // The task over this pile's stabber, which was asked nothing before.
    pub fn perform<T: Task>(self, task: T) -> T::Done
        ensures plain { is_sharp self ≡ false → T.done task (lets_of self) result }
        ensures exact { self ≡ ExactAlone → T.lined task (lets_of self) (says ⟦<Exact as Sharp>⟧.line ⟦<Exact as Sharp>⟧.lined (record {})) result }
        ensures memory_exact { self ≡ MemoryExact → T.lined task (lets_of self) (says ⟦<Memory<Exact> as Sharp>⟧.line ⟦<Memory<Exact> as Sharp>⟧.lined (record { below = record {}; held = None })) result }
        ensures both_wedge_exact { self ≡ BothWedgeExact → T.lined task (lets_of self) (says ⟦<Both<Wedge, Exact> as Sharp>⟧.line ⟦<Both<Wedge, Exact> as Sharp>⟧.lined (record { front = record {}; back = record {} })) result }
        ensures memory_both { self ≡ MemoryBothWedgeExact → T.lined task (lets_of self) (says ⟦<Memory<Both<Wedge, Exact>> as Sharp>⟧.line ⟦<Memory<Both<Wedge, Exact>> as Sharp>⟧.lined (record { below = record { front = record {}; back = record {} }; held = None })) result }
        ensures both_memory { self ≡ BothWedgeMemoryExact → T.lined task (lets_of self) (says ⟦<Both<Wedge, Memory<Exact>> as Sharp>⟧.line ⟦<Both<Wedge, Memory<Exact>> as Sharp>⟧.lined (record { front = record {}; back = record { below = record {}; held = None } })) result }
        ensures memory_memory { self ≡ MemoryMemoryExact → T.lined task (lets_of self) (says ⟦<Memory<Memory<Exact>> as Sharp>⟧.line ⟦<Memory<Memory<Exact>> as Sharp>⟧.lined (record { below = record { below = record {}; held = None }; held = None })) result }
    {
        let exact = Exact {};
        let wedge = Wedge {};
        let both = Both {
            front: wedge,
            back: exact,
        };
        match self {
            Pile::Exact => task.over_sharp(exact),
            Pile::Wedge => task.over(wedge),
            Pile::MemoryExact => task.over_sharp(Memory::new(exact)),
            Pile::BothWedgeExact => task.over_sharp(both),
            Pile::MemoryBothWedgeExact => task.over_sharp(Memory::new(both)),
            Pile::BothWedgeMemoryExact => task.over_sharp(Both {
                front: wedge,
                back: Memory::new(exact),
            }),
            Pile::MemoryMemoryExact => task.over_sharp(Memory::new(Memory::new(exact))),
        }
    }
}
