// Runs of calls with their answers in a space of the caller's.
ghost use Rattle.std.specs.Prelude.{◌≡◌, ℕ, ◌<◌, ◌≤◌, min, List, ◌∷◌, reverse, length, take, drop};
ghost use Rattle.std.specs.List.{HoldsAt};
ghost use Rattle.visibility.specs.declared.call.Call.{Call};
ghost use Rattle.visibility.specs.Calls.{Answered};
ghost use Rattle.visibility.specs.Histories.{Stands, shut_after, SeenAfter};
ghost use Rattle.visibility.specs.States.{state_of};
ghost use Rattle.visibility.specs.Walks.{Lined};
ghost use Rattle.visibility.specs.Worlds.{meant};

use crate::call::{Answer, Call};
use crate::refusal::Refusal;
use crate::table::Table;
use maps::map::Map;
use stabbing::stabber::{Sharp, Stabber};

// The calls one after the other on a fresh table, each with its answer, as far as there is space for answers. Every call
// is answered as the calls before it say, and the table then stands for all of them, the latest first.
pub fn run_calls<M: Map, S: Stabber>(
    map: M,
    stabber: S,
    calls: &[Call],
    answers: &mut [Result<Answer, Refusal>],
) -> Table<M, S>
    ensures answered { (i : ℕ) → i < min (length calls.now) (length answers.old) → HoldsAt (λ call. HoldsAt (λ a. Answered (meant M.Map S.Stabber map stabber) (reverse (take i calls.now)) call a) answers.new i) calls.now i }
    ensures rest { drop (min (length calls.now) (length answers.old)) answers.new ≡ drop (min (length calls.now) (length answers.old)) answers.old }
    ensures stands { Stands (meant M.Map S.Stabber map stabber) (reverse (take (min (length calls.now) (length answers.old)) calls.now)) (state_of result) }
    ensures complete { (h : List Call) (a b : ℕ) → Lined (meant M.Map S.Stabber map stabber) (shut_after (meant M.Map S.Stabber map stabber) h) a b → SeenAfter (meant M.Map S.Stabber map stabber) h a b }
{
    let mut table = Table::new(map, stabber);
    let count = calls.len().min(answers.len());
    // With `zip` over `iter_mut` the answers are lost to the proof once they are written.
    for (i, call) in calls[..count].iter().enumerate() {
        answers[i] = table.answer(*call);
    }
    table
}

// The same over a sharp stabber, where a room is seen exactly when some open walk to it has a separating line.
pub fn run_calls_sharp<M: Map, S: Sharp>(
    map: M,
    stabber: S,
    calls: &[Call],
    answers: &mut [Result<Answer, Refusal>],
) -> Table<M, S>
    ensures answered { (i : ℕ) → i < min (length calls.now) (length answers.old) → HoldsAt (λ call. HoldsAt (λ a. Answered (meant M.Map S.Stabber map stabber) (reverse (take i calls.now)) call a) answers.new i) calls.now i }
    ensures rest { drop (min (length calls.now) (length answers.old)) answers.new ≡ drop (min (length calls.now) (length answers.old)) answers.old }
    ensures stands { Stands (meant M.Map S.Stabber map stabber) (reverse (take (min (length calls.now) (length answers.old)) calls.now)) (state_of result) }
    ensures complete { (h : List Call) (a b : ℕ) → Lined (meant M.Map S.Stabber map stabber) (shut_after (meant M.Map S.Stabber map stabber) h) a b → SeenAfter (meant M.Map S.Stabber map stabber) h a b }
    ensures sharp { (h : List Call) (a b : ℕ) → SeenAfter (meant M.Map S.Stabber map stabber) h a b → Lined (meant M.Map S.Stabber map stabber) (shut_after (meant M.Map S.Stabber map stabber) h) a b }
{
    run_calls(map, stabber, calls, answers)
}
