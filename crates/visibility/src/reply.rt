// Calls as values: the answer to each, over any stabber and over sharp ones.
ghost use Rattle.std.specs.Prelude.{◌≡◌, ℕ, true, false, List, ◌∷◌};
ghost use Rattle.visibility.specs.declared.call.Call.{Call};
ghost use Rattle.visibility.specs.Calls.{Answered};
ghost use Rattle.visibility.specs.Histories.{Stands};
ghost use Rattle.visibility.specs.Replies.{Replied};
ghost use Rattle.visibility.specs.States.{world_of, state_of};

use crate::call::{Answer, Call};
use crate::refusal::Refusal;
use crate::table::Table;
use maps::map::Map;
use stabbing::stabber::{Sharp, Stabber};

impl<M: Map, S: Stabber> Table<M, S> {
    // One call, after any history that the table stands for. The bytes are space for a bitmap. A witness is not to be had here.
    pub fn reply(&mut self, call: Call, bytes: &mut [u8]) -> Result<Answer, Refusal>
        ensures value { (h : List Call) → Stands (world_of M.Map S.Stabber self.old) h (state_of self.old) → (xs : List ℕ) → Replied false (world_of M.Map S.Stabber self.old) h call result (record { doorways = xs; bytes = bytes.old }) (record { doorways = xs; bytes = bytes.new }) }
        ensures after { (h : List Call) → Stands (world_of M.Map S.Stabber self.old) h (state_of self.old) → Stands (world_of M.Map S.Stabber self.old) (call ∷ h) (state_of self.new) }
        ensures map { self.new.map ≡ self.old.map }
        ensures lets { S.Stabber.lets self.new.stabber ≡ S.Stabber.lets self.old.stabber }
    {
        match call {
            Call::Fill(a) => self.fill(a).map(Answer::Count),
            Call::Shows(a, b) => self.shows(a, b).map(Answer::Seen),
            Call::Shut(k) => self.shut(k).map(Answer::Count),
            Call::Open(k) => self.open(k).map(Answer::Count),
            Call::Bitmap => self.bitmap(bytes).map(Answer::Written),
            Call::Witness(_, _) => Ok(Answer::NotSharp),
        }
    }

    // The same with no space for a bitmap.
    pub fn answer(&mut self, call: Call) -> Result<Answer, Refusal>
        ensures value { (h : List Call) → Stands (world_of M.Map S.Stabber self.old) h (state_of self.old) → Answered (world_of M.Map S.Stabber self.old) h call result }
        ensures after { (h : List Call) → Stands (world_of M.Map S.Stabber self.old) h (state_of self.old) → Stands (world_of M.Map S.Stabber self.old) (call ∷ h) (state_of self.new) }
        ensures map { self.new.map ≡ self.old.map }
        ensures lets { S.Stabber.lets self.new.stabber ≡ S.Stabber.lets self.old.stabber }
    {
        self.reply(call, &mut [])
    }
}

impl<M: Map, S: Sharp> Table<M, S> {
    // The same over a sharp stabber, where `doorways` is space for a witness.
    pub fn reply_sharp(
        &mut self,
        call: Call,
        doorways: &mut [usize],
        bytes: &mut [u8],
    ) -> Result<Answer, Refusal>
        ensures value { (h : List Call) → Stands (world_of M.Map S.Stabber self.old) h (state_of self.old) → Replied true (world_of M.Map S.Stabber self.old) h call result (record { doorways = doorways.entry.now; bytes = bytes.old }) (record { doorways = doorways.exit.now; bytes = bytes.new }) }
        ensures after { (h : List Call) → Stands (world_of M.Map S.Stabber self.old) h (state_of self.old) → Stands (world_of M.Map S.Stabber self.old) (call ∷ h) (state_of self.new) }
        ensures map { self.new.map ≡ self.old.map }
        ensures lets { S.Stabber.lets self.new.stabber ≡ S.Stabber.lets self.old.stabber }
    {
        match call {
            Call::Witness(a, b) => self.witness(a, b, doorways).map(Answer::Found),
            _ => self.reply(call, bytes),
        }
    }
}
