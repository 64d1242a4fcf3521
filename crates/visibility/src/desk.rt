// What answers orders.
ghost use Rattle.std.specs.Prelude.{◌≡◌, Bool, List, ◌∷◌};
ghost use Rattle.visibility.specs.declared.call.Call.{Call};
ghost use Rattle.visibility.specs.Histories.{Stands};
ghost use Rattle.visibility.specs.Replies.{Answered};
ghost use Rattle.visibility.specs.States.{State};
ghost use Rattle.visibility.specs.Worlds.{World};

use crate::order::Order;

// A desk answers orders on its table.
//   world d   the rooms, the doorways and the paths that are let through
//   state d   what the table holds
//   sharp d   whether witnesses are to be had
pub trait Desk {
    ghost world: { Self → World };

    ghost state: { Self → State };

    ghost sharp: { Self → Bool };

    // Makes the call, after any history that the table stands for, and writes down its answer.
    fn serve(&mut self, order: &mut Order)
        ensures value { (h : List Call) → Stands (world self.old) h (state self.old) → Answered (sharp self.old) (world self.old) h order.old order.new }
        ensures after { (h : List Call) → Stands (world self.old) h (state self.old) → Stands (world self.old) (order.old.call ∷ h) (state self.new) }
        ensures world { world self.new ≡ world self.old }
        ensures sharp { sharp self.new ≡ sharp self.old };
}
