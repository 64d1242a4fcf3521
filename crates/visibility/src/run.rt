// Runs: any list of orders on a fresh table.
ghost use Rattle.std.specs.Prelude.{◌≡◌, ℕ, ◌<◌, true, false, List, [], ◌∷◌, reverse, length, take};
ghost use Rattle.std.specs.List.{HoldsAt};
ghost use Rattle.visibility.specs.declared.call.Call.{Call};
ghost use Rattle.visibility.specs.Histories.{Stands, shut_after, SeenAfter};
ghost use Rattle.visibility.specs.Portals.{Sees};
ghost use Rattle.visibility.specs.Replies.{Answered, calls_of};
ghost use Rattle.visibility.specs.States.{state_of};
ghost use Rattle.visibility.specs.Worlds.{meant};

use crate::desk::Desk;
use crate::desks::Lined;
use crate::order::Order;
use crate::table::Table;
use maps::map::Map;
use stabbing::stabber::{Sharp, Stabber};

// Serves the orders one after the other, at a desk whose table is fresh. Each is answered as the calls before it say, and the table then
// stands for all of them, the latest first.
fn serve_all<D: Desk>(desk: &mut D, orders: &mut [Order])
    requires { Stands (D.Desk.world desk.old) [] (D.Desk.state desk.old) }
    ensures answered { (i : ℕ) → i < length orders.old → HoldsAt (λ o. HoldsAt (λ p. Answered (D.Desk.sharp desk.old) (D.Desk.world desk.old) (reverse (take i (calls_of orders.old))) o p) orders.new i) orders.old i }
    ensures stands { Stands (D.Desk.world desk.old) (reverse (calls_of orders.old)) (D.Desk.state desk.new) }
{
    for order in orders.iter_mut() {
        desk.serve(order);
    }
}

// The orders one after the other on a fresh table. Every order is answered as the calls before it say, the table then stands for all of
// them, the latest first, and no room that is visible is missing from a true row. Over any stabber, without witnesses.
pub fn run<M: Map, S: Stabber>(map: M, stabber: S, orders: &mut [Order]) -> Table<M, S>
    ensures answered { (i : ℕ) → i < length orders.old → HoldsAt (λ o. HoldsAt (λ p. Answered false (meant M.Map S.Stabber map stabber) (reverse (take i (calls_of orders.old))) o p) orders.new i) orders.old i }
    ensures stands { Stands (meant M.Map S.Stabber map stabber) (reverse (calls_of orders.old)) (state_of result) }
    ensures complete { (h : List Call) (a b : ℕ) → Sees (meant M.Map S.Stabber map stabber) (shut_after (meant M.Map S.Stabber map stabber) h) a b → SeenAfter (meant M.Map S.Stabber map stabber) h a b }
{
    let mut table = Table::new(map, stabber);
    serve_all(&mut table, orders);
    table
}

// The same over any sharp stabber, with witnesses: a true row has exactly the rooms that are visible.
pub fn run_sharp<M: Map, S: Sharp>(map: M, stabber: S, orders: &mut [Order]) -> Table<M, S>
    ensures answered { (i : ℕ) → i < length orders.old → HoldsAt (λ o. HoldsAt (λ p. Answered true (meant M.Map S.Stabber map stabber) (reverse (take i (calls_of orders.old))) o p) orders.new i) orders.old i }
    ensures stands { Stands (meant M.Map S.Stabber map stabber) (reverse (calls_of orders.old)) (state_of result) }
    ensures complete { (h : List Call) (a b : ℕ) → Sees (meant M.Map S.Stabber map stabber) (shut_after (meant M.Map S.Stabber map stabber) h) a b → SeenAfter (meant M.Map S.Stabber map stabber) h a b }
    ensures sharp { (h : List Call) (a b : ℕ) → SeenAfter (meant M.Map S.Stabber map stabber) h a b → Sees (meant M.Map S.Stabber map stabber) (shut_after (meant M.Map S.Stabber map stabber) h) a b }
{
    let mut desk = Lined {
        table: Table::new(map, stabber),
    };
    serve_all(&mut desk, orders);
    let Lined { table } = desk;
    table
}
