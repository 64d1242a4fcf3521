// The calls on a table.
ghost use Rattle.std.specs.Prelude.{◌≡◌, ℕ, Bool, true, false, [], length, if◌then◌else◌, nat_lt};
ghost use Rattle.visibility.specs.Limits.{most_doorways};
ghost use Rattle.visibility.specs.Orders.{InOrder};
ghost use Rattle.visibility.specs.Questions.{walks_from, asked_all};
ghost use Rattle.visibility.specs.Sets.{none, marks};
ghost use Rattle.visibility.specs.States.{world_of, state_of, ByGround, no_room, no_sight, no_turn, Fills, Turns};

use crate::arrays::no_marks;
use crate::deck::Deck;
use crate::fill::true_row;
use crate::refusal::Refusal;
use crate::rows::Rows;
use crate::table::Table;
use maps::doorway::Room;
use maps::map::Map;
use stabbing::stabber::Stabber;

impl<M: Map, S: Stabber> Table<M, S> {
    // Every doorway is open, and no row filled.
    pub fn new(map: M, stabber: S) -> Table<M, S>
        ensures shut { (state_of result).shut ≡ none }
        ensures filled { (state_of result).filled ≡ none }
        ensures owns { (result.map ≡ map) × (result.stabber ≡ stabber) }
    {
        let closed = no_marks();
        let rows = Rows::new();
        Table {
            map,
            stabber,
            closed,
            rows,
        }
    }

    // Fills row a, and answers how many rooms it shows. The questions go in dictionary order of the walks.
    pub fn fill(&mut self, a: usize) -> Result<usize, Refusal>
        ensures value { ByGround (no_room (world_of M.Map S.Stabber self.old) a) result (state_of self.old) (state_of self.new) (Fills (world_of M.Map S.Stabber self.old) (state_of self.old) a (state_of self.new)) }
        ensures asked { self.new.stabber ≡ (if nat_lt a (M.Map.rooms self.old.map) then asked_all S.Stabber.asked self.old.stabber (walks_from (world_of M.Map S.Stabber self.old) (marks self.old.closed) a) else self.old.stabber) }
        ensures order { InOrder (world_of M.Map S.Stabber self.old) (marks self.old.closed) a (walks_from (world_of M.Map S.Stabber self.old) (marks self.old.closed) a) }
        ensures map { self.new.map ≡ self.old.map }
        ensures lets { S.Stabber.lets self.new.stabber ≡ S.Stabber.lets self.old.stabber }
    {
        if a >= self.map.room_count() {
            return Err(Refusal::NoSuchRoom);
        }
        let deck = Deck::new(&self.map, &self.closed);
        let row = true_row(&deck, &mut self.stabber, a as Room);
        self.rows.fill(a as Room, row);
        Ok(row.count())
    }

    // Whether row a shows room b.
    pub fn shows(&self, a: usize, b: usize) -> Result<bool, Refusal>
        ensures { ByGround (no_sight (world_of M.Map S.Stabber self.now) (state_of self.now) a b) result (state_of self.now) (state_of self.now) (λ y. y ≡ (state_of self.now).shows a b) }
    {
        let rooms = self.map.room_count();
        if a >= rooms || b >= rooms {
            return Err(Refusal::NoSuchRoom);
        }
        if !self.rows.is_filled(a as Room) {
            return Err(Refusal::NotFilled);
        }
        Ok(self.rows.shows(a as Room, b as Room))
    }

    // Shuts or opens doorway k, and answers how many rows are filled no more.
    fn turn(&mut self, k: usize, v: bool) -> Result<usize, Refusal>
        ensures value { ByGround (no_turn (world_of M.Map S.Stabber self.old) (state_of self.old) k v) result (state_of self.old) (state_of self.new) (Turns (world_of M.Map S.Stabber self.old) (state_of self.old) k v (state_of self.new)) }
        ensures owns { (self.new.map ≡ self.old.map) × (self.new.stabber ≡ self.old.stabber) }
    {
        let rooms = self.map.room_count();
        let Some(doorway) = self.map.doorway(k) else {
            return Err(Refusal::NoSuchDoorway);
        };
        if self.closed[k] == v {
            return Err(Refusal::Already);
        }
        self.closed[k] = v;
        Ok(self.rows.unfill(rooms, doorway.near, doorway.far))
    }

    // Shuts doorway k.
    pub fn shut(&mut self, k: usize) -> Result<usize, Refusal>
        ensures value { ByGround (no_turn (world_of M.Map S.Stabber self.old) (state_of self.old) k true) result (state_of self.old) (state_of self.new) (Turns (world_of M.Map S.Stabber self.old) (state_of self.old) k true (state_of self.new)) }
        ensures owns { (self.new.map ≡ self.old.map) × (self.new.stabber ≡ self.old.stabber) }
    {
        self.turn(k, true)
    }

    // Opens doorway k.
    pub fn open(&mut self, k: usize) -> Result<usize, Refusal>
        ensures value { ByGround (no_turn (world_of M.Map S.Stabber self.old) (state_of self.old) k false) result (state_of self.old) (state_of self.new) (Turns (world_of M.Map S.Stabber self.old) (state_of self.old) k false (state_of self.new)) }
        ensures owns { (self.new.map ≡ self.old.map) × (self.new.stabber ≡ self.old.stabber) }
    {
        self.turn(k, false)
    }
}
