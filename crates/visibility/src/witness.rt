// Witnesses: the first walk between two rooms that has a line.
ghost use Rattle.std.specs.Prelude.{◌≡◌, ◌<◌, ◌≤◌, [], length, is_some, IfSome, if◌then◌else◌, ◌≢◌};
ghost use Rattle.visibility.specs.Orders.{InOrder};
ghost use Rattle.visibility.specs.Questions.{walks_from, asked_all};
ghost use Rattle.visibility.specs.Sets.{marks};
ghost use Rattle.visibility.specs.States.{world_of, state_of};
ghost use Rattle.visibility.specs.Witnesses.{leads, ahead, until, no_witness, Told, Witnessed};
ghost use Rattle.visibility.specs.Worlds.{meant};

use crate::deck::Deck;
use crate::quest::{Found, Quest};
use crate::refusal::Refusal;
use crate::sightline::Sightline;
use crate::table::Table;
use maps::doorway::Room;
use maps::map::Map;
use stabbing::stabber::Sharp;

// The first open walk from a to b that has a line, with that line.
fn first_walk<M: Map, S: Sharp>(deck: &Deck<M>, stabber: &mut S, a: Room, b: Room) -> Option<Found>
    requires room { a < M.Map.rooms deck.now.map.now }
    requires apart { a ≢ b }
    ensures value { Told (meant M.Map S.Stabber deck.now.map.now stabber.old) (marks deck.now.shut.now) a b (S.Sharp.line (asked_all S.Sharp.lined stabber.old (ahead (leads (meant M.Map S.Stabber deck.now.map.now stabber.old) b) (walks_from (meant M.Map S.Stabber deck.now.map.now stabber.old) (marks deck.now.shut.now) a)))) result }
    ensures short { IfSome result (λ v. length v.doors.items < M.Map.rooms deck.now.map.now) }
    ensures asked { stabber.new ≡ asked_all S.Sharp.lined stabber.old (until (leads (meant M.Map S.Stabber deck.now.map.now stabber.old) b) (walks_from (meant M.Map S.Stabber deck.now.map.now stabber.old) (marks deck.now.shut.now) a)) }
    ensures lets { S.Stabber.lets stabber.new ≡ S.Stabber.lets stabber.old }
{
    let mut quest = Quest::new(b);
    deck.search_from(stabber, &mut quest, a);
    quest.found
}

impl<M: Map, S: Sharp> Table<M, S> {
    // Writes the doorways of the first open walk from a to b that has a line into the space, and answers how many these are, and
    // the line. The questions go in dictionary order of the walks, and end with the walk that is found.
    pub fn witness(&mut self, a: usize, b: usize, space: &mut [usize]) -> Result<Sightline, Refusal>
        ensures value { Witnessed (world_of M.Map S.Stabber self.old) (marks self.old.closed) a b (S.Sharp.line (asked_all S.Sharp.lined self.old.stabber (ahead (leads (world_of M.Map S.Stabber self.old) b) (walks_from (world_of M.Map S.Stabber self.old) (marks self.old.closed) a)))) (no_witness (world_of M.Map S.Stabber self.old) a b (length space.old)) result space.old space.new }
        ensures asked { self.new.stabber ≡ (if is_some (no_witness (world_of M.Map S.Stabber self.old) a b (length space.old)) then self.old.stabber else asked_all S.Sharp.lined self.old.stabber (until (leads (world_of M.Map S.Stabber self.old) b) (walks_from (world_of M.Map S.Stabber self.old) (marks self.old.closed) a))) }
        ensures order { InOrder (world_of M.Map S.Stabber self.old) (marks self.old.closed) a (walks_from (world_of M.Map S.Stabber self.old) (marks self.old.closed) a) }
        ensures same { state_of self.new ≡ state_of self.old }
        ensures map { self.new.map ≡ self.old.map }
        ensures lets { S.Stabber.lets self.new.stabber ≡ S.Stabber.lets self.old.stabber }
    {
        let rooms = self.map.room_count();
        if a >= rooms || b >= rooms {
            return Err(Refusal::NoSuchRoom);
        }
        if a == b {
            return Err(Refusal::SameRoomTwice);
        }
        if space.len() < rooms - 1 {
            return Err(Refusal::SpaceTooShort);
        }
        let deck = Deck::new(&self.map, &self.closed);
        let found = first_walk(&deck, &mut self.stabber, a as Room, b as Room);
        match found {
            Some(walk) => {
                let doorways = walk.doors.len();
                space[..doorways].copy_from_slice(walk.doors.as_slice());
                Ok(Sightline {
                    line: walk.line,
                    doorways,
                })
            }
            None => Err(Refusal::NoLine),
        }
    }
}
