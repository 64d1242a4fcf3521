// One row, filled.
ghost use Rattle.std.specs.Prelude.{◌≡◌, ℕ, ◌<◌, ◌≤◌, false, [], length, if◌then◌else◌};
ghost use Rattle.visibility.specs.Sets.{marks, Exactly};
ghost use Rattle.visibility.specs.Worlds.{meant};
ghost use Rattle.visibility.specs.Walks.{TrueRow};
ghost use Rattle.visibility.specs.Questions.{walks_from, asked_all};
ghost use Rattle.visibility.specs.Bits.{shown, marked};
ghost use Rattle.std.proofs.Common.{rules};

use crate::deck::Deck;
use crate::row::Row;
use crate::visitor::Visitor;
use maps::doorway::Room;
use maps::map::Map;
use plane::quad::Quad;
use stabbing::stabber::Stabber;

// Marks the rooms to which walks that are let through lead.
impl<S: Stabber> Visitor<S> for Row {
    ghost lets = { λ s p. S.Stabber.lets s p };

    ghost heard = { λ s p. S.Stabber.asked s p };

    ghost told = { λ v s t. (if S.Stabber.lets s t.path then (record { bytes = marked v.bytes t.room }) else v) };

    ghost ended = { λ _. false };

    ghost steady = { Prim.search rules };

    fn visit(&mut self, stabber: &mut S, doors: &[usize], room: Room, path: &[Quad]) -> bool {
        let through = stabber.lets_through(path);
        if through {
            self.mark(room);
        }
        through
    }

    fn has_ended(&self) -> bool {
        false
    }
}

// The row of the room a.
pub(crate) fn true_row<M: Map, S: Stabber>(deck: &Deck<M>, stabber: &mut S, a: Room) -> Row
    requires { a < M.Map.rooms deck.now.map.now }
    ensures value { Exactly (shown result.bytes) (TrueRow (meant M.Map S.Stabber deck.now.map.now stabber.old) (marks deck.now.shut.now) a) }
    ensures asked { stabber.new ≡ asked_all S.Stabber.asked stabber.old (walks_from (meant M.Map S.Stabber deck.now.map.now stabber.old) (marks deck.now.shut.now) a) }
    ensures lets { S.Stabber.lets stabber.new ≡ S.Stabber.lets stabber.old }
{
    let mut row = Row::new();
    row.mark(a);
    deck.search_from(stabber, &mut row, a);
    row
}
