// The search through the walks from a room, in dictionary order.
ghost use Rattle.std.specs.Prelude.{◌≡◌, ◌+◌, ◌≤◌, length};
ghost use Rattle.visibility.specs.Sets.{marks, free};
ghost use Rattle.visibility.specs.Indexes.{Indexed};
ghost use Rattle.visibility.specs.Worlds.{world};
ghost use Rattle.visibility.specs.Questions.{due, walks_from, toured};

use crate::deck::Deck;
use crate::index::Index;
use crate::trail::Trail;
use crate::visitor::Visitor;
use maps::doorway::Room;
use maps::map::Map;

// Goes on from the trail, which has reached `here`, in every way that is let through, and tells the visitor of each walk until that has
// ended.
pub(crate) fn search<M: Map, S, V: Visitor<S>>(
    deck: &Deck<M>,
    index: &Index,
    stabber: &mut S,
    visitor: &mut V,
    trail: &mut Trail,
    here: Room,
)
    requires entered { M.Map.rooms deck.now.map.now ≤ length trail.old.entered }
    requires doors { length trail.old.doors.items + free (M.Map.rooms deck.now.map.now) (marks trail.old.entered) ≤ 256 }
    requires path { length trail.old.path.items + free (M.Map.rooms deck.now.map.now) (marks trail.old.entered) ≤ 256 }
    requires index { Indexed (M.Map.doorways deck.now.map.now) index.now }
    ensures trail { trail.new ≡ trail.old }
    ensures lets { V.Visitor.lets stabber.new ≡ V.Visitor.lets stabber.old }
    ensures toured { (stabber.new, visitor.new) ≡ toured V.Visitor.heard V.Visitor.told V.Visitor.ended stabber.old visitor.old (due (world (M.Map.rooms deck.now.map.now) (M.Map.doorways deck.now.map.now) (V.Visitor.lets stabber.old)) (marks deck.now.shut.now) (marks trail.old.entered) here trail.old.doors.items trail.old.path.items) }
{
    // The index says which doorway comes next; the number past the last one ends the loop.
    let count = deck.map.doorway_count();
    let mut k = deck.begin(index, here);
    while k < count {
        if visitor.has_ended() {
            return;
        }
        if let Some((room, quad)) = deck.onward(&trail.entered, here, k) {
            trail.step(k, quad);
            if visitor.visit(stabber, trail.doors.as_slice(), room, trail.path.as_slice()) {
                trail.entered[room as usize] = true;
                search(deck, index, stabber, visitor, trail, room);
                trail.entered[room as usize] = false;
            }
            trail.back();
        }
        k = deck.after(index, here, k);
    }
}

impl<'a, M: Map> Deck<'a, M> {
    // Tells the visitor of the walks from the room a, until it has ended.
    pub(crate) fn search_from<S, V: Visitor<S>>(&self, stabber: &mut S, visitor: &mut V, a: Room)
        ensures lets { V.Visitor.lets stabber.new ≡ V.Visitor.lets stabber.old }
        ensures toured { (stabber.new, visitor.new) ≡ toured V.Visitor.heard V.Visitor.told V.Visitor.ended stabber.old visitor.old (walks_from (world (M.Map.rooms self.now.map.now) (M.Map.doorways self.now.map.now) (V.Visitor.lets stabber.old)) (marks self.now.shut.now) a) }
    {
        let index = Index::new(self.map);
        let mut trail = Trail::new(a);
        search(self, &index, stabber, visitor, &mut trail, a);
    }
}
