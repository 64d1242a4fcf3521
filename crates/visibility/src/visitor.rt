// What a search does with each walk that it comes to.
ghost use Rattle.std.specs.Prelude.{◌≡◌, ◌≤◌, Bool, List, length};
ghost use Rattle.plane.specs.declared.quad.Quad.{Quad};
ghost use Rattle.visibility.specs.Trips.{Trip};

use maps::doorway::Room;
use plane::quad::Quad;

// A visitor is told of walks, one by one, and puts to the stabber one question about each.
//   lets s p     whether the stabber s lets the path p through
//   heard s p    how the stabber s stands after the question about p
//   told v s t   how the visitor v stands after it was told of the walk t, where the stabber stood as s
//   ended v      whether v wants to be told of no more walks
pub(crate) trait Visitor<S> {
    ghost lets: { S → List Quad → Bool };

    ghost heard: { S → List Quad → S };

    ghost told: { Self → S → Trip → Self };

    ghost ended: { Self → Bool };

    // Tells of the walk by its doorways, the room that it leads to and its path; answers whether it is let through.
    fn visit(&mut self, stabber: &mut S, doors: &[usize], room: Room, path: &[Quad]) -> bool
        requires { length doors.now ≤ 256 }
        ensures value { result ≡ lets stabber.old path.now }
        ensures stabber { stabber.new ≡ heard stabber.old path.now }
        ensures after { self.new ≡ told self.old stabber.old (record { doors = doors.entry.now; room = room; path = path.now }) };

    fn has_ended(&self) -> bool
        ensures { result ≡ ended self.now };

    // A question leaves the stabber's set unchanged.
    ghost steady: { (s : S) (p q : List Quad) → lets (heard s p) q ≡ lets s q };
}
