// Refuting a post: no line through it separates the path. Such a line is 0 at the post p, at 0 or above at each left post and
// at 0 or below at each right post. So its value falls along none of the arrows from p to the left posts and from the right
// posts to p, and these lie in a half-plane.
ghost use Rattle.std.specs.Prelude.{◌≡◌, true, take, pos, ◌≤ℤ◌, MatchOption};
ghost use Rattle.std.specs.List.{ContainsAt as Has, AllByRecursion};
ghost use Rattle.plane.specs.Separation.{Coefficients, Proper, value};
ghost use Rattle.plane.specs.Shapes.{place};
ghost use Rattle.stabbing.specs.Asked.{Passed};
ghost use Rattle.stabbing.specs.Refutation.{Refuted};
ghost use Rattle.stabbing.specs.Spans.{Fits};

use crate::arrow::Arrow;
use crate::doorways::{Doorways, ends};
use crate::span::Span;
use plane::crossing::Crossing;
use plane::post::Post;
use plane::quad::Quad;

// The span with the arrows between p and a crossing, to its left post and from its right post; nothing where all now lie in
// no half-plane.
fn passed(span: Span, p: Post, far: Crossing) -> Option<Span>
    ensures { (l : Coefficients) → Proper l → value l (place p) ≡ pos 0 → pos 0 ≤ℤ value l (place far.left) → value l (place far.right) ≤ℤ pos 0 → Fits l span → MatchOption result ⊥ (Fits l) }
{
    let ahead = span.joined(Arrow::between(p, far.left))?;
    ahead.joined(Arrow::between(far.right, p))
}

impl Doorways<'_> {
    // Whether the arrows of p lie in no half-plane: then no line through p separates the path. The newest crossings come
    // first, since they refute most often; `own` is any crossing of the path, best one that has p.
    pub(crate) fn refutes(self, p: Post, own: &Quad) -> bool
        requires { Has self.list.now own.now }
        ensures { result ≡ true → Refuted (place p) self.entry.list.now }
    {
        let posts = ends(own);
        let mut span = Span::new(Arrow::between(posts.right, posts.left));
        for far in self.list.iter().rev() {
            match passed(span, p, ends(far)) {
                None => return true,
                Some(wider) => span = wider,
            }
        }
        false
    }

    // How many left posts are refuted, from the start of the path on to the first that is not.
    pub(crate) fn refuted_front(self) -> usize
        ensures { AllByRecursion (Passed self.entry.list.now) (take result self.entry.list.now) }
    {
        for (k, own) in self.list.iter().enumerate() {
            if !self.refutes(ends(own).left, own) {
                return k;
            }
        }
        self.list.len()
    }
}
