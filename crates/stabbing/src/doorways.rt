// Doorways in a row that are known to be crossings: a path, or a part of one.
ghost use Rattle.std.specs.Prelude.{◌≡◌, take, drop, true, false, MatchOption, Option};
ghost use Rattle.std.specs.List.{AllByRecursion};
ghost use Rattle.std.specs.Option.{option_map};
ghost use Rattle.std.proofs.Props.{props};
ghost use Rattle.plane.specs.Limits.{Crosses};
ghost use Rattle.plane.specs.Lines.{posts};
ghost use Rattle.plane.specs.Separation.{Coefficients, Point, left, right};
ghost use Rattle.plane.specs.Shapes.{coefficients, place};
ghost use Rattle.plane.specs.Tests.{is_path};
ghost use Rattle.stabbing.specs.Asked.{first_answer};

use plane::crossing::Crossing;
use plane::line::Line;
use plane::path::is_path;
use plane::post::Post;
use plane::quad::Quad;

// The two posts of a crossing, where four numbers are known to be one.
pub(crate) fn ends(quad: &Quad) -> Crossing
    requires { Crosses quad.now }
    ensures { (place result.left ≡ left quad.now) × (place result.right ≡ right quad.now) }
{
    let left = Post {
        x: quad.lx,
        y: quad.ly,
    };
    let right = Post {
        x: quad.rx,
        y: quad.ry,
    };
    Crossing { left, right }
}

#[derive(Clone, Copy)]
pub(crate) struct Doorways<'a> {
    pub list: &'a [Quad],
    ghost cross: { AllByRecursion Crosses list.now } by { Prim.hlevel props },
}

impl<'a> Doorways<'a> {
    // The doorways of a list, where it is a path.
    pub(crate) fn new(list: &'a [Quad]) -> Option<Doorways<'a>>
        ensures { MatchOption result (is_path list.now ≡ false) (λ d. (is_path list.now ≡ true) × (d.list.now ≡ list.now)) }
    {
        if is_path(list) {
            Some(Doorways { list })
        } else {
            None
        }
    }

    // The first k of them, or all where they are fewer, and the rest.
    pub(crate) fn split_at(self, k: usize) -> (Doorways<'a>, Doorways<'a>)
        ensures front { result.0.list.now ≡ take k self.entry.list.now }
        ensures rest { result.1.list.now ≡ drop k self.entry.list.now }
    {
        let (front, rest) = self.list.split_at(k.min(self.list.len()));
        (Doorways { list: front }, Doorways { list: rest })
    }

    // The first answer that `ask` gives at one of their posts, doorway by doorway, the left post first.
    pub(crate) fn first_at_post<F: Fn(Post) -> Option<Line>>(self, ask: F) -> Option<Line>
        requires { F.IsAlwaysCallable ask }
        ensures { (f : Point → Option Coefficients) → ((p : _) (line : Option _) → F.post ask p line → option_map coefficients line ≡ f (place p)) → option_map coefficients result ≡ first_answer f (posts self.entry.list.now) }
    {
        // Not `find_map`: a closure is not told that each element is a crossing, which `ends` asks.
        for doorway in self.list {
            let at = ends(doorway);
            let found = ask(at.left).or_else(|| ask(at.right));
            if found.is_some() {
                return found;
            }
        }
        None
    }
}
