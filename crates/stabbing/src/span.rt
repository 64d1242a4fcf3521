// Whether arrows lie in a half-plane, as one after the other comes in.
ghost use Rattle.std.specs.Prelude.{◌≡◌, true, IfSome, MatchOption};
ghost use Rattle.plane.specs.Separation.{Coefficients, Proper};
ghost use Rattle.stabbing.specs.Arrows.{Climbs, vector};
ghost use Rattle.stabbing.specs.Spans.{Fits};

use crate::arrow::Arrow;

// The outermost of the arrows that were looked at, on either side of a first one: `left` and `right` are the most
// counterclockwise and the most clockwise; `pinned` tells that some arrow points straight against the first.
#[derive(Clone, Copy)]
pub(crate) struct Span {
    first: Arrow,
    left: Arrow,
    right: Arrow,
    pinned: bool,
}

impl Span {
    // The first arrow alone.
    pub(crate) fn new(first: Arrow) -> Span
        ensures { (l : Coefficients) → Climbs l (vector first) → Fits l result }
    {
        Span {
            first,
            left: first,
            right: first,
            pinned: false,
        }
    }

    // Whether the arrows lie in no half-plane.
    fn is_whole(&self) -> bool
        ensures { result ≡ true → (l : Coefficients) → Proper l → Fits l self.now → ⊥ }
    {
        self.first.has_left(self.left)
            && self.right.has_left(self.first)
            && (self.pinned || self.left.has_left(self.right))
    }

    // The span with one arrow more; nothing where that lies inside.
    fn widened(self, arrow: Arrow) -> Option<Span>
        ensures { (l : Coefficients) → Fits l self → Climbs l (vector arrow) → IfSome result (Fits l) }
    {
        if self.first.has_left(arrow) && self.left.has_left(arrow) {
            Some(Span {
                left: arrow,
                ..self
            })
        } else if arrow.has_left(self.first) && arrow.has_left(self.right) {
            Some(Span {
                right: arrow,
                ..self
            })
        } else if self.first.is_against(arrow) {
            Some(Span {
                pinned: true,
                ..self
            })
        } else {
            None
        }
    }

    // The span with one arrow more; nothing where all now lie in no half-plane.
    pub(crate) fn joined(self, arrow: Arrow) -> Option<Span>
        ensures { (l : Coefficients) → Proper l → Fits l self → Climbs l (vector arrow) → MatchOption result ⊥ (Fits l) }
    {
        let Some(wider) = self.widened(arrow) else {
            return Some(self);
        };
        if wider.is_whole() { None } else { Some(wider) }
    }
}
