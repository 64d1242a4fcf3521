// Arrows: vectors from one post to another, and how they turn.
ghost use Rattle.std.specs.Prelude.{◌≤◌, unsigned_abs};

use plane::post::Post;

#[derive(Clone, Copy)]
pub(crate) struct Arrow {
    x: i32,
    y: i32,
    ghost x_within: { unsigned_abs x ≤ 20000 },
    ghost y_within: { unsigned_abs y ≤ 20000 },
}

impl Arrow {
    ghost use Rattle.std.specs.Prelude.{◌≡◌, pos, ◌<ℤ◌, Decides};
    ghost use Rattle.plane.specs.Shapes.{place};
    ghost use Rattle.stabbing.specs.Arrows.{arrow, vector, turn, along, Against};

    // The arrow from p to q.
    pub(crate) fn between(p: Post, q: Post) -> Arrow
        ensures { vector result ≡ arrow (place p) (place q) }
    {
        Arrow {
            x: q.x - p.x,
            y: q.y - p.y,
        }
    }

    // The cross product.
    fn turn(self, w: Arrow) -> i32
        ensures { result ≡ turn (vector self) (vector w) }
    {
        self.x * w.y - self.y * w.x
    }

    // The dot product.
    fn along(self, w: Arrow) -> i32
        ensures { result ≡ along (vector self) (vector w) }
    {
        self.x * w.x + self.y * w.y
    }

    // Whether w points to the left of this arrow.
    pub(crate) fn has_left(self, w: Arrow) -> bool
        ensures { Decides result (pos 0 <ℤ turn (vector self) (vector w)) }
    {
        self.turn(w) > 0
    }

    // Whether w points straight against it.
    pub(crate) fn is_against(self, w: Arrow) -> bool
        ensures { Decides result (Against (vector self) (vector w)) }
    {
        self.turn(w) == 0 && self.along(w) < 0
    }
}
