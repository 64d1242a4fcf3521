// A crossing: the left and the right post of a doorway, as the walker going through sees them.
ghost use Rattle.std.specs.Prelude.{◌≡◌};

use crate::post::Post;

#[derive(Clone, Copy, PartialEq, Eq, Debug)]
pub struct Crossing {
    pub left: Post,
    pub right: Post,
    ghost apart: { (left.x ≡ right.x) → (left.y ≡ right.y) → ⊥ },
}
