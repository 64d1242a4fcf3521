// Paths: lists of crossings, each as four numbers.
ghost use Rattle.std.specs.Prelude.{◌≡◌, true, Decides, MatchResult};
ghost use Rattle.plane.specs.Limits.{Crosses, Path};
ghost use Rattle.plane.specs.Separation.{Separates, left, right};
ghost use Rattle.plane.specs.Shapes.{coefficients, place};
ghost use Rattle.plane.specs.Tests.{all_cross, crosses, is_path, separates};

use crate::check::{Sided, first_wrong};
use crate::crossing::Crossing;
use crate::line::Line;
use crate::post::Post;
use crate::quad::Quad;
use crate::refusal::Refusal;

// A path has at most this many elements.
const LONGEST: usize = 511;

// The crossing that four numbers are.
impl TryFrom<Quad> for Crossing {
    type Error = Refusal;

    ghost try_from_gives = { λ q r. MatchResult r (λ c. (place c.left ≡ left q) × (place c.right ≡ right q)) (λ _. Crosses q → ⊥) };

    fn try_from(quad: Quad) -> Result<Crossing, Refusal> {
        let left = Post::new(quad.lx, quad.ly)?;
        let right = Post::new(quad.rx, quad.ry)?;
        Crossing::new(left, right)
    }
}

// The four numbers of a crossing.
impl From<Crossing> for Quad {
    ghost from_gives = { λ c q. (left q ≡ place c.left) × (right q ≡ place c.right) };

    fn from(crossing: Crossing) -> Quad {
        Quad {
            lx: crossing.left.x,
            ly: crossing.left.y,
            rx: crossing.right.x,
            ry: crossing.right.y,
        }
    }
}

impl Quad {
    // Whether the numbers are a crossing.
    pub fn is_crossing(&self) -> bool
        ensures value { result ≡ crosses self.now }
        ensures test { Decides result (Crosses self.now) }
    {
        Crossing::try_from(*self).is_ok()
    }
}

impl Crossing {
    // The crossing as walked the other way: the posts change sides.
    pub fn turned(&self) -> Crossing
        ensures { (result.left ≡ self.now.right) × (result.right ≡ self.now.left) }
    {
        Crossing {
            left: self.right,
            right: self.left,
        }
    }
}

// Whether each element is a crossing.
fn all_cross(list: &[Quad]) -> bool
    ensures { result ≡ all_cross list.now }
{
    list.iter().all(|quad| quad.is_crossing())
}

// Whether a list is a path: at most 511 elements, each a crossing.
pub fn is_path(list: &[Quad]) -> bool
    ensures value { result ≡ is_path list.now }
    ensures test { Decides result (Path list.now) }
{
    list.len() <= LONGEST && all_cross(list)
}

// Whether the line does not part the newest crossing: where a path has grown, this is the likeliest.
fn misses_newest(line: &Line, path: &[Quad]) -> bool
    ensures { result ≡ true → Separates (coefficients line.now) path.now → ⊥ }
{
    path.last().is_some_and(|newest| !newest.sits_well(line))
}

impl Line {
    // Whether the line separates the path.
    pub fn separates(&self, path: &[Quad]) -> bool
        ensures value { result ≡ separates (coefficients self.now) path.now }
        ensures test { Decides result (Separates (coefficients self.now) path.now) }
    {
        !misses_newest(self, path) && first_wrong(self, path).is_none()
    }
}
