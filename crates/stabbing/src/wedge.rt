// Wedge: a quick stabber that sets only three neighbouring crossings at a time against a line.
ghost use Rattle.std.specs.Prelude.{◌≡◌, Decides};
ghost use Rattle.std.specs.List.{AllByRecursion};
ghost use Rattle.plane.specs.Limits.{Path};
ghost use Rattle.plane.specs.Separation.{Stabbed};
ghost use Rattle.stabbing.specs.Wedge.{all_stabbed, neighbours, threes, wedge_lets};
ghost use Rattle.stabbing.specs.Threes.{wedge_decides, wedge_front, wedge_has};
ghost use Rattle.std.proofs.Common.{rules};

use crate::exact::exact_line;
use crate::stabber::Stabber;
use plane::path::is_path;
use plane::quad::Quad;

// Whether each three neighbouring crossings have a separating line.
fn all_neighbours(path: &[Quad]) -> bool
    ensures { result ≡ all_stabbed (neighbours path.now) }
{
    for three in path.windows(3) {
        if exact_line(three).is_none() {
            return false;
        }
    }
    true
}

// The same, and for a shorter path whether the whole has one.
fn all_threes(path: &[Quad]) -> bool
    ensures { result ≡ all_stabbed (threes path.now) }
{
    if path.len() < 3 {
        exact_line(path).is_some()
    } else {
        all_neighbours(path)
    }
}

// Whether the path has a separating line for each three neighbouring crossings; a shorter one, for the whole.
pub fn wedge_lets(path: &[Quad]) -> bool
    ensures value { result ≡ wedge_lets path.now }
    ensures test { Decides result (Path path.now × AllByRecursion Stabbed (threes path.now)) }
{
    is_path(path) && all_threes(path)
}

// Lets through the paths of which each three neighbouring crossings have a separating line.
#[derive(Clone, Copy, Debug)]
pub struct Wedge {}

impl Stabber for Wedge {
    ghost lets = { λ _ p. wedge_lets p };

    ghost asked = { λ s _. s };

    ghost path = { λ s p e. ((wedge_decides p).0 e).0 };

    ghost stabbed = { λ s p path line. wedge_has p path line };

    ghost prefix = { λ s p q e. wedge_front p q e };

    ghost steady = { Prim.search rules };

    fn lets_through(&mut self, path: &[Quad]) -> bool {
        wedge_lets(path)
    }
}
