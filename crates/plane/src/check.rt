// The one check: elements of any kind are set against a line, and the first that sits wrongly is named.
ghost use Rattle.std.specs.Prelude.{◌≡◌, Bool, not};
ghost use Rattle.plane.specs.First.{first_place};
ghost use Rattle.plane.specs.Separation.{Coefficients};
ghost use Rattle.plane.specs.Shapes.{coefficients, place};
ghost use Rattle.plane.specs.Tests.{parts, strictly_left};

use crate::corner::Corner;
use crate::line::Line;
use crate::quad::Quad;

// What can be set against a line: `well` tells of each line whether the element sits rightly.
pub trait Sided {
    ghost well: { Self → Coefficients → Bool };

    fn sits_well(&self, line: &Line) -> bool
        ensures { result ≡ well self.now (coefficients line.now) };
}

// A crossing has its left post at 0 or above, and its right post at 0 or below.
impl Sided for Quad {
    ghost well = { λ q l. parts l q };

    fn sits_well(&self, line: &Line) -> bool {
        line.value(self.lx, self.ly) >= 0 && line.value(self.rx, self.ry) <= 0
    }
}

// A corner lies above 0, strictly.
impl Sided for Corner {
    ghost well = { λ c l. strictly_left l (place c.at) };

    fn sits_well(&self, line: &Line) -> bool {
        line.value(self.at.x, self.at.y) > 0
    }
}

// The first place whose element sits wrongly, or nothing.
pub fn first_wrong<E: Sided>(line: &Line, elements: &[E]) -> Option<usize>
    ensures { result ≡ first_place (λ e. not (E.Sided.well e (coefficients line.now))) elements.now }
{
    elements.iter().position(|element| !element.sits_well(line))
}
