// Maps that keep their rooms and doorways in a list.
ghost use Rattle.std.specs.Prelude.{◌≡◌};
ghost use Rattle.maps.specs.declared.listed.Listed.{Listed};
ghost use Rattle.maps.specs.Inside.{within_all};
ghost use Rattle.std.proofs.Common.{rules};

use crate::doorway::Doorway;
use crate::listed::Listed;
use crate::map::Map;

// A plan's map means what its list means.
//   list m   the list of the map m
pub trait Lists {
    ghost list: { Self → Listed };

    fn list(&self) -> &Listed
        ensures { result.now ≡ list self.now };
}

impl<P: Lists> Map for P {
    ghost rooms = { λ m. (P.list m).rooms };

    ghost doorways = { λ m. (P.list m).held.items };

    ghost inhabited = { λ m. (P.list m).inhabited };

    ghost bounded = { λ m. (P.list m).bounded };

    ghost few = { λ m. (P.list m).few };

    ghost inside = { λ m. within_all (P.list m).rooms _ (P.list m).inside };

    fn room_count(&self) -> usize {
        self.list().room_count()
    }

    fn doorway_count(&self) -> usize {
        self.list().doorway_count()
    }

    fn doorway(&self, k: usize) -> Option<Doorway> {
        self.list().doorway(k)
    }
}
