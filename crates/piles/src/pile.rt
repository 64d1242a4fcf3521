// The piles of stabbers, by name.
ghost use Rattle.std.specs.Prelude.{◌≡◌, Some};
ghost use Rattle.piles.specs.Names.{Named, name_of};

use std::fmt;
use std::str::FromStr;

#[derive(Clone, Copy, PartialEq, Eq, Debug)]
pub enum Pile {
    Exact,
    Wedge,
    MemoryExact,
    BothWedgeExact,
    MemoryBothWedgeExact,
    BothWedgeMemoryExact,
    MemoryMemoryExact,
}

// A text that is no pile's name.
#[derive(Clone, Copy, PartialEq, Eq, Debug)]
pub struct UnknownPile {}

impl Pile {
    pub fn name(self) -> &'static str
        ensures { result.now ≡ name_of self }
    {
        match self {
            Pile::Exact => "exact",
            Pile::Wedge => "wedge",
            Pile::MemoryExact => "memory-exact",
            Pile::BothWedgeExact => "both-wedge-exact",
            Pile::MemoryBothWedgeExact => "memory-both-wedge-exact",
            Pile::BothWedgeMemoryExact => "both-wedge-memory-exact",
            Pile::MemoryMemoryExact => "memory-memory-exact",
        }
    }
}

impl fmt::Display for Pile {
    ghost output = { λ pile. Some (name_of pile) };

    fn fmt<W: fmt::Write>(&self, f: &mut fmt::Formatter<W>) -> fmt::Result {
        f.write_str(self.name())
    }
}

impl FromStr for Pile {
    type Err = UnknownPile;

    ghost from_str_gives = { Named };

    fn from_str(text: &str) -> Result<Pile, UnknownPile> {
        match text {
            "exact" => Ok(Pile::Exact),
            "wedge" => Ok(Pile::Wedge),
            "memory-exact" => Ok(Pile::MemoryExact),
            "both-wedge-exact" => Ok(Pile::BothWedgeExact),
            "memory-both-wedge-exact" => Ok(Pile::MemoryBothWedgeExact),
            "both-wedge-memory-exact" => Ok(Pile::BothWedgeMemoryExact),
            "memory-memory-exact" => Ok(Pile::MemoryMemoryExact),
            _ => Err(UnknownPile {}),
        }
    }
}
