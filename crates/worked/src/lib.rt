// Two small plans with cases worked out by hand. The cases are proved from the definitions that the contracts use, and run as tests.
#![tactic(auto)]

ghost use Rattle.std.specs.Prelude.{◌≡◌};
ghost use Rattle.worked.specs.Cases.{WorkedCases};
ghost use Rattle.worked.specs.Plans.{ring, corridor};

#[cfg(test)]
mod tables;

fn ring_text() -> &'static [u8]
    ensures { result.now ≡ ring }
{
    b"P1 5 5 11111 10001 10101 10001 11111"
}

fn corridor_text() -> &'static [u8]
    ensures { result.now ≡ corridor }
{
    b"P1 11 5 11111111111 10001010101 11101111111 10100000001 11111111111"
}

// The texts of the two plans: the ring and the corridor. The cases hold of whatever map is made of them.
pub fn plans() -> (&'static [u8], &'static [u8])
    ensures value { (result.0.now ≡ ring) × (result.1.now ≡ corridor) }
    ensures cases { WorkedCases }
{
    (ring_text(), corridor_text())
}
