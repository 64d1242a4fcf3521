// Why a shape is not made: its numbers name no post, no crossing or no line within the limits.
ghost use Rattle.std.specs.Prelude.{◌≡◌};

#[derive(Clone, Copy, PartialEq, Eq, Debug)]
pub enum Refusal {
    NoSuchShape = 8,
}

impl Refusal {
    // The number by which a refusal is known outside.
    pub fn number(self) -> u8
        ensures { result ≡ 8 }
    {
        self as u8
    }
}
