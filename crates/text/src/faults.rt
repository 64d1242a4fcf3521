// What a reader's refusal says: its cause, and so its number and the layer that found it, and the place in the text.
ghost use Rattle.std.specs.Prelude.{◌≡◌};
ghost use Rattle.text.specs.Faults.{rank, number_of, layer_of, fault};

use std::fmt;

// The layers of a reader, by their numbers.
#[derive(Clone, Copy, PartialEq, Eq, Debug)]
pub enum Layer {
    Text = 1,
    Layout = 2,
    Map = 3,
}

// Why a text is refused, by the number of the refusal.
#[derive(Clone, Copy, PartialEq, Eq, Debug)]
pub enum Ground {
    // The caller's space is too short.
    Space = 6,
    // A byte that cannot stand here.
    Stray = 10,
    // A number of more than six digits.
    Long = 11,
    // The text ends early.
    Early = 12,
    // The text does not begin with the heading.
    Heading = 13,
    // A size or a total off its limits.
    Limits = 14,
    // Something stands after the end of the plan.
    Over = 15,
    // A pixel of the wrong colour.
    Colour = 16,
    // A coordinate off its limits, or a third one that is not 0.
    Coordinate = 17,
    // A face's corner count or corner number off its limits.
    Corner = 18,
    // A face that is not convex and counterclockwise.
    Shape = 19,
    // An edge that is used twice in one direction.
    Edge = 20,
}

#[derive(Clone, Copy, PartialEq, Eq, Debug)]
pub struct Fault {
    pub cause: Ground,
    pub place: usize,
}

impl Ground {
    pub fn number(self) -> u8
        ensures { result ≡ number_of self }
    {
        self as u8
    }

    pub fn layer(self) -> Layer
        ensures { rank result ≡ layer_of self }
    {
        match self {
            Ground::Stray | Ground::Long | Ground::Early => Layer::Text,
            Ground::Space | Ground::Heading | Ground::Limits | Ground::Over => Layer::Layout,
            _ => Layer::Map,
        }
    }
}

impl Fault {
    pub fn new(cause: Ground, place: usize) -> Fault
        ensures { result ≡ fault cause place }
    {
        Fault { cause, place }
    }

    // The number of its cause.
    pub fn number(self) -> u8
        ensures { result ≡ number_of self.cause }
    {
        self.cause.number()
    }

    // The number of the layer that found it.
    pub fn layer(self) -> u8
        ensures { result ≡ layer_of self.cause }
    {
        self.cause.layer() as u8
    }
}

impl fmt::Display for Fault {
    fn fmt<W: fmt::Write>(&self, f: &mut fmt::Formatter<W>) -> fmt::Result {
        write!(
            f,
            "{} layer {} at {}",
            self.number(),
            self.layer(),
            self.place
        )
    }
}
