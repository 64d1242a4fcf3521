// A doorway between two rooms, and its crossing from near to far.
ghost use Rattle.std.specs.Prelude.{◌≡◌, ◌≢◌};

use plane::crossing::Crossing;

// A room's number.
pub type Room = u8;

#[derive(Clone, Copy)]
pub struct Doorway {
    pub near: Room,
    pub far: Room,
    pub crossing: Crossing,
    ghost apart: { near ≢ far },
}
