// A row: the rooms that are seen from one room, as bits.
ghost use Rattle.std.specs.Prelude.{◌≡◌, ◌*◌, ◌<◌, ◌≤◌, Bool, length};
ghost use Rattle.visibility.specs.Limits.{most_rooms};
ghost use Rattle.visibility.specs.Sets.{none, with, number};
ghost use Rattle.visibility.specs.Bits.{shown, marked};
ghost use Rattle.visibility.specs.Bitmaps.{width, octet, packed};

use maps::doorway::Room;

// As many rooms as their numbers can tell apart.
pub const ROOMS: usize = 256;

// As many doorways as a map may have.
pub const DOORWAYS: usize = 2048;

// A row has a bit for each room.
pub const BYTES: usize = 32;

#[derive(Clone, Copy)]
pub struct Row {
    bytes: [u8; BYTES],
}

impl Row {
    // A row that shows no room.
    pub fn new() -> Row
        ensures value { shown result.bytes ≡ none }
        ensures long { length result.bytes ≡ 32 }
    {
        Row { bytes: [0; BYTES] }
    }

    // Whether the room is shown.
    pub fn shows(&self, room: Room) -> bool
        ensures { result ≡ shown self.now.bytes room }
    {
        let byte = self.bytes[(room / 8) as usize];
        (byte >> (7 - room % 8)) % 2 == 1
    }

    // Shows the room too.
    pub fn mark(&mut self, room: Room)
        ensures value { self.new.bytes ≡ marked self.old.bytes room }
        ensures shown { shown self.new.bytes ≡ with (shown self.old.bytes) room }
    {
        let byte = self.bytes[(room / 8) as usize];
        self.bytes[(room / 8) as usize] = byte | (1u8 << (7 - room % 8));
    }

    // Shows no room any more.
    pub fn clear(&mut self)
        ensures { shown self.new.bytes ≡ none }
    {
        self.bytes = [0; BYTES];
    }

    // How many rooms are shown.
    pub fn count(&self) -> usize
        ensures { result ≡ number most_rooms (shown self.now.bytes) }
    {
        // A chain did not prove: what its closure's call of `shows` returns is not found.
        let mut count = 0;
        for room in 0..ROOMS {
            if self.shows(room as Room) {
                count += 1;
            }
        }
        count
    }

    // The pixels 8k to 8k + 7 of a row of n, as a byte. Those from n on are 0.
    fn octet(&self, n: usize, k: usize) -> u8
        requires { (8 * k < n) × (n ≤ most_rooms) }
        ensures { result ≡ octet n (shown self.now.bytes) k }
    {
        let spare = (8 * k + 8).saturating_sub(n);
        (self.bytes[k] >> spare) << spare
    }

    // Writes the row's n pixels into its part of a bitmap.
    pub(crate) fn write(&self, n: usize, part: &mut [u8])
        requires { (n ≤ most_rooms) × (length part.old ≡ width n) }
        ensures { part.new ≡ packed n (shown self.now.bytes) }
    {
        for (k, byte) in part.iter_mut().enumerate() {
            *byte = self.octet(n, k);
        }
    }
}
