// A table as a raw PBM bitmap.
ghost use Rattle.std.specs.Prelude.{◌≡◌, ◌≤◌, ◌++◌, length, take, drop, IfOk, MatchResult};
ghost use Rattle.visibility.specs.Bitmaps.{heading, bitmap, no_bitmap, Pbm};
ghost use Rattle.visibility.specs.Limits.{most_rooms};
ghost use Rattle.visibility.specs.States.{world_of, state_of, ByGround};

use crate::refusal::Refusal;
use crate::table::Table;
use arrayvec::ArrayVec;
use maps::map::Map;
use stabbing::stabber::Stabber;

// The longest heading is that of 256 rooms.
const HEADING: usize = 11;

// The heading of a bitmap of n by n pixels.
fn heading(n: usize) -> ArrayVec<u8, HEADING>
    requires { n ≤ most_rooms }
    ensures { result.items ≡ heading n }
{
    let a = b'0' + (n / 100) as u8;
    let b = b'0' + (n / 10 % 10) as u8;
    let c = b'0' + (n % 10) as u8;
    let mut text = ArrayVec::from([b'P', b'4', b'\n', a, b, c, b' ', a, b, c, b'\n']);
    if n >= 100 {
        return text;
    }
    // A number has no zeros in front.
    text.remove(7);
    text.remove(3);
    if n >= 10 {
        return text;
    }
    text.remove(6);
    text.remove(3);
    text
}

impl<M: Map, S: Stabber> Table<M, S> {
    // Writes the rows as a bitmap to the front of the space, and answers how many bytes it has.
    pub fn bitmap(&self, space: &mut [u8]) -> Result<usize, Refusal>
        ensures value { ByGround (no_bitmap (world_of M.Map S.Stabber self.now) (state_of self.now) (length space.old)) result (state_of self.now) (state_of self.now) (λ len. len ≡ length (bitmap (M.Map.rooms self.now.map) (state_of self.now).shows)) }
        ensures after { MatchResult result (λ len. space.new ≡ bitmap (M.Map.rooms self.now.map) (state_of self.now).shows ++ drop len space.old) (λ _. space.new ≡ space.old) }
        ensures format { IfOk result (λ len. Pbm (M.Map.rooms self.now.map) (state_of self.now).shows (take len space.new)) }
    {
        let n = self.map.room_count();
        if !self.rows.all_filled(n) {
            return Err(Refusal::NotFilled);
        }
        let heading = heading(n);
        let start = heading.len();
        let len = start + n * ((n + 7) / 8);
        if space.len() < len {
            return Err(Refusal::SpaceTooShort);
        }
        space[..start].copy_from_slice(heading.as_slice());
        self.rows.write(n, &mut space[start..len]);
        Ok(len)
    }
}
