// All rows, and which of them are filled.
ghost use Rattle.std.specs.Prelude.{◌≡◌, ℕ, ◌*◌, ◌<◌, ◌≤◌, length, ◌≢◌};
ghost use Rattle.visibility.specs.Limits.{most_rooms};
ghost use Rattle.visibility.specs.Bitmaps.{every, width, pixels};
ghost use Rattle.visibility.specs.Bits.{shown};
ghost use Rattle.visibility.specs.Sets.{none, with, without, both, number, marks};
ghost use Rattle.visibility.specs.Sights.{sight, touches};

use crate::arrays::no_marks;
use crate::row::{ROOMS, Row};
use maps::doorway::Room;

// A row that is filled no more still shows what it showed, so which rows are filled is a set of its own.
#[derive(Clone, Copy)]
pub struct Rows {
    filled: [bool; ROOMS],
    rows: [Row; ROOMS],
}

impl Rows {
    // No row is filled.
    pub fn new() -> Rows
        ensures { marks result.filled ≡ none }
    {
        let filled = no_marks();
        Rows {
            filled,
            rows: [Row::new(); ROOMS],
        }
    }

    pub fn is_filled(&self, a: Room) -> bool
        ensures { result ≡ marks self.now.filled a }
    {
        self.filled[usize::from(a)]
    }

    // Whether row a shows room b.
    pub fn shows(&self, a: Room, b: Room) -> bool
        ensures { result ≡ sight self.now.rows a b }
    {
        self.rows[a as usize].shows(b)
    }

    // Fills row a.
    pub fn fill(&mut self, a: Room, row: Row)
        ensures filled { marks self.new.filled ≡ with (marks self.old.filled) a }
        ensures this { sight self.new.rows a ≡ shown row.bytes }
        ensures other { (x : ℕ) → (x ≢ a) → sight self.new.rows x ≡ sight self.old.rows x }
    {
        self.filled[a as usize] = true;
        self.rows[a as usize] = row;
    }

    // Whether row a is filled, and shows room x or room y.
    fn is_touched(&self, a: Room, x: Room, y: Room) -> bool
        ensures { result ≡ both (marks self.now.filled) (touches (sight self.now.rows) x y) a }
    {
        self.is_filled(a) && (self.shows(a, x) || self.shows(a, y))
    }

    // Each filled row of the first n that shows room x or room y is filled no more; says how many these were.
    pub(crate) fn unfill(&mut self, n: usize, x: Room, y: Room) -> usize
        requires { n ≤ most_rooms }
        ensures value { result ≡ number n (both (marks self.old.filled) (touches (sight self.old.rows) x y)) }
        ensures filled { (a : ℕ) → a < n → marks self.new.filled a ≡ without (marks self.old.filled) (touches (sight self.old.rows) x y) a }
        ensures rows { self.new.rows ≡ self.old.rows }
    {
        // By number, since the test reads the marks that the loop clears.
        let mut count = 0;
        for a in 0..n {
            if self.is_touched(a as Room, x, y) {
                self.filled[a] = false;
                count += 1;
            }
        }
        count
    }

    // Whether each of the first n rows is filled.
    pub(crate) fn all_filled(&self, n: usize) -> bool
        requires { n ≤ most_rooms }
        ensures { result ≡ every n (marks self.now.filled) }
    {
        self.filled[..n].iter().all(|filled| *filled)
    }

    // Writes the first n rows of n pixels one behind the other, each into its own part of the space.
    pub(crate) fn write(&self, n: usize, space: &mut [u8])
        requires { (n ≤ most_rooms) × (length space.old ≡ n * width n) }
        ensures { space.new ≡ pixels n n (sight self.now.rows) }
    {
        let width = (n + 7) / 8;
        for (a, row) in self.rows[..n].iter().enumerate() {
            let at = a * width;
            row.write(n, &mut space[at..at + width]);
        }
    }
}
