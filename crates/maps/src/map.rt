// What a map means and owes.
ghost use Rattle.std.specs.Prelude.{◌≡◌, ℕ, ◌<◌, ◌≤◌, List, length};
ghost use Rattle.std.specs.List.{slice_get, AllByRecursion};
ghost use Rattle.maps.specs.declared.doorway.Doorway.{Doorway};

use crate::doorway::Doorway;

// A map means a number of rooms and a list of doorways between them.
//   rooms m      how many rooms there are; their numbers are those below
//   doorways m   the doorways, by their numbers
pub trait Map {
    ghost rooms: { Self → ℕ };

    ghost doorways: { Self → List Doorway };

    fn room_count(&self) -> usize
        ensures { result ≡ rooms self.now };

    fn doorway_count(&self) -> usize
        ensures { result ≡ length (doorways self.now) };

    // Doorway k, or nothing where k is past the count.
    fn doorway(&self, k: usize) -> Option<Doorway>
        ensures { result ≡ slice_get (doorways self.now) k };

    // There are 1 to 256 rooms.
    ghost inhabited: { (m : Self) → 1 ≤ rooms m };

    ghost bounded: { (m : Self) → rooms m ≤ 256 };

    // There are at most 2,048 doorways.
    ghost few: { (m : Self) → length (doorways m) ≤ 2048 };

    // Each doorway joins two rooms of the map.
    ghost inside: { (m : Self) → AllByRecursion (λ d. (d.near < rooms m) × (d.far < rooms m)) (doorways m) };
}
