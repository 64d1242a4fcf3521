// The map of a polygon plan: its rooms are the faces, its doorways the edges that two faces share.
ghost use Rattle.maps.specs.Passages.{Becomes};

use maps::listed::Listed;
use maps::lists::Lists;
use maps::passage::Passage;

#[derive(Drop)]
pub struct PolygonMap {
    pub list: Listed,
}

impl PolygonMap {
    // The map of `rooms` rooms and the first `count` doorways of the space that a reader filled. Where these make none, it has
    // one room and no doorway.
    pub fn new(rooms: usize, count: usize, space: &[Passage]) -> PolygonMap
        ensures { Becomes rooms count space.now result.list.rooms result.list.held.items }
    {
        PolygonMap {
            list: Listed::new(rooms, count, space),
        }
    }
}

// Its list says what rooms and doorways it has.
impl Lists for PolygonMap {
    ghost list = { λ m. m.list };

    fn list(&self) -> &Listed {
        &self.list
    }
}
