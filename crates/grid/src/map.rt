// The map of a grid plan.
ghost use Rattle.grid.specs.Doorways.{Pictured};

use crate::drawn::Plan;
use crate::sizes::Size;
use maps::listed::Listed;
use maps::lists::Lists;

#[derive(Drop)]
pub struct GridMap {
    pub list: Listed,
}

// The map of a plan, with all its rooms and doorways.
fn whole(plan: &Plan) -> Listed
    ensures { Pictured plan.now.size plan.now.pixels.now result.rooms result.held.items }
{
    let found = plan.doorways();
    Listed::new(plan.size.rooms(), found.len(), found.as_slice())
}

impl GridMap {
    // The map of the plan of this size in the space that a reader filled. Where there is no such plan, it has one room and no
    // doorway.
    pub fn new(size: Size, space: &[u8]) -> GridMap
        ensures { Pictured size space.now result.list.rooms result.list.held.items }
    {
        let list = match Plan::of(size, space) {
            Some(plan) => whole(&plan),
            None => Listed::new(1, 0, &[]),
        };
        GridMap { list }
    }
}

impl Lists for GridMap {
    ghost list = { λ m. m.list };

    fn list(&self) -> &Listed {
        &self.list
    }
}
