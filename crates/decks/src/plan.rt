// A plan of either kind: its text read, and its map made.
ghost use Rattle.std.specs.Prelude.{Decides};
ghost use Rattle.decks.specs.Plans.{Begins, Pictures, Polygons, Plans, list_of};

use grid::GridMap;
use maps::listed::Listed;
use maps::lists::Lists;
use maps::passage::Passage;
use plane::corner::Corner;
use plane::post::Post;
use polygon::map::PolygonMap;
use text::Fault;

#[derive(Drop)]
pub enum Plan {
    Grid(GridMap),
    Polygon(PolygonMap),
}

// A plan of polygons begins with `OFF`.
fn is_off(text: &[u8]) -> bool
    ensures { Decides result (Begins text.now) }
{
    text.starts_with(b"OFF")
}

// A plan that is drawn in pixels.
fn read_picture(text: &[u8]) -> Result<Plan, Fault>
    ensures { Pictures text.now result }
{
    let mut space = [0u8; 1539];
    let size = grid::read(text, &mut space)?;
    Ok(Plan::Grid(GridMap::new(size, &space)))
}

// A plan of polygons.
fn read_polygons(text: &[u8]) -> Result<Plan, Fault>
    ensures { Polygons text.now result }
{
    let mut doorways = [Passage::NONE; 2048];
    let mut corners = [Corner::ORIGIN; 1024];
    let mut numbers = [0u16; 4096];
    let counts = polygon::plans::read(text, &mut doorways, &mut corners, &mut numbers)?;
    let map = PolygonMap::new(counts.rooms, counts.doorways, &doorways);
    Ok(Plan::Polygon(map))
}

impl Plan {
    // The plan that a text gives, or the fault for which its reader refuses it.
    pub fn read(text: &[u8]) -> Result<Plan, Fault>
        ensures { Plans text.now result }
    {
        if is_off(text) {
            read_polygons(text)
        } else {
            read_picture(text)
        }
    }
}

impl Lists for Plan {
    ghost list = { list_of };

    fn list(&self) -> &Listed {
        match self {
            Plan::Grid(map) => map.list(),
            Plan::Polygon(map) => map.list(),
        }
    }
}
