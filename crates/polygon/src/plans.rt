// A whole plan: its text read into the caller's spaces.
ghost use Rattle.std.specs.Prelude.{◌≡◌, ◌≤◌, length, replicate, pos, IfOk};
ghost use Rattle.polygon.specs.Accepted.{Accepted};
ghost use Rattle.polygon.specs.Corners.{points};
ghost use Rattle.polygon.specs.Plans.{nothing, short, opened, planned, answered};
ghost use Rattle.polygon.specs.Understood.{spaces, Understood};

use crate::chains::Chains;
use crate::convexity::check_faces;
use crate::counts::Counts;
use crate::doorways::list_doorways;
use crate::edges::list_edges;
use crate::layout::read_layout;
use arrayvec::ArrayVec;
use maps::passage::Passage;
use plane::corner::Corner;
use text::{Fault, Ground};

// The places of the caller's spaces: doorways, corners and corner numbers.
const DOORWAYS: usize = 2048;

const CORNERS: usize = 1024;

const NUMBERS: usize = 4096;

// Finds the doorways between the faces, writes them into the space, and answers how many there are.
fn open(
    corners: &[Corner],
    sizes: &[u8],
    numbers: &[u16],
    space: &mut [Passage],
) -> Result<usize, Fault>
    requires few { length sizes.now ≤ 256 }
    requires short { length numbers.now ≤ 4096 }
    requires room { 2048 ≤ length space.old }
    ensures answer { result ≡ (opened (points corners.now) sizes.now numbers.now space.old).result }
    ensures after { space.new ≡ (opened (points corners.now) sizes.now numbers.now space.old).space }
{
    let mut edges = ArrayVec::new();
    list_edges(sizes, numbers, &mut edges);
    let mut chains = Chains::new(&edges);
    chains.link()?;
    Ok(list_doorways(corners, &chains, space))
}

fn read_plan(
    text: &[u8],
    doorways: &mut [Passage],
    corners: &mut [Corner],
    numbers: &mut [u16],
) -> Result<Counts, Fault>
    requires doorways { 2048 ≤ length doorways.old }
    requires corners { 1024 ≤ length corners.old }
    requires numbers { 4096 ≤ length numbers.old }
    ensures answer { result ≡ (planned text.now doorways.old (points corners.old) numbers.old).result }
    ensures doorways { doorways.new ≡ (planned text.now doorways.old (points corners.old) numbers.old).doorways }
    ensures corners { points corners.new ≡ (planned text.now doorways.old (points corners.old) numbers.old).corners }
    ensures numbers { numbers.new ≡ (planned text.now doorways.old (points corners.old) numbers.old).numbers }
    ensures accepted { IfOk result (λ n. Accepted text.now doorways.old (points corners.old) numbers.old n doorways.new (points corners.new) numbers.new) }
{
    let mut sizes = [0; 256];
    let plan = read_layout(text, corners, &mut sizes, numbers)?;
    let rooms = plan.faces;
    let used = plan.edges;
    check_faces(corners, &sizes[0..rooms], &numbers[0..used])?;
    let doorways = open(corners, &sizes[0..rooms], &numbers[0..used], doorways)?;
    Ok(Counts { rooms, doorways })
}

fn clear(doorways: &mut [Passage], corners: &mut [Corner], numbers: &mut [u16])
    ensures doorways { doorways.new ≡ replicate (length doorways.old) nothing }
    ensures corners { points corners.new ≡ replicate (length corners.old) (pos 0, pos 0) }
    ensures numbers { numbers.new ≡ replicate (length numbers.old) 0 }
{
    doorways.fill(Passage::NONE);
    corners.fill(Corner::ORIGIN);
    numbers.fill(0);
}

// Whether spaces of so many places are too short.
fn too_short(doorways: usize, corners: usize, numbers: usize) -> bool
    ensures { result ≡ short doorways corners numbers }
{
    doorways < DOORWAYS || corners < CORNERS || numbers < NUMBERS
}

// Reads the plan in `text`: its doorways, its corners and the corner numbers of its faces go into the spaces, and then zeros. The answer is
// how many rooms and doorways it has.
pub fn read(
    text: &[u8],
    doorways: &mut [Passage],
    corners: &mut [Corner],
    numbers: &mut [u16],
) -> Result<Counts, Fault>
    ensures answer { result ≡ (answered text.now doorways.old (points corners.old) numbers.old).result }
    ensures doorways { doorways.new ≡ (answered text.now doorways.old (points corners.old) numbers.old).doorways }
    ensures corners { points corners.new ≡ (answered text.now doorways.old (points corners.old) numbers.old).corners }
    ensures numbers { numbers.new ≡ (answered text.now doorways.old (points corners.old) numbers.old).numbers }
    ensures accepted { IfOk result (λ n. Accepted text.now (replicate (length doorways.old) nothing) (replicate (length corners.old) (pos 0, pos 0)) (replicate (length numbers.old) 0) n doorways.new (points corners.new) numbers.new) }
    ensures understood { Understood text.now (spaces doorways.old (points corners.old) numbers.old) result (spaces doorways.new (points corners.new) numbers.new) }
{
    if too_short(doorways.len(), corners.len(), numbers.len()) {
        return Err(Fault::new(Ground::Space, 0));
    }
    clear(doorways, corners, numbers);
    let answer = read_plan(text, doorways, corners, numbers);
    if answer.is_err() {
        clear(doorways, corners, numbers);
    }
    answer
}
