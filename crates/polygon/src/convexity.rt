// Whether the faces of a plan are convex and counterclockwise.
ghost use Rattle.std.specs.Prelude.{◌≡◌, ◌+◌, ◌≤◌, length, take};
ghost use Rattle.polygon.specs.Corners.{point, points};
ghost use Rattle.polygon.specs.Convexity.{spot, ring, around, convex, shapely};

use crate::faces::first_face;
use plane::check::first_wrong;
use plane::corner::Corner;
use plane::line::Line;
use plane::post::Post;
use text::{Fault, Ground};

// At most this many corners to a face.
const MOST: usize = 16;

// The corner with this number.
pub(crate) fn corner_at(corners: &[Corner], number: u16) -> Corner
    ensures { point result ≡ spot (points corners.now) number }
{
    corners
        .get(usize::from(number))
        .copied()
        .unwrap_or(Corner::ORIGIN)
}

// Whether the first two corners of a round are different points, and all others lie strictly left of the line from the first to the second.
fn is_clear(round: &[Corner]) -> bool
    ensures { result ≡ around (points round.now) }
{
    let [first, second, others @ ..] = round else {
        return false;
    };
    match Line::through(first.at, second.at) {
        Some(line) => first_wrong(&line, others).is_none(),
        None => false,
    }
}

// The corners of a face, twice round.
fn twice_round(corners: &[Corner], face: &[u16]) -> [Corner; 32]
    requires { length face.now ≤ 16 }
    ensures { take (length face.now + length face.now) (points result) ≡ ring (points corners.now) face.now }
{
    let mut ring = [Corner::ORIGIN; 32];
    for (k, number) in face.iter().enumerate() {
        let corner = corner_at(corners, *number);
        ring[k] = corner;
        ring[face.len() + k] = corner;
    }
    ring
}

// Whether the face with these corner numbers is convex and counterclockwise.
fn is_convex(corners: &[Corner], face: &[u16]) -> bool
    ensures { result ≡ convex (points corners.now) face.now }
{
    let n = face.len();
    if n < 3 || n > MOST {
        return false;
    }
    let ring = twice_round(corners, face);
    // By place: `all` over the places or over `windows(n)` left the result open.
    for i in 0..n {
        if !is_clear(&ring[i..i + n]) {
            return false;
        }
    }
    true
}

// Refuses the first face that is not convex and counterclockwise.
pub(crate) fn check_faces(corners: &[Corner], sizes: &[u8], numbers: &[u16]) -> Result<(), Fault>
    ensures { result ≡ shapely (points corners.now) 0 sizes.now numbers.now }
{
    let mut rest = numbers;
    for (f, size) in sizes.iter().enumerate() {
        let (face, behind) = first_face(rest, *size);
        if !is_convex(corners, face) {
            return Err(Fault::new(Ground::Shape, f));
        }
        rest = behind;
    }
    Ok(())
}
