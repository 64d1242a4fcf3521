// All edges of a plan, in the order of its faces.
ghost use Rattle.std.specs.Prelude.{[], ◌≡◌, ◌+◌, ◌<◌, ◌≤◌, ◌++◌, length};
ghost use Rattle.arrayvec.specs.ArrayVec.{array_vec_len};
ghost use Rattle.polygon.specs.Edges.{edge, edges_to, all_edges};

use crate::edge::Edge;
use crate::faces::first_face;
use arrayvec::ArrayVec;

// The edge of face f from place i.
fn edge_of(face: &[u16], f: u8, i: usize) -> Edge
    requires { i < length face.now }
    ensures { result ≡ edge face.now f i }
{
    let j = if i + 1 < face.len() { i + 1 } else { 0 };
    Edge {
        from: face[i],
        to: face[j],
        face: f,
    }
}

// Adds the edges of face f. Each goes by its place, since it takes the corner behind too.
fn list_face(face: &[u16], f: u8, edges: &mut ArrayVec<Edge, 4096>)
    requires { array_vec_len edges.old + length face.now ≤ 4096 }
    ensures { edges.new.items ≡ edges.old.items ++ edges_to face.now f (length face.now) }
{
    for i in 0..face.len() {
        edges.push(edge_of(face, f, i));
    }
}

// Puts the edges of all faces into the empty `edges`, which is lent, since to answer the list would move it.
pub(crate) fn list_edges(sizes: &[u8], numbers: &[u16], edges: &mut ArrayVec<Edge, 4096>)
    requires few { length sizes.now ≤ 256 }
    requires room { length numbers.now ≤ 4096 }
    requires empty { edges.old.items ≡ [] }
    ensures { edges.new.items ≡ all_edges 0 sizes.now numbers.now }
{
    let mut rest = numbers;
    for (f, size) in sizes.iter().enumerate() {
        let (face, behind) = first_face(rest, *size);
        list_face(face, f as u8, edges);
        rest = behind;
    }
}
