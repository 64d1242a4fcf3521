// Edges are found by their corners: those that leave corners with the same rest by 1,024 are chained, the latest first.
ghost use Rattle.std.specs.Prelude.{◌≡◌, ◌+◌, ◌<◌, ◌≤◌, ◌&&◌, length, IfOk, IfErr, ◌==◌};
ghost use Rattle.std.specs.Option.{option_map};
ghost use Rattle.polygon.specs.Edges.{edge_at};
ghost use Rattle.polygon.specs.Chains.{latest, once, Linked};

use crate::edge::Edge;
use text::{Fault, Ground};

const HEADS: usize = 1024;

// The chains of the first `known` edges: the latest edge for each rest, and for each edge the one before it. They lie in the
// value, since nothing is allocated.
#[derive(Drop)]
pub struct Chains<'a> {
    pub(crate) edges: &'a [Edge],
    known: usize,
    heads: [Option<u16>; 1024],
    nexts: [Option<u16>; 4096],
    ghost few: { length edges.now ≤ 4096 },
    ghost within: { known ≤ length edges.now },
    ghost linked: { Linked edges.now known heads nexts },
}

// Whether an edge runs from u to v.
fn runs(edge: Edge, u: u16, v: u16) -> bool
    ensures { result ≡ (edge.from == u && edge.to == v) }
{
    edge.from == u && edge.to == v
}

impl<'a> Chains<'a> {
    // No edge is chained yet.
    pub(crate) fn new(edges: &'a [Edge]) -> Chains<'a>
        requires { length edges.now ≤ 4096 }
        ensures { (result.edges.now ≡ edges.now) × (result.known ≡ 0) }
    {
        Chains {
            edges,
            known: 0,
            heads: [None; 1024],
            nexts: [None; 4096],
        }
    }

    // Chains all edges. The first that repeats an earlier one is refused.
    pub(crate) fn link(&mut self) -> Result<(), Fault>
        requires { self.old.known ≡ 0 }
        ensures answer { result ≡ once self.old.edges.now (length self.old.edges.now) 0 }
        ensures edges { self.new.edges.now ≡ self.old.edges.now }
        ensures all { IfOk result (λ _. self.new.known ≡ length self.old.edges.now) }
    {
        for edge in self.edges {
            if self.find(edge.from, edge.to).is_some() {
                return Err(Fault::new(Ground::Edge, usize::from(edge.face)));
            }
            self.push();
        }
        Ok(())
    }

    // The latest edge from u to v.
    pub(crate) fn find(&self, u: u16, v: u16) -> Option<Edge>
        ensures { result ≡ option_map (edge_at self.now.edges.now) (latest self.now.edges.now u v self.now.known) }
    {
        let mut link = self.heads[usize::from(u) % HEADS];
        while let Some(number) = link {
            let e = usize::from(number);
            let edge = self.edges[e];
            if runs(edge, u, v) {
                return Some(edge);
            }
            link = self.nexts[e];
        }
        None
    }

    // Chains one edge more.
    fn push(&mut self)
        requires { self.old.known < length self.old.edges.now }
        ensures edges { self.new.edges ≡ self.old.edges }
        ensures known { self.new.known ≡ self.old.known + 1 }
    {
        let e = self.known;
        let b = usize::from(self.edges[e].from) % HEADS;
        self.nexts[e] = self.heads[b];
        self.heads[b] = Some(e as u16);
        self.known += 1;
    }
}
