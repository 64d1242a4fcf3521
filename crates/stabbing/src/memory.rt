// Memory: a layer over a sharp stabber, that holds the last line that was found and tries it first.
ghost use Rattle.std.specs.Prelude.{◌≡◌, is_some, if◌then◌else◌, None};
ghost use Rattle.std.specs.Option.{option_or};
ghost use Rattle.stabbing.specs.Memory.{recalled, kept};
ghost use Rattle.stabbing.specs.Recall.{recall_sharp, recall_separates};
ghost use Rattle.std.proofs.Common.{rules};

use crate::stabber::{Sharp, Stabber};
use plane::line::Line;
use plane::path::is_path;
use plane::quad::Quad;

#[derive(Clone, Copy, Debug)]
pub struct Memory<S> {
    pub below: S,
    pub held: Option<Line>,
}

impl<S> Memory<S> {
    // At first no line is held.
    pub fn new(below: S) -> Memory<S>
        ensures { result ≡ record { below = below; held = None } }
    {
        Memory { below, held: None }
    }

    // The held line, where it separates the path.
    fn recall(&self, path: &[Quad]) -> Option<(i32, i32, i32)>
        ensures { result ≡ recalled self.now.held path.now }
    {
        self.held
            .filter(|line| is_path(path) && line.separates(path))
            .map(|line| line.numbers())
    }
}

// What is held where the one below answers `found`.
fn keep(held: Option<Line>, found: Option<(i32, i32, i32)>) -> Option<Line>
    ensures { result ≡ kept held found }
{
    match found {
        Some((a, b, c)) => Line::new(a, b, c).ok(),
        None => held,
    }
}

impl<S: Sharp> Memory<S> {
    // The held line where it separates the path, else the line from below, which is then held.
    fn find(&mut self, path: &[Quad]) -> Option<(i32, i32, i32)>
        ensures value { result ≡ option_or (recalled self.old.held path.now) (S.Sharp.line self.old.below path.now) }
        ensures after { self.new ≡ (if is_some (recalled self.old.held path.now) then self.old else (record { below = S.Sharp.lined self.old.below path.now; held = kept self.old.held (S.Sharp.line self.old.below path.now) })) }
    {
        let recalled = self.recall(path);
        if recalled.is_some() {
            return recalled;
        }
        let found = self.below.stabbing_line(path);
        self.held = keep(self.held, found);
        found
    }
}

impl<S: Sharp> Stabber for Memory<S> {
    ghost lets = { λ s p. S.Stabber.lets s.below p };

    ghost asked = { λ s p. (if is_some (recalled s.held p) then s else (record { below = S.Sharp.lined s.below p; held = kept s.held (S.Sharp.line s.below p) })) };

    ghost path = { Prim.search rules };

    ghost stabbed = { Prim.search rules };

    ghost prefix = { Prim.search rules };

    ghost steady = { Prim.search rules };

    fn lets_through(&mut self, path: &[Quad]) -> bool {
        self.find(path).is_some()
    }
}

impl<S: Sharp> Sharp for Memory<S> {
    ghost line = { λ s p. option_or (recalled s.held p) (S.Sharp.line s.below p) };

    ghost lined = { λ s p. (if is_some (recalled s.held p) then s else (record { below = S.Sharp.lined s.below p; held = kept s.held (S.Sharp.line s.below p) })) };

    ghost sharp = { λ s p. recall_sharp s.held p (S.Sharp.line s.below p) (S.Stabber.lets s.below p) (S.Stabber.stabbed s.below p) (S.Sharp.sharp s.below p) };

    ghost separates = { λ s p l e. recall_separates s.held p (S.Sharp.line s.below p) l (S.Sharp.separates s.below p l) e };

    ghost steady = { Prim.search rules };

    fn stabbing_line(&mut self, path: &[Quad]) -> Option<(i32, i32, i32)> {
        self.find(path)
    }
}
