// Both: a layer over two stabbers, that lets through what both let through.
ghost use Rattle.std.specs.Prelude.{◌&&◌, if◌then◌else◌, None};
ghost use Rattle.std.proofs.Common.{rules};
ghost use Rattle.stabbing.specs.Answers.{backs};

use crate::stabber::{Sharp, Stabber};
use plane::quad::Quad;

// The back is asked only after the front's yes.
#[derive(Clone, Copy, Debug)]
pub struct Both<F, B> {
    pub front: F,
    pub back: B,
}

impl<F: Stabber, B: Stabber> Stabber for Both<F, B> {
    ghost lets = { λ s p. F.Stabber.lets s.front p && B.Stabber.lets s.back p };

    ghost asked = { λ s p. record { front = F.Stabber.asked s.front p; back = (if F.Stabber.lets s.front p then B.Stabber.asked s.back p else s.back) } };

    ghost path = { Prim.search rules };

    ghost stabbed = { Prim.search rules };

    ghost prefix = { Prim.search rules };

    ghost steady = { Prim.search rules };

    fn lets_through(&mut self, path: &[Quad]) -> bool {
        self.front.lets_through(path) && self.back.lets_through(path)
    }
}

impl<F: Stabber, B: Sharp> Sharp for Both<F, B> {
    ghost line = { λ s p. (if F.Stabber.lets s.front p then B.Sharp.line s.back p else None) };

    ghost lined = { λ s p. record { front = F.Stabber.asked s.front p; back = (if F.Stabber.lets s.front p then B.Sharp.lined s.back p else s.back) } };

    ghost sharp = { Prim.search rules };

    ghost separates = { λ s p l e. B.Sharp.separates s.back p l (backs (F.Stabber.lets s.front p) (B.Sharp.line s.back p) l e) };

    ghost steady = { Prim.search rules };

    fn stabbing_line(&mut self, path: &[Quad]) -> Option<(i32, i32, i32)> {
        if self.front.lets_through(path) {
            self.back.stabbing_line(path)
        } else {
            None
        }
    }
}
