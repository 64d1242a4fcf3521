// Exact: the first line through two posts of the path that separates it.
ghost use Rattle.std.specs.Prelude.{◌≡◌, [], ◌∷◌, is_some, Decides};
ghost use Rattle.std.specs.Option.{option_map};
ghost use Rattle.std.specs.List.{AllByRecursion};
ghost use Rattle.plane.specs.Limits.{Path};
ghost use Rattle.plane.specs.Lines.{TwoPosts, posts};
ghost use Rattle.plane.specs.Separation.{Coefficients, Stabbed};
ghost use Rattle.plane.specs.Shapes.{coefficients, place};
ghost use Rattle.stabbing.specs.Asked.{Passed, first_answer, from_point, joined};
ghost use Rattle.stabbing.specs.Exact.{SomeUnstabbed, exact_line, first_line, line_through};
ghost use Rattle.stabbing.specs.Found.{exact_decides, exact_front, exact_has, exact_is};
ghost use Rattle.std.proofs.Common.{rules};

use crate::doorways::{Doorways, ends};
use crate::stabber::{Sharp, Stabber};
use plane::line::Line;
use plane::post::Post;
use plane::quad::Quad;

impl Doorways<'_> {
    // The line from p to q, where these are two points and the line separates the path.
    fn joining(self, p: Post, q: Post) -> Option<Line>
        ensures { option_map coefficients result ≡ joined self.entry.list.now (place p) (place q) }
    {
        Line::through(p, q).filter(|line| line.separates(self.list))
    }

    // The first line from p to a post of the path that separates the path.
    fn from_post(self, p: Post) -> Option<Line>
        ensures { option_map coefficients result ≡ from_point self.entry.list.now (place p) }
    {
        self.first_at_post(|q| self.joining(p, q))
    }

    // The first line from the first left post to a post of the first two crossings: along a straight corridor there is one.
    fn from_start(self) -> Option<Line>
        ensures { (l : Coefficients) → option_map coefficients result ≡ Some l → first_line self.entry.list.now ≡ Some l }
    {
        let from = ends(self.list.first()?).left;
        self.split_at(2).0.first_at_post(|q| self.joining(from, q))
    }

    // The first line from a post of `front`, a part of the path in which each left post is refuted.
    fn from_right_posts(self, front: Doorways) -> Option<Line>
        requires { AllByRecursion (Passed self.list.now) front.list.now }
        ensures { option_map coefficients result ≡ first_answer (from_point self.entry.list.now) (posts front.entry.list.now) }
    {
        for near in front.list {
            let from = ends(near).right;
            if !self.refutes(from, near) {
                let found = self.from_post(from);
                if found.is_some() {
                    return found;
                }
            }
        }
        None
    }

    // The first line through two posts of the path that separates it. Where each left post is refuted, there is none.
    fn from_posts(self) -> Option<Line>
        ensures { option_map coefficients result ≡ first_line self.entry.list.now }
    {
        let (front, rest) = self.split_at(self.refuted_front());
        if rest.list.is_empty() {
            return None;
        }
        // Not `or_else`: after the call nothing is known of a closure that holds the doorways.
        match self.from_right_posts(front) {
            None => rest.first_at_post(|p| self.from_post(p)),
            found => found,
        }
    }

    // The first line through two posts that separates the path; the empty path has (0, 1, 0).
    fn line(self) -> Option<Line>
        ensures { option_map coefficients result ≡ line_through self.entry.list.now }
    {
        if self.list.is_empty() {
            return Some(Line { a: 0, b: 1, c: 0 });
        }
        match self.from_start() {
            None => self.from_posts(),
            found => found,
        }
    }
}

// The first line through two posts that separates the path; the empty path has (0, 1, 0), and a list that is no path
// has none. So there is a line exactly for the paths that any line separates, and some paths have none.
pub fn exact_line(path: &[Quad]) -> Option<Line>
    ensures value { option_map coefficients result ≡ exact_line path.now }
    ensures test { Decides (is_some result) (Path path.now × Stabbed path.now) }
    ensures posts { TwoPosts }
    ensures some { SomeUnstabbed }
{
    Doorways::new(path)?.line()
}

// Lets through the paths that some line separates, and answers the first line through two of their posts.
#[derive(Clone, Copy, Debug)]
pub struct Exact {}

impl Stabber for Exact {
    ghost lets = { λ _ p. is_some (exact_line p) };

    ghost asked = { λ s _. s };

    ghost path = { λ s p e. ((exact_decides p).0 e).0 };

    ghost stabbed = { λ s p path line. exact_has p path line };

    ghost prefix = { λ s p q e. exact_front p (q ∷ []) e };

    ghost steady = { Prim.search rules };

    fn lets_through(&mut self, path: &[Quad]) -> bool {
        exact_line(path).is_some()
    }
}

impl Sharp for Exact {
    ghost line = { λ _ p. exact_line p };

    ghost lined = { λ s _. s };

    ghost sharp = { Prim.search rules };

    ghost separates = { λ s p l e. let is = exact_is p l e in (is.1, is.2, is.3) };

    ghost steady = { Prim.search rules };

    fn stabbing_line(&mut self, path: &[Quad]) -> Option<(i32, i32, i32)> {
        exact_line(path).map(|line| line.numbers())
    }
}
