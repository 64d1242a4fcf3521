// Posts, crossings and lines are made from numbers, or refused.
ghost use Rattle.std.specs.Prelude.{◌≡◌, MatchResult};
ghost use Rattle.plane.specs.Limits.{PostAt, InLimits};
ghost use Rattle.plane.specs.Separation.{Proper};
ghost use Rattle.plane.specs.Shapes.{place, coefficients};

use crate::crossing::Crossing;
use crate::line::Line;
use crate::post::Post;
use crate::refusal::Refusal;

impl Post {
    pub const FARTHEST: u32 = 10_000;

    // The post at (x, y).
    pub fn new(x: i32, y: i32) -> Result<Post, Refusal>
        ensures { MatchResult result (λ p. place p ≡ (x, y)) (λ _. PostAt (x, y) → ⊥) }
    {
        if x.unsigned_abs() <= Post::FARTHEST && y.unsigned_abs() <= Post::FARTHEST {
            Ok(Post { x, y })
        } else {
            Err(Refusal::NoSuchShape)
        }
    }
}

impl Crossing {
    // The crossing between two different posts.
    pub fn new(left: Post, right: Post) -> Result<Crossing, Refusal>
        ensures { MatchResult result (λ c. (c.left ≡ left) × (c.right ≡ right)) (λ _. place left ≡ place right) }
    {
        if left == right {
            Err(Refusal::NoSuchShape)
        } else {
            Ok(Crossing { left, right })
        }
    }
}

impl Line {
    pub const STEEPEST: u32 = 20_000;

    pub const FARTHEST: u32 = 200_000_000;

    // The line a·x + b·y + c = 0.
    pub fn new(a: i32, b: i32, c: i32) -> Result<Line, Refusal>
        ensures { MatchResult result (λ l. coefficients l ≡ (a, b, c)) (λ _. Proper (a, b, c) → InLimits (a, b, c) → ⊥) }
    {
        let within = a.unsigned_abs() <= Line::STEEPEST
            && b.unsigned_abs() <= Line::STEEPEST
            && c.unsigned_abs() <= Line::FARTHEST;
        if within && (a != 0 || b != 0) {
            Ok(Line { a, b, c })
        } else {
            Err(Refusal::NoSuchShape)
        }
    }

    // The numbers (a, b, c) together.
    pub fn numbers(&self) -> (i32, i32, i32)
        ensures { result ≡ coefficients self.now }
    {
        (self.a, self.b, self.c)
    }
}
