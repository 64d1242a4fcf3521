// What a stabber means and owes, and what a sharp one adds.
ghost use Rattle.std.specs.Prelude.{◌≡◌, Bool, true, List, [], ◌∷◌, ◌++◌, is_some, IfSome, Some, Option};
ghost use Rattle.plane.specs.declared.quad.Quad.{Quad};
ghost use Rattle.plane.specs.Limits.{Path, InLimits};
ghost use Rattle.plane.specs.Separation.{Coefficients, Proper, Separates, Stabbed};

use plane::quad::Quad;

// A stabber means a set of paths, those that it lets through.
//   lets s p    whether p is in the set of s
//   asked s p   how s stands after it was asked whether it lets p through
pub trait Stabber {
    ghost lets: { Self → List Quad → Bool };

    ghost asked: { Self → List Quad → Self };

    // Whether the list is a path that is let through.
    fn lets_through(&mut self, path: &[Quad]) -> bool
        ensures value { result ≡ lets self.old path.now }
        ensures after { self.new ≡ asked self.old path.now };

    // Only a path is let through.
    ghost path: { (s : Self) (p : List Quad) → lets s p ≡ true → Path p };

    // A path that some line separates, whatever the line's size, is let through.
    ghost stabbed: { (s : Self) (p : List Quad) → Path p → Stabbed p → lets s p ≡ true };

    // When a path is let through, so is the path without its last crossing.
    ghost prefix: { (s : Self) (p : List Quad) (q : Quad) → lets s (p ++ q ∷ []) ≡ true → lets s p ≡ true };

    // A question leaves the set unchanged.
    ghost steady: { (s : Self) (p q : List Quad) → lets (asked s p) q ≡ lets s q };
}

// A sharp stabber answers a line besides.
//   line s p    the line that s answers for p, if any
//   lined s p   how s stands after it was asked for that line
pub trait Sharp: Stabber {
    ghost line: { Self → List Quad → Option Coefficients };

    ghost lined: { Self → List Quad → Self };

    // The numbers (a, b, c) of a line that separates the path, exactly when the path is let through.
    fn stabbing_line(&mut self, path: &[Quad]) -> Option<(i32, i32, i32)>
        ensures value { result ≡ line self.old path.now }
        ensures after { self.new ≡ lined self.old path.now }
        ensures test { is_some result ≡ Self.Stabber.lets self.old path.now }
        ensures some { IfSome result (λ l. Proper l × InLimits l × Separates l path.now) };

    // There is a line exactly when the path is let through.
    ghost sharp: { (s : Self) (p : List Quad) → is_some (line s p) ≡ Self.Stabber.lets s p };

    // It is a line, within the limits, and separates the path.
    ghost separates: { (s : Self) (p : List Quad) (l : Coefficients) → line s p ≡ Some l → Proper l × InLimits l × Separates l p };

    // A question leaves the set unchanged.
    ghost steady: { (s : Self) (p q : List Quad) → Self.Stabber.lets (lined s p) q ≡ Self.Stabber.lets s q };
}
