//! The sides of equalities, and how these are used.

use pair_pool::Ref;
use std::marker::Model;

/// The sides of an equality. Contracts see the pair of their references.
#[derive(Clone, Copy)]
pub struct Pair {
    left: Ref,
    right: Ref,
}

impl Model for Pair {
    ghost use Rattle.std.specs.Prelude.{ℕ};

    ghost Value = { ℕ × ℕ };

    ghost view = { λ p. (p.left, p.right) };

    ghost inverse = { λ p. record { left = p.0; right = p.1 } };
}

impl Pair {
    ghost use Rattle.std.specs.Prelude.{◌≡◌};

    /// The pair of two sides.
    pub fn new(left: Ref, right: Ref) -> Pair
        ensures { result ≡ (left, right) }
    {
        Pair { left, right }
    }

    /// Both sides.
    pub fn sides(self) -> (Ref, Ref)
        ensures { result ≡ self }
    {
        (self.left, self.right)
    }
}

/// An equality by its place, as it stands or turned round.
#[derive(Clone, Copy)]
pub struct Used {
    /// The place of the premise, or of the literal that denies it.
    pub place: usize,
    /// Whether it is turned round.
    pub turned: bool,
}
