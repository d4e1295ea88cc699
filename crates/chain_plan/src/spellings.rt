//! Terms by numbers.

ghost use Rattle.std.specs.Prelude.{◌≡◌, ◌↔◌, ◌⊎◌, ◌<◌, length, IsTrue};
ghost use Rattle.chain_plan.specs.Lowering.{IsPivotAgainst};
ghost use Rattle.chain_plan.specs.Towers.{AreTowers, HasNegation, item_of, nots_at, plain_of};

use clause_chain::SignedTerm;
use std::marker::Model;

/// For each number how many `not`s its term begins with, and the numbers of the constants `true` and `false`.
#[derive(Drop)]
pub struct Spellings {
    pub nots: Vec<u32>,
    pub truth: u32,
    pub falsity: u32,
}

impl Model for Spellings {
    ghost use Rattle.chain_plan.specs.Towers.{Towers};

    ghost Value = { Towers };

    ghost view = { λ s. record { nots = s.nots.items; truth = s.truth; falsity = s.falsity } };
}

/// The term with a number as an item of a chain.
pub(crate) fn item(number: u32) -> SignedTerm
    ensures { result ≡ item_of number }
{
    SignedTerm {
        term: number,
        negative: false,
    }
}

impl Spellings {
    /// The number of `true`.
    pub(crate) fn truth(&self) -> u32
        ensures { result ≡ self.now.truth }
    {
        self.truth
    }

    /// The number of `false`.
    pub(crate) fn falsity(&self) -> u32
        ensures { result ≡ self.now.falsity }
    {
        self.falsity
    }

    /// How many numbers there are.
    pub(crate) fn count(&self) -> usize
        ensures { result ≡ length self.now.nots }
    {
        self.nots.len()
    }

    /// How many `not`s the term begins with.
    pub(crate) fn nots_of(&self, number: u32) -> u32
        requires { number < length self.now.nots }
        ensures { result ≡ nots_at self.now number }
    {
        self.nots[number as usize]
    }

    /// The pivot against a term: the number of the term under all its `not`s, and whether the opposite of its plain spelling is
    /// that term.
    pub(crate) fn pivot_against(&self, number: u32) -> (u32, bool)
        requires towers { AreTowers self.now }
        requires above { HasNegation self.now number }
        ensures { IsPivotAgainst self.now number result.0 result.1 }
    {
        let nots = self.nots_of(number);
        if nots % 2 == 1 {
            return (number - nots, true);
        }
        (number - nots, false)
    }

    /// The number of what is left of a term where all pairs of `not` are taken away.
    pub(crate) fn plain(&self, number: u32) -> u32
        requires towers { AreTowers self.now }
        requires within { number < length self.now.nots }
        ensures { result ≡ plain_of self.now number }
    {
        let nots = self.nots_of(number);
        number - (nots - nots % 2)
    }

    /// Whether a number is that of `true` or of `false`.
    pub(crate) fn is_constant(&self, number: u32) -> bool
        ensures { IsTrue result ↔ ((number ≡ self.now.truth) ⊎ (number ≡ self.now.falsity)) }
    {
        number == self.truth || number == self.falsity
    }
}
