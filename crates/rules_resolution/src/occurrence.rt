//! One place at which a literal stands.
ghost use Rattle.std.specs.Prelude.{◌≡◌};
ghost use Rattle.rules_resolution.specs.Occurrence.{rank_of, literal_rank, is_of};

/// A literal that is neither constant, with the place of its premise and its own place in it. The conclusion
/// counts as the premise after the last, and its literals as at place 0.
#[derive(Clone, Copy)]
pub(crate) struct Occurrence {
    pub(crate) atom: u32,
    pub(crate) negative: bool,
    pub(crate) premise: u32,
    pub(crate) place: u32,
}

impl Occurrence {
    /// The order of a table: by atom, then by sign, then by premise.
    pub(crate) fn rank(self) -> u128
        ensures { result ≡ rank_of self }
    {
        first_rank(self.atom, self.negative) + self.premise as u128
    }

    /// Whether it is of this literal.
    pub(crate) fn is_of(self, atom: u32, negative: bool) -> bool
        ensures { result ≡ is_of atom negative self }
    {
        self.atom == atom && self.negative == negative
    }
}

/// The least rank of an occurrence of this literal.
pub(crate) fn first_rank(atom: u32, negative: bool) -> u128
    ensures { result ≡ literal_rank atom negative }
{
    let sign = if negative { 1 } else { 0 };
    (2 * atom as u128 + sign) * 4294967296
}
