//! Literals, and the opposite of one.
ghost use Rattle.std.specs.Prelude.{◌≡◌};
ghost use Rattle.rule_model.specs.Literals.{negation_of};

use rule_model::Literal;

/// A literal of a clause, over atoms that are numbers.
pub type Lit = Literal<u32>;

/// The opposite literal.
pub(crate) fn negate(literal: Lit) -> Lit
    ensures { result ≡ negation_of literal }
{
    match literal {
        Lit::Plain { atom, negative } => Lit::Plain {
            atom,
            negative: !negative,
        },
        Lit::Always => Lit::Never,
        Lit::Never => Lit::Always,
    }
}
