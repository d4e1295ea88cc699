//! Terms as literals, by references to them.
ghost use Rattle.std.specs.Prelude.{◌≡◌, ◌≢◌};
ghost use Rattle.rule_model.specs.Renaming.{IsLiteralImage};
ghost use Rattle.rule_model.specs.Resolution.{as_literal};
ghost use Rattle.rule_model.specs.declared.literal.Literal.{Literal};
ghost use Rattle.term_model.specs.Terms.{Term, not_of};
ghost use Rattle.term_pool.specs.Views.{IsTerm, RefersTo};
ghost use Rattle.rules_resolution.specs.TermLiterals.{IsLiteralOf, turned};

use crate::literal::Lit;
use crate::loading::OfTerm;
use pair_pool::Ref;
use sym_table::Symbols;
use term_model::Op;
use term_pool::Terms;

/// The constant `true`, or its negation.
fn truth(negative: bool) -> Lit
    ensures { result ≡ turned negative (Literal.Always) }
{
    if negative { Lit::Never } else { Lit::Always }
}

/// A term that is no negation as a literal with a sign, its reference for the atom where it is one.
fn bare_literal(symbols: &Symbols, terms: &Terms<'_>, bare: Ref, negative: bool) -> Lit
    ensures { (t : Term) → RefersTo symbols.now terms.now bare t → ((u : Term) → t ≢ not_of u) →
        IsLiteralImage (RefersTo symbols.now terms.now) result (turned negative (as_literal t)) }
{
    symbols.leaves_differ();
    terms.equal_exactly_where_terms_are();
    let always = Ref::leaf(symbols.operator(Op::True));
    if bare.number() == always.number() {
        return truth(negative);
    }
    let never = Ref::leaf(symbols.operator(Op::False));
    if bare.number() == never.number() {
        return truth(!negative);
    }
    Lit::Plain {
        atom: bare.number(),
        negative,
    }
}

/// A term as a literal: leading pairs of `not` are removed.
fn literal(symbols: &Symbols, terms: &mut Terms<'_>, r: Ref) -> Lit
    requires { IsTerm symbols.now terms.old r }
    ensures literal { IsLiteralOf symbols.now terms.old r result }
    ensures same { terms.new ≡ terms.old }
{
    let (bare, negative) = terms.strip_not(symbols, r);
    bare_literal(symbols, terms, bare, negative)
}

impl OfTerm for Lit {
    ghost is_of = { IsLiteralOf };

    fn of_term(symbols: &Symbols, terms: &mut Terms<'_>, r: Ref) -> Lit {
        literal(symbols, terms, r)
    }
}
