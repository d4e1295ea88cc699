//! The arguments of literals that are applications of an operator.

ghost use Rattle.std.specs.Prelude.{◌≡◌, IfNone, IfOk, IfSome, length};
ghost use Rattle.known_args.specs.Rows.{AreRight, row_at};
ghost use Rattle.schema_match.specs.Arguments.{HasArguments, HasNoArguments};
ghost use Rattle.schema_match.specs.Signs.{IsSigned};
ghost use Rattle.term_model.specs.Terms.{Term};
ghost use Rattle.term_parts.specs.Parts.{IsOver};
ghost use Rattle.term_pool.specs.Reading.{arguments_of};
ghost use Rattle.term_pool.specs.Views.{IsTerm, RefersTo};

use crate::memory::{KnownArgs, Place};
use pair_pool::{Memory, Ref};
use schema_match::{Sign, unsigned};
use sym_table::Symbols;
use term_model::Op;
use term_pool::Terms;

/// The term for which a literal stands with a sign, where its head is an operator.
fn headed(symbols: &Symbols, terms: &mut Terms<'_>, op: Op, sign: Sign, literal: Ref) -> Option<Ref>
    requires { IsTerm symbols.now terms.old literal }
    ensures signed { IfSome result (λ a. (t : Term) → RefersTo symbols.now terms.old literal t → IsSigned symbols.now terms.old sign a t) }
    ensures headed { IfSome result (λ a. (t : Term) → RefersTo symbols.now terms.old a t → IsOver op (length (arguments_of t)) t) }
    ensures other { IfNone result ((t : Term) → RefersTo symbols.now terms.old literal t → HasNoArguments op sign t) }
    ensures same { terms.new ≡ terms.old }
{
    symbols.leaves_differ();
    let Some(term) = unsigned(symbols, terms, sign, literal) else {
        return None;
    };
    let Some(head) = terms.head(term) else {
        return None;
    };
    if head != symbols.operator(op) {
        return None;
    }
    Some(term)
}

impl KnownArgs {
    /// The place of the arguments of a literal that is an application of an operator to one argument or more, with a sign.
    /// Refuses only when out of memory, and what is kept stays right.
    pub fn place_under(
        &mut self,
        symbols: &Symbols,
        terms: &mut Terms<'_>,
        op: Op,
        sign: Sign,
        literal: Ref,
    ) -> Result<Option<Place>, Memory>
        requires literal { IsTerm symbols.now terms.old literal }
        requires right { AreRight terms.old self.old }
        ensures arguments { IfOk result (λ found. IfSome found (λ place. (t : Term) → RefersTo symbols.now terms.old literal t →
            HasArguments symbols.now terms.old op sign t (row_at self.new place).1)) }
        ensures other { IfOk result (λ found. IfNone found ((t : Term) → RefersTo symbols.now terms.old literal t → HasNoArguments op sign t)) }
        ensures right { AreRight terms.old self.new }
        ensures same { terms.new ≡ terms.old }
    {
        let Some(term) = headed(symbols, terms, op, sign, literal) else {
            return Ok(None);
        };
        let place = self.place(terms, term)?;
        let arguments = self.row(place);
        if arguments.items().is_empty() {
            return Ok(None);
        }
        Ok(Some(place))
    }
}
