//! Matching terms against the parts of a schema.

ghost use Rattle.std.specs.Prelude.{◌≡◌, ◌∷◌, ◌++◌, ◌↔◌, [], List, IsTrue, IfOk};
ghost use Rattle.std.specs.Bool.{OnTrue, OnFalse};
ghost use Rattle.rule_model.specs.Schemas.{Pattern};
ghost use Rattle.rule_model.specs.declared.letter.Letter.{Letter};
ghost use Rattle.sym_table.specs.Table.{IsTable};
ghost use Rattle.term_model.specs.Terms.{Term};
ghost use Rattle.term_pool.specs.Views.{IsTerm};
ghost use Rattle.schema_match.specs.Stack.{StackOf, IsStack};
ghost use Rattle.schema_match.specs.Matching.{parts_of, Fits, Matches};
ghost use Rattle.schema_match.specs.Reads.{Left, Reads};
ghost use Rattle.schema_match.specs.declared.part.Part.{Part};

use crate::applications::over;
use crate::letters::Letters;
use crate::part::Part;
use crate::scratch::{Scratch, pop};
use crate::stack::push_arguments;
use pair_pool::{Memory, Ref};
use sym_table::Symbols;
use term_pool::Terms;

/// Whether a term can be read by a part. Where it can, a letter is settled, or the arguments stand on the stack.
fn step(
    symbols: &Symbols,
    terms: &mut Terms<'_>,
    part: Part,
    r: Ref,
    letters: &mut Letters,
    stack: &mut Scratch,
) -> Result<bool, Memory>
    requires { IsTerm symbols.now terms.old r }
    ensures read { IfOk result (λ yes. OnTrue yes ((whole rest : List Part) (ts : List Term) →
        Left symbols.now terms.old whole ts (part ∷ rest) letters.old (stack.old.items ++ r ∷ []) →
        Left symbols.now terms.old whole ts rest letters.new stack.new.items)) }
    ensures refused { IfOk result (λ yes. OnFalse yes ((whole rest : List Part) (ts : List Term) →
        Left symbols.now terms.old whole ts (part ∷ rest) letters.old (stack.old.items ++ r ∷ []) →
        (f : Letter → Term) → ¬ Reads f whole ts)) }
    ensures same { terms.new ≡ terms.old }
{
    symbols.leaves_differ();
    terms.equal_exactly_where_terms_are();
    match part {
        Part::Any(letter) => Ok(letters.settle(letter, r)),
        Part::Apply(op, count) => {
            if over(symbols, terms, op, r) != Some(count) {
                return Ok(false);
            }
            push_arguments(terms, r, count, stack)?;
            Ok(true)
        }
    }
}

/// Whether the terms on a stack, the first of which is at the top, are an instance of the patterns that these are the
/// parts of. Where they are, the letters are what gives them. Nothing is left of the stack then. Walks the arguments of
/// each term that is read by an operator.
pub fn fits_with(
    symbols: &Symbols,
    terms: &mut Terms<'_>,
    parts: &[Part],
    letters: &mut Letters,
    stack: &mut Scratch,
) -> Result<bool, Memory>
    requires { IsStack symbols.now terms.old stack.old.items }
    ensures fits { IfOk result (λ yes. OnTrue yes ((ps : List Pattern) (ts : List Term) → parts.now ≡ parts_of ps →
        StackOf symbols.now terms.old stack.old.items ts → Matches symbols.now terms.old letters.new ps ts)) }
    ensures other { IfOk result (λ yes. OnFalse yes ((ps : List Pattern) (ts : List Term) → parts.now ≡ parts_of ps →
        StackOf symbols.now terms.old stack.old.items ts → ¬ Fits ps ts)) }
    ensures same { terms.new ≡ terms.old }
{
    *letters = Letters::new();
    for part in parts {
        let Some(r) = pop(stack) else {
            return Ok(false);
        };
        if !step(symbols, terms, *part, r, letters, stack)? {
            return Ok(false);
        }
    }
    Ok(stack.is_empty())
}

/// Whether the terms on a stack, the first of which is at the top, are an instance of the patterns that these are the
/// parts of, with some terms for the letters.
pub fn fits(
    symbols: &Symbols,
    terms: &mut Terms<'_>,
    parts: &[Part],
    stack: &mut Scratch,
) -> Result<bool, Memory>
    requires { IsStack symbols.now terms.old stack.old.items }
    ensures fits { IfOk result (λ yes. (ps : List Pattern) (ts : List Term) → parts.now ≡ parts_of ps →
        StackOf symbols.now terms.old stack.old.items ts → IsTrue yes ↔ Fits ps ts) }
    ensures same { terms.new ≡ terms.old }
{
    let mut letters = Letters::new();
    let yes = fits_with(symbols, terms, parts, &mut letters, stack)?;
    Ok(yes)
}
