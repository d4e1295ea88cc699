//! Each term gets the next free name.
ghost use Rattle.std.specs.Prelude.{◌≡◌, All, IfOk};
ghost use Rattle.problem_text.specs.Scripts.{Script};
ghost use Rattle.term_reader.specs.ProblemViews.{IsProblemOf};
ghost use Rattle.term_sharing.specs.NamedTerms.{MayHaveName};
ghost use Rattle.term_sharing.specs.Naming.{HasPlan};

use crate::free_names::{leaf_names, next_free};
use crate::marks::{Mark, is_found};
use pair_pool::Ref;
use std::alloc::{AllocError, Global};
use sym_table::Symbols;
use term_pool::Terms;
use term_printer::Names;
use term_reader::Problem;

/// Names for those of these terms that are met more than once, with numbers that go up. Where no number is left the others have none.
pub(crate) fn names_for(
    alloc: Global,
    symbols: &Symbols,
    terms: &Terms<'_>,
    problem: &Problem,
    marks: &[Mark],
    closed: &[Ref],
) -> Result<Names, AllocError>
    requires { All (MayHaveName symbols.now terms.now) closed.now }
    ensures { IfOk result (λ names. (sc : Script) → IsProblemOf symbols.now terms.now problem.now sc → HasPlan symbols.now terms.now names sc.taken) }
{
    symbols.leaves_differ();
    terms.equal_exactly_where_terms_are();
    let leaves = leaf_names(alloc, symbols)?;
    let mut names = Names::new(alloc);
    let mut next = 1;
    'terms: for r in closed {
        if !is_found(marks, *r) {
            continue;
        }
        let Some(number) = next_free(alloc, problem, &leaves, next)? else {
            return Ok(names);
        };
        names.plan(*r, number)?;
        next = number + 1;
    }
    Ok(names)
}
