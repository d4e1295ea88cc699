//! The literals of a step, and numbers for all terms that the steps in its place may need.

ghost use Rattle.std.specs.Prelude.{◌≡◌, List, All, IfOk, IfErr};
ghost use Rattle.term_model.specs.Terms.{Term};
ghost use Rattle.term_parts.specs.declared.answers.RuleStop.TheVariants as RuleStop;
ghost use Rattle.term_pool.specs.Placing.{LacksCellOf, PlacesCellsOf};
ghost use Rattle.term_pool.specs.Views.{IsTerm, KeepsTerms, ReferToAll};
ghost use Rattle.elab_resolution.specs.Numbered.{AreAllSpelled, HasRoomyNumber, IsNumbering, root_references};
ghost use Rattle.elab_resolution.specs.Spellings.{IsNearTo};

use crate::counting::count_all;
use crate::numbering::Numbering;
use crate::tops::tops_of;
use crate::towers::number_all;
use pair_pool::{Memory, Ref};
use std::alloc::Global;
use sym_table::Symbols;
use term_parts::RuleStop;
use term_pool::Terms;

/// The literals of the premises' clauses and of the clause, and the constants.
pub(crate) fn gather_roots(
    alloc: Global,
    premises: &[&[Ref]],
    clause: &[Ref],
    truth: Ref,
    falsity: Ref,
) -> Result<Vec<Ref>, Memory>
    ensures { IfOk result (λ roots. roots.items ≡ root_references premises.now clause.now truth falsity) }
{
    let mut roots = Vec::new(alloc);
    'premises: for premise in premises {
        roots.extend_from_slice(premise)?;
    }
    roots.extend_from_slice(clause)?;
    roots.push(truth)?;
    roots.push(falsity)?;
    Ok(roots)
}

/// Gives numbers to the terms that differ from some by leading `not`s alone, with three more at most.
pub(crate) fn number_terms(
    alloc: Global,
    symbols: &Symbols,
    terms: &mut Terms<'_>,
    roots: &[Ref],
) -> Result<Numbering, RuleStop>
    requires { All (IsTerm symbols.now terms.old) roots.now }
    ensures numbering { IfOk result (IsNumbering symbols.now terms.new) }
    ensures rooms { IfOk result (λ n. All (HasRoomyNumber n) roots.now) }
    ensures spelled { (ts : List Term) → ReferToAll symbols.now terms.old roots.now ts → IfOk result (AreAllSpelled symbols.now terms.new ts) }
    ensures placed { (ts : List Term) → ReferToAll symbols.now terms.old roots.now ts →
        PlacesCellsOf symbols.now terms.old.pass terms.new.pass (IsNearTo ts) }
    ensures full { IfErr result (λ e. e ≡ RuleStop.PoolFull → (ts : List Term) → ReferToAll symbols.now terms.old roots.now ts →
        LacksCellOf symbols.now terms.new.pass (IsNearTo ts)) }
    ensures keeps { KeepsTerms terms.old terms.new }
{
    symbols.leaves_differ();
    terms.equal_exactly_where_terms_are();
    let literals = count_all(alloc, symbols, terms, roots)?;
    let tops = tops_of(alloc, &literals)?;
    let numbering = number_all(alloc, symbols, terms, &literals, &tops)?;
    terms.equal_exactly_where_terms_are();
    Ok(numbering)
}
