//! Steps over numbers.

ghost use Rattle.std.specs.Prelude.{◌≡◌, ◌<◌, List, IfOk, IfErr};
ghost use Rattle.term_model.specs.Terms.{Term};
ghost use Rattle.term_parts.specs.Judging.{ReferToClauses};
ghost use Rattle.term_parts.specs.declared.answers.RuleStop.TheVariants as RuleStop;
ghost use Rattle.term_pool.specs.Placing.{LacksCellOf, PlacesCellsOf};
ghost use Rattle.term_pool.specs.Views.{KeepsTerms, ReferToAll};
ghost use Rattle.elab_resolution.specs.Plannable.{IsLoaded, ReferToStep};
ghost use Rattle.elab_resolution.specs.Spellings.{IsNearTo, roots_of};

use crate::clauses::{all_items_of, items_of};
use crate::roots::{gather_roots, number_terms};
use chain_plan::Spellings;
use clause_chain::SignedTerm;
use pair_pool::Ref;
use std::alloc::Global;
use sym_table::Symbols;
use term_model::Op;
use term_parts::RuleStop;
use term_pool::Terms;

/// A step over numbers: what the numbers are, the reference of each and that of `true`, the clauses of the premises, and the
/// clause.
#[derive(Drop)]
pub(crate) struct OverNumbers {
    pub(crate) spellings: Spellings,
    pub(crate) refs: Vec<Ref>,
    pub(crate) truth: Ref,
    pub(crate) given: Vec<Vec<SignedTerm>>,
    pub(crate) goal: Vec<SignedTerm>,
}

/// Gives numbers to the literals of a step, and to all terms that the steps in its place may need.
pub(crate) fn load(
    alloc: Global,
    symbols: &Symbols,
    terms: &mut Terms<'_>,
    premises: &[&[Ref]],
    clause: &[Ref],
) -> Result<OverNumbers, RuleStop>
    requires { ReferToStep symbols.now terms.old premises.now clause.now }
    ensures loaded { (ps : List (List Term)) (ts : List Term) → ReferToClauses symbols.now terms.old premises.now ps →
        ReferToAll symbols.now terms.old clause.now ts → IfOk result (IsLoaded symbols.now terms.new ps ts clause.now) }
    ensures placed { (ps : List (List Term)) (ts : List Term) → ReferToClauses symbols.now terms.old premises.now ps →
        ReferToAll symbols.now terms.old clause.now ts → PlacesCellsOf symbols.now terms.old.pass terms.new.pass (IsNearTo (roots_of ps ts)) }
    ensures full { IfErr result (λ e. e ≡ RuleStop.PoolFull → (ps : List (List Term)) (ts : List Term) →
        ReferToClauses symbols.now terms.old premises.now ps → ReferToAll symbols.now terms.old clause.now ts →
        LacksCellOf symbols.now terms.new.pass (IsNearTo (roots_of ps ts))) }
    ensures keeps { KeepsTerms terms.old terms.new }
{
    symbols.leaves_differ();
    let truth = Ref::leaf(symbols.operator(Op::True));
    let falsity = Ref::leaf(symbols.operator(Op::False));
    let roots = gather_roots(alloc, premises, clause, truth, falsity)?;
    let numbering = number_terms(alloc, symbols, terms, &roots)?;
    terms.equal_exactly_where_terms_are();
    terms.one_to_one();
    terms.terms_at();
    let given = all_items_of(alloc, &numbering, premises)?;
    let goal = items_of(alloc, &numbering, clause)?;
    let truth_number = numbering.known_number(truth);
    let falsity_number = numbering.known_number(falsity);
    let (nots, refs) = numbering.into_parts();
    Ok(OverNumbers {
        spellings: Spellings {
            nots,
            truth: truth_number,
            falsity: falsity_number,
        },
        refs,
        truth,
        given,
        goal,
    })
}
