//! The assert lines of a question.
ghost use Rattle.std.specs.Prelude.{◌≡◌, ◌<◌, List, [], ◌∷◌, ◌++◌, flat_map, codes, All, IfOk, IfSome, IfNone, length};
ghost use Rattle.sym_table.specs.Table.{Table};
ghost use Rattle.term_model.specs.Terms.{Var, Term, terms_of, not_of};
ghost use Rattle.term_parts.specs.Judging.{ReferToClauses};
ghost use Rattle.term_pool.specs.Views.{IsTerm, RefersTo, ReferToAll};
ghost use Rattle.rule_model.specs.Proofs.{ProofItems};
ghost use Rattle.rule_model.specs.Scopes.{commands_in};
ghost use Rattle.proof_store.specs.Checks.{StandForSome};
ghost use Rattle.proof_store.specs.Meaning.{StandForItems};
ghost use Rattle.hole_fillers.specs.Questions.{clause_term, asserted_at, most_bytes};
ghost use Rattle.hole_questions.specs.Asserts.{asserts_text, IsWritten};
ghost use Rattle.hole_questions.specs.States.{bytes};
ghost use Rattle.hole_questions.specs.Pieces.{term_pieces, spaced_pieces, assert_pieces, question_pieces};
ghost use Rattle.hole_questions.specs.Walks.{WritesOrNot};

use crate::walk::write_whole;
use crate::writer::Writer;
use pair_pool::{Memory, Ref};
use proof_store::{Proof, premise_clauses, terms_correspond};
use std::alloc::Global;
use sym_table::Symbols;
use term_pool::Terms;

/// The assert lines of the question about a step: one for each of its premises, and one for each literal of its clause. None only where
/// they are longer than 1,048,576 bytes; lines that are returned may be longer by the last piece of them.
///
/// Takes a step for each cell and each leaf that it writes. Terms are written as often as they occur, so where they are shared without
/// end it ends as soon as the text is too long. Refuses only when out of memory.
pub fn assert_lines(
    alloc: Global,
    proof: &Proof,
    i: u32,
    symbols: &Symbols,
    terms: &mut Terms<'_>,
) -> Result<Option<Writer>, Memory>
    requires terms { StandForSome symbols.now terms.old proof.now }
    requires command { i < commands_in proof.now }
    ensures written { IfOk result (λ found. IfSome found (λ w. (of : ProofItems Var Term) → StandForItems symbols.now terms.old proof.now of →
        IsWritten symbols.now w (asserted_at of i))) }
    ensures too_long { IfOk result (λ found. IfNone found ((of : ProofItems Var Term) → StandForItems symbols.now terms.old proof.now of →
        most_bytes < length (asserts_text (asserted_at of i)))) }
    ensures same { terms.new ≡ terms.old }
{
    symbols.leaves_differ();
    let mut writer = Writer::new(alloc);
    if write_asserts(alloc, proof, i, symbols, terms, &mut writer)? {
        Ok(Some(writer))
    } else {
        Ok(None)
    }
}

/// A literal behind a space, and whether it is written whole.
fn write_spaced(
    alloc: Global,
    symbols: &Symbols,
    terms: &mut Terms<'_>,
    writer: &mut Writer,
    r: Ref,
) -> Result<bool, Memory>
    requires { IsTerm symbols.now terms.old r }
    ensures whole { IfOk result (λ is_whole. (t : Term) → RefersTo symbols.now terms.old r t →
        WritesOrNot is_whole symbols.now writer.old writer.new (spaced_pieces t)) }
    ensures same { terms.new ≡ terms.old }
{
    symbols.leaves_differ();
    writer.put(b" ")?;
    write_whole(alloc, symbols, terms, writer, r)
}

/// Literals, each behind a space.
fn write_literals(
    alloc: Global,
    symbols: &Symbols,
    terms: &mut Terms<'_>,
    writer: &mut Writer,
    literals: &[Ref],
) -> Result<bool, Memory>
    requires { All (IsTerm symbols.now terms.old) literals.now }
    ensures whole { IfOk result (λ is_whole. (ts : List Term) → ReferToAll symbols.now terms.old literals.now ts →
        WritesOrNot is_whole symbols.now writer.old writer.new (flat_map spaced_pieces ts)) }
    ensures same { terms.new ≡ terms.old }
{
    'literals: for literal in literals {
        if !write_spaced(alloc, symbols, terms, writer, *literal)? {
            return Ok(false);
        }
    }
    Ok(true)
}

/// A disjunction of two literals or more.
fn write_disjunction(
    alloc: Global,
    symbols: &Symbols,
    terms: &mut Terms<'_>,
    writer: &mut Writer,
    literals: &[Ref],
) -> Result<bool, Memory>
    requires { All (IsTerm symbols.now terms.old) literals.now }
    ensures whole { IfOk result (λ is_whole. (ts : List Term) → ReferToAll symbols.now terms.old literals.now ts →
        WritesOrNot is_whole symbols.now writer.old writer.new
        (bytes (codes "(") ∷ bytes (codes "or") ∷ (flat_map spaced_pieces ts ++ bytes (codes ")") ∷ []))) }
    ensures same { terms.new ≡ terms.old }
{
    symbols.leaves_differ();
    writer.put(b"(")?;
    writer.put(b"or")?;
    if !write_literals(alloc, symbols, terms, writer, literals)? {
        return Ok(false);
    }
    writer.put(b")")?;
    Ok(true)
}

/// A clause as one term.
fn write_clause(
    alloc: Global,
    symbols: &Symbols,
    terms: &mut Terms<'_>,
    writer: &mut Writer,
    clause: &[Ref],
) -> Result<bool, Memory>
    requires { All (IsTerm symbols.now terms.old) clause.now }
    ensures whole { IfOk result (λ is_whole. (ts : List Term) → ReferToAll symbols.now terms.old clause.now ts →
        WritesOrNot is_whole symbols.now writer.old writer.new (term_pieces (clause_term ts))) }
    ensures same { terms.new ≡ terms.old }
{
    symbols.leaves_differ();
    if clause.is_empty() {
        writer.put(b"false")?;
        return Ok(true);
    }
    if clause.len() == 1 {
        return write_whole(alloc, symbols, terms, writer, clause[0]);
    }
    write_disjunction(alloc, symbols, terms, writer, clause)
}

/// The assert line of a premise.
fn write_premise(
    alloc: Global,
    symbols: &Symbols,
    terms: &mut Terms<'_>,
    writer: &mut Writer,
    clause: &[Ref],
) -> Result<bool, Memory>
    requires { All (IsTerm symbols.now terms.old) clause.now }
    ensures whole { IfOk result (λ is_whole. (ts : List Term) → ReferToAll symbols.now terms.old clause.now ts →
        WritesOrNot is_whole symbols.now writer.old writer.new (assert_pieces (clause_term ts))) }
    ensures same { terms.new ≡ terms.old }
{
    symbols.leaves_differ();
    writer.put(b"(assert ")?;
    if !write_clause(alloc, symbols, terms, writer, clause)? {
        return Ok(false);
    }
    writer.put(b")\n")?;
    Ok(true)
}

/// The assert lines of premises.
fn write_premises(
    alloc: Global,
    symbols: &Symbols,
    terms: &mut Terms<'_>,
    writer: &mut Writer,
    clauses: &[&[Ref]],
) -> Result<bool, Memory>
    requires { All (λ p. All (IsTerm symbols.now terms.old) p.now) clauses.now }
    ensures whole { IfOk result (λ is_whole. (ps : List (List Term)) → ReferToClauses symbols.now terms.old clauses.now ps →
        WritesOrNot is_whole symbols.now writer.old writer.new (flat_map (λ ts. assert_pieces (clause_term ts)) ps)) }
    ensures same { terms.new ≡ terms.old }
{
    'clauses: for clause in clauses {
        if !write_premise(alloc, symbols, terms, writer, clause)? {
            return Ok(false);
        }
    }
    Ok(true)
}

/// The assert line of a literal of the hole's clause, which says the opposite of it.
fn write_denial(
    alloc: Global,
    symbols: &Symbols,
    terms: &mut Terms<'_>,
    writer: &mut Writer,
    r: Ref,
) -> Result<bool, Memory>
    requires { IsTerm symbols.now terms.old r }
    ensures whole { IfOk result (λ is_whole. (t : Term) → RefersTo symbols.now terms.old r t →
        WritesOrNot is_whole symbols.now writer.old writer.new (assert_pieces (not_of t))) }
    ensures same { terms.new ≡ terms.old }
{
    symbols.leaves_differ();
    writer.put(b"(assert ")?;
    writer.put(b"(")?;
    writer.put(b"not")?;
    writer.put(b" ")?;
    if !write_whole(alloc, symbols, terms, writer, r)? {
        return Ok(false);
    }
    writer.put(b")")?;
    writer.put(b")\n")?;
    Ok(true)
}

/// The assert lines of the literals of the hole's clause.
fn write_denials(
    alloc: Global,
    symbols: &Symbols,
    terms: &mut Terms<'_>,
    writer: &mut Writer,
    literals: &[Ref],
) -> Result<bool, Memory>
    requires { All (IsTerm symbols.now terms.old) literals.now }
    ensures whole { IfOk result (λ is_whole. (ts : List Term) → ReferToAll symbols.now terms.old literals.now ts →
        WritesOrNot is_whole symbols.now writer.old writer.new (flat_map (λ t. assert_pieces (not_of t)) ts)) }
    ensures same { terms.new ≡ terms.old }
{
    'literals: for literal in literals {
        if !write_denial(alloc, symbols, terms, writer, *literal)? {
            return Ok(false);
        }
    }
    Ok(true)
}

/// The assert lines of the question about a step, and whether they are written whole: where the text would be longer than a
/// question, it may end before that.
pub(crate) fn write_asserts(
    alloc: Global,
    proof: &Proof,
    i: u32,
    symbols: &Symbols,
    terms: &mut Terms<'_>,
    writer: &mut Writer,
) -> Result<bool, Memory>
    requires terms { StandForSome symbols.now terms.old proof.now }
    requires command { i < commands_in proof.now }
    ensures whole { IfOk result (λ is_whole. (of : ProofItems Var Term) → StandForItems symbols.now terms.old proof.now of →
        WritesOrNot is_whole symbols.now writer.old writer.new (question_pieces (asserted_at of i))) }
    ensures same { terms.new ≡ terms.old }
{
    terms_correspond();
    let mut clauses = Vec::new(alloc);
    premise_clauses(proof, i, &mut clauses)?;
    if !write_premises(alloc, symbols, terms, writer, &clauses)? {
        return Ok(false);
    }
    write_denials(alloc, symbols, terms, writer, proof.clause(i))
}
