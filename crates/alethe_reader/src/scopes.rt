//! Entering the scope of an anchor, and leaving it.
ghost use Rattle.std.specs.Prelude.{◌≡◌, List, length, OnOk};
ghost use Rattle.std.specs.List.{AllZip};
ghost use Rattle.sym_table.specs.Table.{Table};
ghost use Rattle.term_model.specs.Terms.{Var, Term};
ghost use Rattle.term_pool.specs.Views.{TermsView};
ghost use Rattle.rule_model.specs.Proofs.{ProofItems};
ghost use Rattle.rule_model.specs.Scopes.{Anchor, Nesting, inside, own_bindings};
ghost use Rattle.term_pool.specs.Bindings.{IsBindingOf};
ghost use Rattle.problem_text.specs.Names.{Place};
ghost use Rattle.problem_text.specs.Scripts.{Script};
ghost use Rattle.term_reader.specs.ProblemViews.{IsReaderOf};
ghost use Rattle.alethe_text.specs.ProofTerms.{place_in};
ghost use Rattle.alethe_text.specs.States.{ProofSettings};
ghost use Rattle.alethe_reader.specs.Opening.{entered};

use pair_pool::Ref;
use sym_table::Memory;
use term_reader::TermReader;

/// Puts the variables of an anchor in scope, by their leaves, the first one outermost. Refuses only when out of memory.
pub(crate) fn enter_variables(
    reader: &mut TermReader<'_>,
    opened: &[(u32, Ref)],
) -> Result<(), Memory>
    ensures { (s : Table) (v : TermsView) (sc : Script) (p : Place) (bs : List (Var × Term)) → AllZip (IsBindingOf s v) opened.now bs →
        IsReaderOf s v reader.old sc p → OnOk result (IsReaderOf s v reader.new sc (record p { scope = entered (length bs) bs p.scope })) }
{
    let mut k = 0;
    'variables: while k < opened.len() {
        let (leaf, _) = opened[k];
        reader.push(leaf)?;
        k += 1;
    }
    Ok(())
}

/// Takes the variables of the innermost anchor, which are so many, out of scope.
pub(crate) fn leave_variables(reader: &mut TermReader<'_>, count: usize)
    requires { (s : Table) × (v : TermsView) × (sc : Script) × (settings : ProofSettings) × (nesting : Nesting Var Term) ×
        IsReaderOf s v reader.old sc (place_in settings nesting) × (count ≡ length (own_bindings nesting)) }
    ensures { (s : Table) (v : TermsView) (sc : Script) (settings : ProofSettings) (around : Nesting Var Term) (before : ProofItems Var Term)
        (anchor : Anchor Var Term) → count ≡ length anchor.bindings → IsReaderOf s v reader.old sc (place_in settings (inside around before anchor)) →
        IsReaderOf s v reader.new sc (place_in settings around) }
{
    let mut left = count;
    'variables: while left > 0 {
        reader.pop();
        left -= 1;
    }
}
