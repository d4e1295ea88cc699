//! Steps that state one equality.

ghost use Rattle.std.specs.Prelude.{◌≡◌, ◌≢◌, ℕ, [], ◌∷◌, List, All, IfNone, IfSome};
ghost use Rattle.term_model.specs.Flips.{equality};
ghost use Rattle.term_model.specs.Terms.{Term};
ghost use Rattle.term_pool.specs.Views.{IsTerm, ReferToAll};
ghost use Rattle.schema_match.specs.Equations.{StatesEquality};
ghost use Rattle.term_parts.specs.Judging.{ReferToClauses};

use pair_pool::Ref;
use sym_table::Symbols;
use term_parts::sides_of;
use term_pool::Terms;

/// The literal of a clause that has one.
fn only_literal(clause: &[Ref]) -> Option<Ref>
    ensures only { IfSome result (λ r. clause.now ≡ r ∷ []) }
    ensures other { IfNone result ((r : ℕ) → clause.now ≢ r ∷ []) }
{
    let [literal] = clause else {
        return None;
    };
    Some(*literal)
}

/// The two sides of the equality that a step states, which has no premise and one literal.
pub fn equation(
    symbols: &Symbols,
    terms: &mut Terms<'_>,
    premises: &[&[Ref]],
    clause: &[Ref],
) -> Option<(Ref, Ref)>
    requires { All (IsTerm symbols.now terms.old) clause.now }
    ensures equation { IfSome result (λ p. (ps : List (List Term)) (ts : List Term) → ReferToClauses symbols.now terms.old premises.now ps →
        ReferToAll symbols.now terms.old clause.now ts → StatesEquality symbols.now terms.old p ps ts) }
    ensures other { IfNone result ((ps : List (List Term)) (ts : List Term) (u w : Term) → ReferToClauses symbols.now terms.old premises.now ps →
        ReferToAll symbols.now terms.old clause.now ts → ps ≡ [] → ts ≢ equality u w ∷ []) }
    ensures same { terms.new ≡ terms.old }
{
    if !premises.is_empty() {
        return None;
    }
    let Some(literal) = only_literal(clause) else {
        return None;
    };
    sides_of(symbols, terms, literal)
}
