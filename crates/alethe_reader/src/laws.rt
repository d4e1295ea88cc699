//! Laws of the ids in use: they are those of the proof that is written, over references. The functions do nothing: their
//! contracts are the laws.
ghost use Rattle.std.specs.Prelude.{◌≡◌, ◌<◌, ◌≤◌, ◌++◌, [], ◌∷◌, ℕ, List, Bool, false, take, length, find, bytes_eq, None};
ghost use Rattle.problem_text.specs.Words.{is_among};
ghost use Rattle.rule_model.specs.Proofs.{ProofItems, Step};
ghost use Rattle.rule_model.specs.RuleNames.{IsSymbolName};
ghost use Rattle.rule_model.specs.Scopes.{Anchor, Nesting, inside, Scope, at, next_index, next_scope};
ghost use Rattle.rule_model.specs.Visibility.{seen, open_ids, direct_assumes};
ghost use Rattle.rule_model.specs.WellFormed.{IsNewId};
ghost use Rattle.rule_model.specs.Writing.{add_assume, add_step, open_anchor, close_scope};
ghost use Rattle.alethe_reader.specs.declared.ids.Found.{Found};
ghost use Rattle.alethe_reader.specs.declared.ids.Role.TheVariants as role;
ghost use Rattle.alethe_reader.specs.Ids.{IsUnused, IsUsedAt};
ghost use Rattle.alethe_reader.specs.IdsInUse.{in_use, ids_around, ids_in, sight_at, hidden};

/// How the ids in use follow the proof: an assume, a step and an anchor put one in use behind the others, and where a scope
/// is closed those that were in use where its anchor stands are in use again, and behind them the step that closes it.
pub fn ids_follow_the_proof()
    ensures assume { (scope : Scope ℕ ℕ) (id : List ℕ) (t : ℕ) →
        ids_in (add_assume scope id t) ≡ ids_in scope ++ in_use id role.Assume (next_index scope) ∷ [] }
    ensures step { (scope : Scope ℕ ℕ) (s : Step ℕ) → ids_in (add_step scope s) ≡ ids_in scope ++ in_use s.id role.Step (next_index scope) ∷ [] }
    ensures anchor { (scope : Scope ℕ ℕ) (anchor : Anchor ℕ ℕ) →
        ids_in (open_anchor scope anchor) ≡ ids_in scope ++ in_use anchor.id role.Anchor (next_scope scope) ∷ [] }
    ensures closing { (around : Nesting ℕ ℕ) (before : ProofItems ℕ ℕ) (anchor : Anchor ℕ ℕ) (items : ProofItems ℕ ℕ) (s : Step ℕ) →
        ids_in (close_scope (inside around before anchor) items s)
        ≡ take (length (ids_in (at around before))) (ids_in (at (inside around before anchor) items)) ++ in_use s.id role.Step
        (next_index (at (inside around before anchor) items)) ∷ [] }
{}

/// An id in use is that of the visible command with this index, or of an open anchor; any other is new.
pub fn ids_in_use_are_seen()
    ensures used { (scope : Scope ℕ ℕ) (id : List ℕ) (f : Found) → IsUsedAt (ids_in scope) id f →
        find (λ c. bytes_eq c.id id) (seen scope.nesting scope.items) ≡ sight_at f.role f.number id }
    ensures unseen { (scope : Scope ℕ ℕ) (id : List ℕ) → IsUnused (ids_in scope) id → find (λ c. bytes_eq c.id id) (seen scope.nesting scope.items) ≡ None }
    ensures not_open { (scope : Scope ℕ ℕ) (id : List ℕ) → IsUnused (ids_in scope) id → is_among (open_ids scope.nesting) id ≡ false }
    ensures new { (scope : Scope ℕ ℕ) (id : List ℕ) → IsSymbolName id → IsUnused (ids_in scope) id → IsNewId scope.nesting scope.items id }
{}

/// What a step may discharge that closes the scope that is written: an id that was put in use in it, and is that of an assume.
pub fn assumes_are_discharged()
    ensures own { (scope : Scope ℕ ℕ) (id : List ℕ) (f : Found) → IsUsedAt (ids_in scope) id f → length (ids_around scope.nesting) ≤ f.place →
        find (λ c. bytes_eq c.id id) (direct_assumes scope.nesting scope.items) ≡ sight_at (hidden f.role) f.number id }
    ensures outer { (scope : Scope ℕ ℕ) (id : List ℕ) (f : Found) → IsUsedAt (ids_in scope) id f → f.place < length (ids_around scope.nesting) →
        find (λ c. bytes_eq c.id id) (direct_assumes scope.nesting scope.items) ≡ None }
    ensures unused { (scope : Scope ℕ ℕ) (id : List ℕ) → IsUnused (ids_in scope) id →
        find (λ c. bytes_eq c.id id) (direct_assumes scope.nesting scope.items) ≡ None }
{}
