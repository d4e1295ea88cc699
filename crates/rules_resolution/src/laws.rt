//! What unit consequence means, which premises are short, and what terms with signs stand for.
ghost use Rattle.std.specs.Prelude.{◌≡◌, ℕ, List, map};
ghost use Rattle.std.specs.Borrow.{Bor};
ghost use Rattle.std.specs.List.{AllZip};
ghost use Rattle.clause_chain.specs.declared.signed_term.SignedTerm.{SignedTerm};
ghost use Rattle.rule_model.specs.Consequence.{Follows};
ghost use Rattle.rule_model.specs.Literals.{Entails};
ghost use Rattle.rule_model.specs.Proofs.{ProofItems};
ghost use Rattle.rule_model.specs.Reading.{premise_clauses};
ghost use Rattle.rule_model.specs.Renaming.{KeepsAtomsApart};
ghost use Rattle.rule_model.specs.Resolution.{IsJoined};
ghost use Rattle.rule_model.specs.declared.literal.Literal.{Literal};
ghost use Rattle.sym_table.specs.Table.{Table};
ghost use Rattle.term_model.specs.Terms.{Term};
ghost use Rattle.term_pool.specs.Views.{RefersTo, TermsView};
ghost use Rattle.rules_resolution.specs.SignedTerms.{StandsForSigned};
ghost use Rattle.rules_resolution.specs.Steps.{AreShort, IsShort};

/// Law: a clause that follows from clauses by unit propagation is true under all truth values of the atoms
/// that make those clauses true.
pub fn consequence_is_sound()
    ensures { (premises : List (List (Literal ℕ))) (goal : List (Literal ℕ)) → Follows premises goal → Entails premises goal }
{}

/// Law: those of a command are, where no clause and no list of premises of its proof has 2^32 items.
pub fn premises_are_short()
    ensures { (proof : ProofItems ℕ ℕ) (i : ℕ) (premises : List (Bor (List ℕ))) → IsShort proof →
        map (λ p. p.now) premises ≡ premise_clauses proof i → AreShort premises }
{}

/// Law: terms with signs are equal exactly where the terms are for which they stand, and what is joined of them stands for
/// what is joined of the terms. So a `Chain` of `clause_chain` stands for a chain of resolutions of the terms.
pub fn joined_terms_are_joined()
    ensures apart { (s : Table) (v : TermsView) → KeepsAtomsApart (RefersTo s v) → KeepsAtomsApart (StandsForSigned s v) }
    ensures joined { (s : Table) (v : TermsView) → KeepsAtomsApart (RefersTo s v) →
        (left right : List SignedTerm) (here there : SignedTerm) (next : List SignedTerm) (l r : List Term) (h t : Term) →
        AllZip (StandsForSigned s v) left l → AllZip (StandsForSigned s v) right r → StandsForSigned s v here h → StandsForSigned s v there t →
        IsJoined left right here there next → (n : List Term) × AllZip (StandsForSigned s v) next n × IsJoined l r h t n }
{}
