//! What unit consequence means, over any atoms.

ghost use Rattle.std.specs.Prelude.{List, ◌↔◌, ℕ};
ghost use Rattle.std.specs.List.{AllZip};
ghost use Rattle.rule_model.specs.Consequence.{Contradicts, Follows, Leads};
ghost use Rattle.rule_model.specs.Literals.{Entails, IsSameClause};
ghost use Rattle.rule_model.specs.Renaming.{AreAllImages, AreLiteralImages, IsName, KeepsAtomsApart};
ghost use Rattle.rule_model.specs.declared.literal.Literal.{Literal};

/// A clause that follows from clauses by unit propagation is true under all truth values of the atoms that make those
/// clauses true.
pub fn consequence_is_sound<A>()
    ensures { (premises : List (List (Literal A))) (goal : List (Literal A)) → Follows premises goal → Entails premises goal }
{}

/// Where a table names the atoms so that no two have one name and none has two, whatever is said of clauses is said of
/// the same clauses with the names for their atoms, and the other way round.
pub fn renaming_keeps_consequence<A, B>()
    ensures follows { (names : List (A × B)) (premises : List (List (Literal A))) (named : List (List (Literal B)))
        (goal : List (Literal A)) (named_goal : List (Literal B)) →
        KeepsAtomsApart (IsName names) → AreAllImages (IsName names) premises named → AreLiteralImages (IsName names) goal named_goal →
        Follows premises goal ↔ Follows named named_goal }
    ensures trails { (names : List (A × B)) (premises : List (List (Literal A))) (named : List (List (Literal B)))
        (goal : List (Literal A)) (named_goal : List (Literal B)) →
        KeepsAtomsApart (IsName names) → AreAllImages (IsName names) premises named → AreLiteralImages (IsName names) goal named_goal →
        (units : List (ℕ × ℕ)) (last : ℕ) → Leads premises goal units last ↔ Leads named named_goal units last }
    ensures contradictions { (names : List (A × B)) (goal : List (Literal A)) (named_goal : List (Literal B)) →
        KeepsAtomsApart (IsName names) → AreLiteralImages (IsName names) goal named_goal → Contradicts goal ↔ Contradicts named_goal }
{}

/// Clauses are sets of their literals: neither the order nor repeats play a part.
pub fn clauses_are_sets<A>()
    ensures { (premises others : List (List (Literal A))) (goal other : List (Literal A)) →
        AllZip IsSameClause premises others → IsSameClause goal other → Follows premises goal ↔ Follows others other }
{}
