//! How a chain of resolutions goes on, and how it takes back unit propagation.

ghost use Rattle.std.specs.Prelude.{◌≢◌, ◌⊎◌, ◌++◌, ◌∷◌, [], Bool, List, not, Contains};
ghost use Rattle.rule_model.specs.Chaining.{AreFalse, IsSpelled, Lacks, LeavesOnly, SpellsBut};
ghost use Rattle.rule_model.specs.Literals.{negation_of};
ghost use Rattle.rule_model.specs.Resolution.{as_literal, with_sign, IsResolvent, Chains};
ghost use Rattle.rule_model.specs.declared.literal.Literal.{Literal};
ghost use Rattle.term_model.specs.Terms.{Term};

/// A chain and one resolution more is a chain.
pub fn chains_go_on()
    ensures { (left : List Term) (premises : List (List Term)) (pivots : List (Term × Bool)) (middle right : List Term) (p : Term) (b : Bool)
        (result : List Term) → Chains left premises pivots middle → IsResolvent middle right p b result →
        Chains left (premises ++ right ∷ []) (pivots ++ (p, b) ∷ []) result }
{}

/// A literal of a resolvent was on the left or on the right, and is not the pivot with its sign there.
pub fn resolvents_have_other_literals()
    ensures { (left right : List Term) (p : Term) (b : Bool) (result : List Term) (u : Term) → IsResolvent left right p b result →
        Contains result u → (Contains left u × (u ≢ with_sign p b)) ⊎ (Contains right u × (u ≢ with_sign p (not b))) }
{}

/// Unit propagation made a literal true by a premise. A clause whose literals are false afterwards gives, resolved with the
/// premise, one whose literals were false before; and where it lacks the opposite literal, they were so already. Each of both
/// clauses has one spelling of the pivot alone.
pub fn chains_take_propagation_back()
    ensures resolved { (falses : List (Literal Term)) (l : Literal Term) (left right : List Term) (p : Term) (b : Bool) (result : List Term) →
        AreFalse (falses ++ negation_of l ∷ []) left → LeavesOnly falses l right →
        IsSpelled (negation_of l) (with_sign p b) left → IsSpelled l (with_sign p (not b)) right →
        IsResolvent left right p b result → AreFalse falses result }
    ensures passed_over { (falses : List (Literal Term)) (l : Literal Term) (clause : List Term) →
        AreFalse (falses ++ negation_of l ∷ []) clause → Lacks (negation_of l) clause → AreFalse falses clause }
{}

/// Where the other literals of a premise stand for what the pivot on the left stands for, the literals stay false. So pairs of
/// `not` come and go by not_not, and constants go by `true` and `false`.
pub fn spellings_may_change()
    ensures { (falses : List (Literal Term)) (left right : List Term) (p : Term) (b : Bool) (result : List Term) →
        AreFalse falses left → SpellsBut (as_literal (with_sign p b)) (with_sign p (not b)) right →
        IsResolvent left right p b result → AreFalse falses result }
{}
