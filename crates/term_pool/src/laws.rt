//! Laws of trees and terms.

ghost use Rattle.std.specs.Prelude.{◌≡◌, ℕ, ◌<◌, List, slice_get, Some};
ghost use Rattle.pair_pool.specs.Trees.{Tree};
ghost use Rattle.sym_table.specs.Table.{Table, IsTable, Keeps};
ghost use Rattle.term_model.specs.Terms.{Var, Term, Bindings, let_in};
ghost use Rattle.term_model.specs.Heights.{height};
ghost use Rattle.term_pool.specs.Building.{IsAppliedLeaf};
ghost use Rattle.term_pool.specs.Halves.{AreHalves, IsJoined};
ghost use Rattle.term_pool.specs.Reading.{arguments_of, bindings_of};
ghost use Rattle.term_pool.specs.StandsFor.{StandsFor, StandForAll, StandForValues};
ghost use Rattle.term_pool.specs.Trees.{app_tree, let_term_tree};
ghost use Rattle.term_pool.specs.Views.{TermsView, RefersTo, KeepsTerms};

/// A law: by one table of symbols a term has one tree, a tree stands for one term, and what a tree stands for it goes
/// on standing for as the table grows. The call does nothing; its contract is the law.
pub fn trees_of_terms()
    ensures one_tree { (s : Table) (a b : Tree) (t : Term) → IsTable s → StandsFor s a t → StandsFor s b t → a ≡ b }
    ensures one_term { (s : Table) (a : Tree) (t u : Term) → IsTable s → StandsFor s a t → StandsFor s a u → t ≡ u }
    ensures stays { (s z : Table) (a : Tree) (t : Term) → Keeps s z → StandsFor s a t → StandsFor z a t }
{}

/// A law: what a reference stands for it goes on standing for, as the table of symbols grows and as a pass comes to
/// know more. The call does nothing; its contract is the law.
pub fn references_stay()
    ensures { (s z : Table) (v w : TermsView) (r : ℕ) (t : Term) → Keeps s z → KeepsTerms v w → RefersTo s v r t → RefersTo z w r t }
{}

/// A law: the tree of a leaf and of arguments stands for the application of its symbol to what they stand for, and the
/// tree of variables, values and a body for the let of these. The call does nothing; its contract is the law.
pub fn trees_are_built_of_parts()
    ensures application { (s : Table) (head : ℕ) (trees : List Tree) (ts : List Term) (t : Term) → StandForAll s trees ts → IsAppliedLeaf s head ts t →
        StandsFor s (app_tree head trees) t }
    ensures let_term { (s : Table) (vars : List ℕ) (trees : List Tree) (body : Tree) (bs : Bindings) (u : Term) → StandForValues s vars trees bs →
        StandsFor s body u → StandsFor s (let_term_tree vars trees body) (let_in bs u) }
{}

/// A law: an argument of an application is less high than it, and so are a let's values and its body. The call does
/// nothing; its contract is the law.
pub fn parts_are_less_high()
    ensures argument { (t a : Term) (i : ℕ) → slice_get (arguments_of t) i ≡ Some a → height a < height t }
    ensures value { (t u : Term) (x : Var) (i : ℕ) → slice_get (bindings_of t) i ≡ Some (x, u) → height u < height t }
    ensures body { (bs : Bindings) (u : Term) → height u < height (let_in bs u) }
{}

/// A law: where a value is split, both halves work, and one takes the other in again, what it knew and had seen stays, and it
/// has its shares again. The call does nothing; its contract is the law.
pub fn halves_are_joined()
    ensures { (old left right one other new : TermsView) → AreHalves old left right → IsJoined one other new → KeepsTerms left one →
        KeepsTerms right other → KeepsTerms old new }
{}
