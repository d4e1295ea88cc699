//! Laws of terms, places and names. The functions do nothing: their contracts are the laws.
ghost use Rattle.std.specs.Prelude.{◌≡◌, ℕ};
ghost use Rattle.std.specs.List.{AllByRecursion};
ghost use Rattle.sym_table.specs.Table.{Table};
ghost use Rattle.term_model.specs.Terms.{Term};
ghost use Rattle.term_pool.specs.Views.{TermsView, RefersTo};
ghost use Rattle.problem_text.specs.Names.{Place};
ghost use Rattle.printed_proofs.specs.Naming.{IsApart, IsPlaceApart};
ghost use Rattle.printed_proofs.specs.Shared.{Plan};
ghost use Rattle.term_sharing.specs.Naming.{HasNoLeaf, HasVariable};

/// A term of the pool is apart from names that no leaf of the table has: none stands in it, and no let in it binds one.
pub fn terms_are_apart()
    ensures { (s : Table) (v : TermsView) (plan : Plan) (r : ℕ) (t : Term) → HasNoLeaf s plan → RefersTo s v r t → IsApart plan t }
{}

/// A place is apart from names that no leaf of the table has, where each variable that is in scope there has a leaf.
pub fn places_are_apart()
    ensures { (s : Table) (plan : Plan) (p : Place) → HasNoLeaf s plan → AllByRecursion (λ b. HasVariable s b.variable) p.scope → IsPlaceApart plan p }
{}
