//! What is remembered of terms: their forms.

ghost use Rattle.std.specs.Prelude.{◌≡◌, ◌≤◌, ℕ, List, None, Some, OnOk};
ghost use Rattle.equality_steps.specs.declared.site.Site.{Site};
ghost use Rattle.flip_steps.specs.Memory.{AreForms, IsCellWithinAny, IsRemembered, count_of};
ghost use Rattle.flip_steps.specs.Remembering.{IsSettled, Notes, alone, found_in};
ghost use Rattle.flip_steps.specs.Subterms.{HasDifferent};
ghost use Rattle.pair_pool.specs.Trees.{Tree};
ghost use Rattle.pair_pool.specs.Views.{HasPartsOfTrees, IsOneToOne};
ghost use Rattle.proof_store.specs.AddedSteps.{AddedStep};
ghost use Rattle.sym_table.specs.Table.{Table, IsTable};
ghost use Rattle.term_pool.specs.CellCounts.{CountsCells};
ghost use Rattle.term_model.specs.Terms.{Term};
ghost use Rattle.term_pool.specs.Views.{TermsView, KnowsAll, ReferToAll};

use pair_pool::{Memory, Ref};
use proof_store::Link;
use std::alloc::Global;
use std::collections::HashMap;
use term_pool::trees_of_terms;

/// The form of a term, and a link that says that the term is equal to it: none where it is the term.
#[derive(Clone, Copy)]
pub(crate) struct Formed {
    pub(crate) form: Ref,
    pub(crate) link: Option<Link>,
}

/// The forms of terms, each with a link that says that the term is equal to it. In a form each equality of two terms, outside lets,
/// has the side first that has the lower reference, so terms that are equal up to flips have one form.
///
/// One value serves one command of a proof, since its links name steps that are added for that command. It takes a look-up for each
/// argument of an application, and remembers each cell once.
#[derive(Drop)]
pub struct Forms {
    pub(crate) formed: HashMap<u32, Formed>,
}

/// A term that is its own form.
pub(crate) fn alone(r: Ref) -> Formed
    ensures { result ≡ alone r }
{
    Formed {
        form: r,
        link: None,
    }
}

impl Forms {
    /// Nothing is remembered.
    pub fn new(alloc: Global) -> Forms
        ensures forms { (p : Site) (v : TermsView) (steps : List AddedStep) → AreForms p v steps result }
        ensures none { count_of result ≡ 0 }
    {
        Forms {
            formed: HashMap::new(alloc),
        }
    }

    /// A law: where each cell whose form is remembered stands in one of some terms, outside lets, there are at most as many of them as
    /// distinct cells of these terms. The call changes nothing; its contract is the law.
    pub fn are_of_cells(&self)
        ensures { (s : Table) (v : TermsView) (roots : List ℕ) (trees : List Tree) (n : ℕ) → IsTable s → IsOneToOne v.pass → HasPartsOfTrees v.pass →
            ((r : ℕ) → IsRemembered self.now r → IsCellWithinAny s v roots r) → KnowsAll v.pass roots trees → CountsCells trees n → count_of self.now ≤ n }
    {
        trees_of_terms();
        let _count = self.formed.len();
    }

    /// A law: where each cell whose form is remembered stands in one of some terms, outside lets, as many different terms stand in these.
    /// The call changes nothing; its contract is the law.
    pub fn are_of_terms(&self)
        ensures { (s : Table) (v : TermsView) (roots : List ℕ) (ts : List Term) → IsTable s → IsOneToOne v.pass → ReferToAll s v roots ts →
            ((r : ℕ) → IsRemembered self.now r → IsCellWithinAny s v roots r) → HasDifferent ts (count_of self.now) }
    {
        let _count = self.formed.len();
    }

    /// What is known of a term.
    pub(crate) fn find(&self, r: Ref) -> Option<Formed>
        ensures { result ≡ found_in self.now r }
    {
        if r.is_leaf() {
            return Some(alone(r));
        }
        self.formed.get(&r.number()).copied()
    }

    /// The form of a term for which it is known.
    pub(crate) fn known(&self, r: Ref) -> Formed
        requires { IsSettled self.now r }
        ensures { found_in self.now r ≡ Some result }
    {
        self.find(r).unwrap()
    }

    /// Remembers the form of a term.
    pub(crate) fn note(&mut self, r: Ref, formed: Formed) -> Result<(), Memory>
        requires { found_in self.old r ≡ None }
        ensures { OnOk result (Notes self.old self.new r formed) }
    {
        let _ = self.formed.insert(r.number(), formed)?;
        Ok(())
    }
}
