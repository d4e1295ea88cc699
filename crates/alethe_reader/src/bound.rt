//! The variables that the open anchors bind (Alethe, "Subproofs" and contexts).
ghost use Rattle.std.specs.Prelude.{◌≡◌, ◌∷◌, [], ◌++◌, map, length, false, OnOk};
ghost use Rattle.sym_table.specs.Table.{Table};
ghost use Rattle.term_model.specs.Terms.{Var, Term};
ghost use Rattle.term_pool.specs.Views.{TermsView};
ghost use Rattle.rule_model.specs.Proofs.{ProofItems};
ghost use Rattle.rule_model.specs.Scopes.{Anchor, Nesting, outermost, inside, own_bindings};
ghost use Rattle.problem_text.specs.Words.{is_among};
ghost use Rattle.alethe_reader.specs.Bound.{AreAnchorsBound};
ghost use Rattle.alethe_reader.specs.Ids.{IsUnused};
ghost use Rattle.term_expansion.specs.SymbolsAndTerms.{both};

use crate::ids::{Ids, Role};
use pair_pool::Ref;
use std::alloc::Global;
use sym_table::Memory;

/// The names of the variables that the open anchors bind, and their images: each variable by its leaf, with its term in which
/// the images of the outer anchors are put in. Those of the outermost anchor stand first.
///
/// While an anchor is read, the variables that were read of it stand behind all others, and `opened` has them with their terms.
#[derive(Drop)]
pub struct BoundVariables {
    pub alloc: Global,
    pub names: Ids,
    pub images: Vec<(u32, Ref)>,
    pub opened: Vec<(u32, Ref)>,
}

/// A variable of an anchor, by its leaf, with its term and its image.
#[derive(Clone, Copy)]
pub(crate) struct OpenedVariable {
    pub(crate) leaf: u32,
    pub(crate) term: Ref,
    pub(crate) image: Ref,
}

impl BoundVariables {
    /// Nothing is bound.
    pub fn new(alloc: Global) -> BoundVariables
        ensures { (s : Table) (v : TermsView) → AreAnchorsBound (both s v) result outermost }
    {
        BoundVariables {
            alloc,
            names: Ids::new(alloc),
            images: Vec::new(alloc),
            opened: Vec::new(alloc),
        }
    }

    /// Whether some variable of this name is bound. Costs one hash.
    pub(crate) fn has(&self, name: &[u8]) -> bool
        ensures { result ≡ is_among (map (λ u. u.id) self.now.names.used) name.now }
    {
        self.names.find(name).is_some()
    }

    /// Adds a variable of the anchor that is read, whose name is not bound. Refuses only when out of memory.
    pub(crate) fn push(&mut self, name: &[u8], variable: OpenedVariable) -> Result<(), Memory>
        requires { is_among (map (λ u. u.id) self.old.names.used) name.now ≡ false }
        ensures names { OnOk result (map (λ u. u.id) self.new.names.used ≡ map (λ u. u.id) self.old.names.used ++ name.now ∷ []) }
        ensures images { OnOk result (self.new.images.items ≡ self.old.images.items ++ (variable.leaf, variable.image) ∷ []) }
        ensures opened { OnOk result (self.new.opened.items ≡ self.old.opened.items ++ (variable.leaf, variable.term) ∷ []) }
    {
        let looked = self.names.look(name);
        self.names.push(name, looked.name, Role::Anchor, 0)?;
        self.images.push((variable.leaf, variable.image))?;
        self.opened.push((variable.leaf, variable.term))?;
        Ok(())
    }

    /// Leaves the scope of the innermost anchor, which binds so many variables.
    pub(crate) fn leave(&mut self, count: usize)
        requires { (s : Table) × (v : TermsView) × (nesting : Nesting Var Term) × AreAnchorsBound (both s v) self.old nesting ×
            (count ≡ length (own_bindings nesting)) }
        ensures { (s : Table) (v : TermsView) (around : Nesting Var Term) (before : ProofItems Var Term) (anchor : Anchor Var Term) →
            count ≡ length anchor.bindings → AreAnchorsBound (both s v) self.old (inside around before anchor) → AreAnchorsBound (both s v) self.new around }
    {
        let left = self.images.len() - count;
        self.images.truncate(left);
        self.names.leave(left);
    }
}
