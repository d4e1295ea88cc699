//! The scopes of a proof, by number.

ghost use Rattle.std.specs.Prelude.{◌≡◌, ◌<◌, ◌-◌, ◌^◌, ◌++◌, [], ◌∷◌, length, slice_get, Some, None, Option, OnOk, OnErr};
ghost use Rattle.std.specs.Option.{option_map};
ghost use Rattle.proof_store.specs.StoredScopes.{AreLong, AgreeTo, HaveAt, first_scope, scope_with, row_last, with_last};

use crate::lists::Lists;
use pair_pool::{Memory, Ref};
use std::alloc::Global;
use std::marker::Model;

/// What is kept of a scope that an anchor opened, beside its lists: 12 bytes.
#[derive(Clone, Copy)]
struct ScopeRow {
    /// The scope around it.
    parent: u32,
    /// The last command that stands directly in it.
    last: Option<u32>,
}

/// The scopes of a proof, by number: the outermost one, and one for each anchor. A scope of an anchor takes 28 bytes
/// beside its id and its bindings.
#[derive(Drop)]
pub(crate) struct Scopes {
    outermost_last: Option<u32>,
    rows: Vec<ScopeRow>,
    lists: ScopeLists,
}

/// The ids of the anchors and what they bind, each in the order of the anchors.
#[derive(Drop)]
struct ScopeLists {
    ids: Lists<u8>,
    bindings: Lists<(u32, Ref)>,
}

impl Model for Scopes {
    ghost use Rattle.std.specs.Prelude.{List};
    ghost use Rattle.proof_store.specs.StoredScopes.{StoredScope, scopes_of, HaveLists};

    ghost Value = { List StoredScope };

    ghost view = { λ a. scopes_of a.outermost_last a.lists a.rows.items };

    ghost invariant = { λ a. HaveLists a.rows.items a.lists };
}

/// Notes the last command directly in the scope of a row.
#[tactic(auto, using(crate::proofs::ScopeLemmas::set_row))]
fn note(rows: &mut Vec<ScopeRow>, k: usize, last: u32)
    requires { k < length rows.old.items }
    ensures { rows.new.items ≡ row_last k last rows.old.items }
{
    rows[k].last = Some(last);
}

/// Puts the lists of a scope at place `n`.
fn put(lists: &mut ScopeLists, n: usize, id: &[u8], bindings: &[(u32, Ref)]) -> Result<(), Memory>
    requires { AreLong n lists.old }
    ensures put { OnOk result (HaveAt n lists.new id.now bindings.now) }
    ensures agree { AgreeTo n lists.old lists.new }
    ensures long { AreLong n lists.new }
{
    lists.ids.put(n, id)?;
    lists.bindings.put(n, bindings)
}

/// The row at place `k`.
fn row_at(rows: &[ScopeRow], k: usize) -> ScopeRow
    requires { k < length rows.now }
    ensures { slice_get rows.now k ≡ Some result }
{
    rows[k]
}

impl Scopes {
    /// The outermost scope alone.
    pub(crate) fn new(alloc: Global) -> Scopes
        ensures { result ≡ first_scope None ∷ [] }
    {
        Scopes {
            outermost_last: None,
            rows: Vec::new(alloc),
            lists: ScopeLists {
                ids: Lists::new(alloc),
                bindings: Lists::new(alloc),
            },
        }
    }

    /// How many scopes there are.
    #[tactic(auto, using(crate::proofs::ScopeLemmas::inner_count))]
    pub(crate) fn len(&self) -> u32
        ensures { result ≡ length self.now }
    {
        self.rows.len() as u32 + 1
    }

    /// Adds the scope of an anchor, inside another.
    #[tactic(auto, using(crate::proofs::ScopeLemmas::scope_pushed))]
    pub(crate) fn push(
        &mut self,
        parent: u32,
        id: &[u8],
        bindings: &[(u32, Ref)],
    ) -> Result<(), Memory>
        requires { length self.old < 2 ^ 32 - 1 }
        ensures pushed { OnOk result (self.new ≡ self.old ++ scope_with parent id.now bindings.now None ∷ []) }
        ensures refused { OnErr result (self.new ≡ self.old) }
    {
        let n = self.rows.len();
        self.rows.reserve(1)?;
        put(&mut self.lists, n, id, bindings)?;
        self.rows.push(ScopeRow { parent, last: None }).unwrap();
        Ok(())
    }

    /// Notes the last command directly in scope `k`.
    #[tactic(auto, using(crate::proofs::ScopeLemmas::inner_count, crate::proofs::ScopeLemmas::scopes_note, crate::proofs::ScopeLemmas::have_lists_note))]
    pub(crate) fn set_last(&mut self, k: u32, last: u32)
        requires { k < length self.old }
        ensures { self.new ≡ with_last k last self.old }
    {
        if k == 0 {
            self.outermost_last = Some(last);
        } else {
            note(&mut self.rows, k as usize - 1, last);
        }
    }

    /// The scope around scope `k`, which the outermost one has not.
    #[tactic(auto, using(crate::proofs::ScopeLemmas::inner_count, crate::proofs::ScopeLemmas::row_parent))]
    pub(crate) fn parent(&self, k: u32) -> Option<u32>
        requires { k < length self.now }
        ensures { option_map (λ s. s.entry.parent) (slice_get self.now k) ≡ Some result }
    {
        let rows = &self.rows;
        if k == 0 {
            return None;
        }
        Some(row_at(rows, k as usize - 1).parent)
    }

    /// The last command directly in scope `k`, where there is one.
    #[tactic(auto, using(crate::proofs::ScopeLemmas::inner_count, crate::proofs::ScopeLemmas::row_last_is))]
    pub(crate) fn last(&self, k: u32) -> Option<u32>
        requires { k < length self.now }
        ensures { option_map (λ s. s.entry.last) (slice_get self.now k) ≡ Some result }
    {
        if k == 0 {
            return self.outermost_last;
        }
        row_at(&self.rows, k as usize - 1).last
    }

    /// What the anchor of scope `k` binds.
    #[tactic(auto, using(crate::proofs::ScopeLemmas::inner_count, crate::proofs::ScopeLemmas::kept_bindings))]
    pub(crate) fn bindings(&self, k: u32) -> &[(u32, Ref)]
        requires { k < length self.now }
        ensures { option_map (λ s. s.entry.bindings) (slice_get self.now k) ≡ Some result.now }
    {
        let lists = &self.lists;
        if k == 0 {
            return &[];
        }
        lists.bindings.get(k as usize - 1)
    }

    /// The id of the anchor of scope `k`, and nothing for the outermost one.
    #[tactic(auto, using(crate::proofs::ScopeLemmas::inner_count, crate::proofs::ScopeLemmas::kept_anchor))]
    pub(crate) fn id(&self, k: u32) -> &[u8]
        requires { k < length self.now }
        ensures { option_map (λ s. s.id) (slice_get self.now k) ≡ Some result.now }
    {
        let lists = &self.lists;
        if k == 0 {
            return &[];
        }
        lists.ids.get(k as usize - 1)
    }
}
