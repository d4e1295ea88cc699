//! The stack of the values that were read and not yet used.
ghost use Rattle.std.specs.Prelude.{◌≡◌, ◌<◌, ◌≤◌, [], ◌∷◌, ◌++◌, length, map, take, drop, slice_get, Some, OnOk, OnErr, is_ok, if◌then◌else◌};
ghost use Rattle.std.specs.List.{list_all};
ghost use Rattle.term_names.specs.Stacks as spec;
ghost use Rattle.term_names.specs.Stacks.{greatest_height};

use pair_pool::Ref;
use std::alloc::Global;
use std::marker::Model;
use sym_table::Memory;
use term_expansion::values::Value;
use term_model::Sort;

/// A stack of values. Contracts see the list of them, the bottom one first. Their parts stand in lists of their own, so
/// that the references and the sorts of the top ones can be handed on as slices.
///
/// The lists keep their lengths when values are taken away: the values are the first `len` of each. So most pushes are
/// four stores.
#[derive(Drop)]
pub struct Values {
    terms: Vec<Ref>,
    sorts: Vec<Sort>,
    heights: Vec<u64>,
    plain: Vec<bool>,
    len: usize,
}

impl Model for Values {
    ghost use Rattle.std.specs.Prelude.{List};
    ghost use Rattle.term_expansion.specs.declared.values.Value as value;

    ghost Value = { List value.Value };

    ghost use Rattle.term_names.specs.StackParts.{values_in, AreParts, HaveRoom};

    ghost view = { λ s. values_in s.len s.terms.items s.sorts.items s.heights.items s.plain.items };

    ghost invariant = { λ s. AreParts s.len s.terms.items s.sorts.items s.heights.items s.plain.items
        (values_in s.len s.terms.items s.sorts.items s.heights.items s.plain.items) ×
        HaveRoom s.len s.terms.items s.sorts.items s.heights.items s.plain.items };
}

impl Values {
    pub fn new(alloc: Global) -> Values
        ensures { result ≡ [] }
    {
        Values {
            terms: Vec::new(alloc),
            sorts: Vec::new(alloc),
            heights: Vec::new(alloc),
            plain: Vec::new(alloc),
            len: 0,
        }
    }

    /// How many values there are.
    pub fn len(&self) -> usize
        ensures { result ≡ length self.now }
    {
        self.len
    }

    /// Puts a value on top. After a refusal the stack is as before.
    #[inline(always)]
    pub fn push(&mut self, value: Value) -> Result<(), Memory>
        ensures pushed { OnOk result (self.new ≡ self.old ++ value ∷ []) }
        ensures refused { OnErr result (self.new ≡ self.old) }
    {
        let at = self.len;
        if at == self.terms.len() {
            one_more(
                &mut self.terms,
                &mut self.sorts,
                &mut self.heights,
                &mut self.plain,
                value,
            )?;
            self.len = at + 1;
            return Ok(());
        }
        self.terms[at] = value.term;
        self.sorts[at] = value.sort;
        self.heights[at] = value.height;
        self.plain[at] = value.plain;
        self.len = at + 1;
        Ok(())
    }

    /// Takes away all but the lowest `n` values.
    pub fn truncate(&mut self, n: usize)
        ensures { self.new ≡ take n self.old }
    {
        if n < self.len {
            self.len = n;
        }
    }

    /// The value at place `i`, from 0 at the bottom.
    pub fn get(&self, i: usize) -> Value
        requires { i < length self.now }
        ensures { slice_get self.now i ≡ Some result }
    {
        Value {
            term: self.terms[i],
            sort: self.sorts[i],
            height: self.heights[i],
            plain: self.plain[i],
        }
    }

    /// The terms of the values from place `n` on.
    pub fn terms_from(&self, n: usize) -> &[Ref]
        requires { n ≤ length self.now }
        ensures { result.now ≡ map (λ v. v.term) (drop n self.now) }
    {
        &self.terms[n..self.len]
    }

    /// The sorts of the values from place `n` on.
    pub fn sorts_from(&self, n: usize) -> &[Sort]
        requires { n ≤ length self.now }
        ensures { result.now ≡ map (λ v. v.sort) (drop n self.now) }
    {
        &self.sorts[n..self.len]
    }

    /// The greatest height of the values from place `n` on, or 0 where there are none.
    pub fn highest_from(&self, n: usize) -> u64
        requires { n ≤ length self.now }
        ensures { result ≡ greatest_height (drop n self.now) }
    {
        greatest(&self.heights[n..self.len])
    }

    /// Whether all values from place `n` on are plain.
    pub fn all_plain_from(&self, n: usize) -> bool
        requires { n ≤ length self.now }
        ensures { result ≡ list_all (λ v. v.plain) (drop n self.now) }
    {
        all_true(&self.plain[n..self.len])
    }
}

/// Makes each list of parts one longer, with the part of a value. After a refusal all are as before.
fn one_more(
    terms: &mut Vec<Ref>,
    sorts: &mut Vec<Sort>,
    heights: &mut Vec<u64>,
    plain: &mut Vec<bool>,
    value: Value,
) -> Result<(), Memory>
    ensures terms { terms.new.items ≡ (if is_ok result then terms.old.items ++ value.term ∷ [] else terms.old.items) }
    ensures sorts { sorts.new.items ≡ (if is_ok result then sorts.old.items ++ value.sort ∷ [] else sorts.old.items) }
    ensures heights { heights.new.items ≡ (if is_ok result then heights.old.items ++ value.height ∷ [] else heights.old.items) }
    ensures plain { plain.new.items ≡ (if is_ok result then plain.old.items ++ value.plain ∷ [] else plain.old.items) }
{
    terms.reserve(1)?;
    sorts.reserve(1)?;
    heights.reserve(1)?;
    plain.reserve(1)?;
    terms.push(value.term).unwrap();
    sorts.push(value.sort).unwrap();
    heights.push(value.height).unwrap();
    plain.push(value.plain).unwrap();
    Ok(())
}

/// The greatest of some numbers, or 0 where there are none.
fn greatest(numbers: &[u64]) -> u64
    ensures { result ≡ spec.greatest numbers.now }
{
    numbers.iter().copied().max().unwrap_or(0)
}

fn all_true(tests: &[bool]) -> bool
    ensures { result ≡ list_all (λ b. b) tests.now }
{
    tests.iter().all(|test| *test)
}
