//! A name for each atom: the number of the first literal that has it.
ghost use Rattle.std.specs.Prelude.{◌≡◌, ◌+◌, ◌<◌, ◌≤◌, ◌++◌, length, IfOk, OnOk};
ghost use Rattle.std.specs.List.Sorted.{IsNonDecreasingBy};
ghost use Rattle.clause_chain.specs.Chaining.{clauses_of};
ghost use Rattle.rules_resolution.specs.Naming.{AreKeys, HasNames, IsRun, key_at, key_rank, keys_from};
ghost use Rattle.rules_resolution.specs.Renaming.{AreNames, all_literals};

use crate::literal::Lit;
use pair_pool::Memory;
use std::alloc::Global;

/// An atom, and the number of a literal that has it. The literals of the premises and then those of the
/// conclusion are numbered from 0.
#[derive(Clone, Copy)]
pub(crate) struct Key {
    atom: u32,
    number: u32,
}

impl Key {
    /// The order of keys: by atom, then by number.
    fn rank(self) -> u64
        ensures { result ≡ key_rank self }
    {
        self.atom as u64 * 4294967296 + self.number as u64
    }
}

/// Adds the key of a literal, if it is no constant.
fn add_key(keys: &mut Vec<Key>, number: u32, literal: Lit) -> Result<(), Memory>
    ensures { OnOk result (keys.new.items ≡ keys.old.items ++ key_at number literal) }
{
    if let Lit::Plain { atom, .. } = literal {
        keys.push(Key { atom, number })?;
    }
    Ok(())
}

/// Adds the keys of a clause's literals, the first of which has the number `from`.
fn add_keys(keys: &mut Vec<Key>, from: u32, clause: &[Lit]) -> Result<(), Memory>
    requires few { from + length clause.now < 4294967296 }
    ensures { OnOk result (keys.new.items ≡ keys.old.items ++ keys_from from clause.now) }
{
    for (place, literal) in clause.iter().enumerate() {
        add_key(keys, from + place as u32, *literal)?;
    }
    Ok(())
}

/// The keys of all literals, in the order of their numbers.
fn keys_of(alloc: Global, premises: &[Vec<Lit>], goal: &[Lit]) -> Result<Vec<Key>, Memory>
    requires few { length (all_literals (clauses_of premises.now) goal.now) < 4294967296 }
    ensures { IfOk result (λ keys. keys.items ≡ keys_from 0 (all_literals (clauses_of premises.now) goal.now)) }
{
    let mut keys = Vec::new(alloc);
    let mut from = 0;
    for clause in premises {
        add_keys(&mut keys, from, clause.as_slice())?;
        from += clause.len() as u32;
    }
    add_keys(&mut keys, from, goal)?;
    Ok(keys)
}

/// Where the run of equal atoms begins that the key at `at` is in, where the key before it is in the run that begins at
/// `first`.
#[tactic(auto, using(crate::proofs::Keys::run_kept, crate::proofs::Keys::run_new))]
fn run_start(keys: &[Key], first: usize, at: usize) -> usize
    requires at { at < length keys.now }
    requires first { first ≤ at }
    requires rising { IsNonDecreasingBy (λ key. key.atom) keys.now }
    requires run { IsRun keys.now first at }
    ensures within { result ≤ at }
    ensures run { IsRun keys.now result (at + 1) }
{
    if keys[at].atom == keys[first].atom {
        first
    } else {
        at
    }
}

/// For each literal a name: the number of the first literal with its atom. Names of the constants are not used.
fn names_by(alloc: Global, keys: &[Key], count: usize) -> Result<Vec<u32>, Memory>
    requires rising { IsNonDecreasingBy (λ key. key.atom) keys.now }
    requires keys { AreKeys count keys.now }
    ensures size { IfOk result (λ names. length names.items ≡ count) }
    ensures names { IfOk result (λ names. HasNames keys.now names.items) }
{
    let mut names = vec![in alloc; 0u32; count]?;
    let mut first = 0;
    for (at, key) in keys.iter().enumerate() {
        first = run_start(keys, first, at);
        names[key.number as usize] = keys[first].number;
    }
    Ok(names)
}

/// A name for each literal's atom, where there are `count` literals.
pub(crate) fn names_of(
    alloc: Global,
    premises: &[Vec<Lit>],
    goal: &[Lit],
    count: usize,
) -> Result<Vec<u32>, Memory>
    requires count { count ≡ length (all_literals (clauses_of premises.now) goal.now) }
    requires few { count < 4294967296 }
    ensures { IfOk result (λ names. AreNames (all_literals (clauses_of premises.now) goal.now) names.items) }
{
    let mut keys = keys_of(alloc, premises, goal)?;
    keys.sort_unstable_by_key(|k| k.rank());
    names_by(alloc, &keys, count)
}
