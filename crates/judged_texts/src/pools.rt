//! Pools that are large enough for the terms of the two texts.
ghost use Rattle.std.specs.Prelude.{◌≡◌, ◌<◌, ◌≤◌, ◌^◌, OnOk};
ghost use Rattle.pair_pool.specs.Views.{IsForMany, IsOneToOne, IsPassOf, HasListsInOrder};
ghost use Rattle.sym_table.specs.Table.{IsTable};
ghost use Rattle.judged_texts.specs.Pools.{IsPoolSize};

use crate::judgement::Judgement;
use pair_pool::{Memory, Pass, Pool};
use std::alloc::Global;
use sym_table::Symbols;
use term_pool::Terms;

/// The least number of bits of a pool.
pub const LEAST_BITS: u32 = 12;

/// The greatest number of bits of a pool.
pub const MOST_BITS: u32 = 26;

/// The number of bits of the first pool, for texts of so many bytes: the least that gives a place for each four bytes,
/// and no more than may be.
pub fn pool_bits(bytes: usize, most_bits: u32) -> u32
    requires bytes { bytes ≤ 2 ^ 30 }
    requires least { LEAST_BITS ≤ most_bits }
    requires most { most_bits ≤ MOST_BITS }
    ensures { IsPoolSize bytes most_bits result }
{
    let mut bits = LEAST_BITS;
    while bits < most_bits && 4 * (1usize << bits) < bytes {
        bits += 1;
    }
    bits
}

/// Texts whose terms had no room in their pool.
pub fn pool_full(symbols: &Symbols, terms: &Terms<'_>) -> Judgement
    ensures full { result ≡ Judgement.PoolFull }
    ensures table { IsTable symbols.now }
    ensures one_reference { IsOneToOne terms.now.pass }
    ensures in_order { HasListsInOrder terms.now.pass }
{
    symbols.leaves_differ();
    terms.one_to_one();
    terms.terms_at();
    Judgement::PoolFull
}

/// Lets so many workers share a pool, where there is more than one.
pub(crate) fn share_among(
    alloc: Global,
    workers: u32,
    pool: &mut Pool,
    pass: &mut Pass,
) -> Result<(), Memory>
    requires { IsPassOf pool.old pass.old }
    ensures of_pool { OnOk result (IsPassOf pool.new pass.new) }
    ensures view { OnOk result (pass.new.view ≡ pass.old.view) }
    ensures for_many { OnOk result (1 < workers → IsForMany pool.new) }
    ensures alone { workers ≤ 1 → pool.new ≡ pool.old }
{
    if workers > 1 {
        pool.share(alloc, pass)?;
    }
    Ok(())
}
