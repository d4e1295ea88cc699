//! What no contract says: that a call finds its memory, and at which places cells stand.
//!
//! A test that owns a pool and a pass gives them up on each way out, which is dear to prove: so it lends them to a function
//! that looks at them.
ghost use Rattle.std.specs.Prelude.{◌≡◌, ◌+◌, ◌-◌, ◌<◌, ◌≤◌};
ghost use Rattle.pair_pool.specs.Views.{IsForMany, IsPassOf};

use super::*;
use std::process::Abort;
use std::test::Fail;
use std::thread::{Threads, join};

/// What could not be stored when out of memory is let go.
fn push_one(list: &mut Vec<u32>) -> Result<(), Memory> {
    list.push(1)?;
    Ok(())
}

/// A pool of 12 bits holds 4,096 pairs and no more, and finds each of them again.
#[test]
fn fills_and_refuses(rt: HostRuntime) -> Result<(), Fail> {
    let (pool, mut pass) = Pool::new(rt.alloc(), 12)?;
    let mut taken = vec![in rt.alloc(); false; 4096]?;
    let filled = fill(&rt, &pool, &mut pass, &mut taken);
    drop(taken);
    drop(pass);
    Ok(filled?)
}

fn fill(rt: &impl Abort, pool: &Pool, pass: &mut Pass, taken: &mut [bool]) -> Result<(), PoolFull>
    requires { IsPassOf pool.now pass.old }
{
    'pairs: for k in 0..4096u32 {
        let r = pool.intern(pass, Ref::leaf(k / 64), Ref::leaf(k % 64))?;
        let place = (r.number() - (1 << 30)) as usize;
        assert!(rt; place < taken.len(), "at {k}");
        assert!(rt; !taken[place], "at {k}");
        taken[place] = true;
    }
    assert_eq!(rt;
        pool.intern(pass, Ref::leaf(64), Ref::leaf(0)),
        Err(PoolFull)
    );
    let first = pool.intern(pass, Ref::leaf(0), Ref::leaf(0))?;
    assert_eq!(rt; first.number(), 1 << 30);
    assert_eq!(rt; pool.bits(), 12);
    Ok(())
}

/// Cells of cells, at the places where the probe starts: 2654435761 is 2481 and 40503 is 3639, modulo 4096.
#[test]
fn places_and_parts(rt: HostRuntime) -> Result<(), Fail> {
    push_one(&mut Vec::new(rt.alloc()))?;
    let (pool, mut pass) = Pool::new(rt.alloc(), 12)?;
    let found = place_cells(&rt, &pool, &mut pass);
    pass.one_to_one();
    pass.parts_of_trees();
    pass.lists_in_order();
    one_address_one_term();
    all_shares_all_cells();
    drop(pass);
    Ok(found?)
}

fn place_cells(rt: &impl Abort, pool: &Pool, pass: &mut Pass) -> Result<(), PoolFull>
    requires { IsPassOf pool.now pass.old }
    ensures { IsPassOf pool.now pass.new }
{
    let (zero, one) = (Ref::leaf(0), Ref::leaf(1));
    let first = pool.intern(pass, one, zero)?;
    let second = pool.intern(pass, zero, one)?;
    let numbers = (first.number(), second.number());
    assert_eq!(rt; numbers, ((1 << 30) + 2481, (1 << 30) + 3639));
    let pair = pool.intern(pass, first, second)?;
    let parts = (pool.parts(pass, pair), pool.parts(pass, first));
    assert_eq!(rt; parts, ((first, second), (one, zero)));
    let again = pool.intern(pass, first, second)?;
    assert!(rt; again == pair && !pair.is_leaf());
    Ok(())
}

#[test]
fn leaves_are_in_order(rt: HostRuntime) {
    let (zero, one) = (Ref::leaf(0), Ref::leaf(1));
    assert!(rt; zero.is_leaf() && zero < one && one.number() == 1);
}

/// What stands in a pool has the same references once passes share it, and has the places of its parts.
#[test]
fn shares_what_stands(rt: HostRuntime) -> Result<(), Fail> {
    let (mut pool, mut pass) = Pool::new(rt.alloc(), 12)?;
    let found = place_cells(&rt, &pool, &mut pass);
    let shared = pool.share(rt.alloc(), &mut pass);
    let again = place_cells(&rt, &pool, &mut pass);
    let shared_again = pool.share(rt.alloc(), &mut pass);
    drop(pass);
    shared?;
    shared_again?;
    found?;
    Ok(again?)
}

/// Four passes on four threads intern the same 1,000 pairs, each in an order of its own.
#[test]
fn four_threads_place_each_pair_once(rt: HostRuntime) -> Result<(), Fail> {
    let (mut pool, mut pass) = Pool::new(rt.alloc(), 12)?;
    if let Err(memory) = pool.share(rt.alloc(), &mut pass) {
        drop(pass);
        return Err(memory.into());
    }
    let (mut pass, sums) = four(&rt, &pool, pass);
    let found = sums_agree(&rt, &pool, &mut pass, sums);
    drop(pass);
    Ok(found?)
}

type Sums = Result<(u64, u64), PoolFull>;

fn four<R: Threads + Sync>(rt: &R, pool: &Pool, mut pass: Pass) -> (Pass, (Sums, Sums))
    requires of_pool { IsForMany pool.now × IsPassOf pool.now pass }
    requires shares { pass.view.shares ≡ 65 }
    ensures of_pool { IsPassOf pool.now result.0 }
    ensures shares { result.0.view.shares ≡ 65 }
{
    let second = pool.split(&mut pass);
    let third = pool.split(&mut pass);
    let fourth = pool.split(&mut pass);
    let ((mut pass, first), (other, last)) = join(
        rt,
        || -> (Pass, Sums)
            requires { IsForMany pool.now × IsPassOf pool.now pass × IsPassOf pool.now second }
            ensures of_pool { IsPassOf pool.entry.now result.0 }
            ensures shares { result.0.view.shares ≡ pass.view.shares + second.view.shares }
        { two(rt, pool, pass, second, (1, 7)) },
        || -> (Pass, Sums)
            requires { IsForMany pool.now × IsPassOf pool.now third × IsPassOf pool.now fourth }
            ensures of_pool { IsPassOf pool.entry.now result.0 }
            ensures shares { result.0.view.shares ≡ third.view.shares + fourth.view.shares }
        { two(rt, pool, third, fourth, (993, 999)) },
    );
    pool.join(&mut pass, other);
    (pass, (first, last))
}

fn two<R: Threads + Sync>(
    rt: &R,
    pool: &Pool,
    one: Pass,
    other: Pass,
    strides: (u32, u32),
) -> (Pass, Sums)
    requires of_pool { IsForMany pool.now × IsPassOf pool.now one × IsPassOf pool.now other }
    requires strides { (strides.0 < 1000) × (strides.1 < 1000) }
    ensures of_pool { IsPassOf pool.now result.0 }
    ensures shares { result.0.view.shares ≡ one.view.shares + other.view.shares }
{
    let (first, second) = strides;
    let ((mut one, sum), (other, other_sum)) = join(
        rt,
        || -> (Pass, Result<u64, PoolFull>)
            requires { IsPassOf pool.now one × (first < 1000) }
            ensures of_pool { IsPassOf pool.entry.now result.0 }
            ensures shares { result.0.view.shares ≡ one.view.shares }
        { worker(pool, one, first) },
        || -> (Pass, Result<u64, PoolFull>)
            requires { IsPassOf pool.now other × (second < 1000) }
            ensures of_pool { IsPassOf pool.entry.now result.0 }
            ensures shares { result.0.view.shares ≡ other.view.shares }
        { worker(pool, other, second) },
    );
    pool.join(&mut one, other);
    match (sum, other_sum) {
        (Ok(sum), Ok(other_sum)) => (one, Ok((sum, other_sum))),
        _ => (one, Err(PoolFull)),
    }
}

fn worker(pool: &Pool, mut pass: Pass, stride: u32) -> (Pass, Result<u64, PoolFull>)
    requires of_pool { IsPassOf pool.now pass }
    requires stride { stride < 1000 }
    ensures of_pool { IsPassOf pool.now result.0 }
    ensures shares { result.0.view.shares ≡ pass.view.shares }
{
    let sum = place_all(pool, &mut pass, stride);
    (pass, sum)
}

/// Interns pair 0, pair `stride` and so on, modulo 1,000. The sum has each reference times a number of its pair's own.
fn place_all(pool: &Pool, pass: &mut Pass, stride: u32) -> Result<u64, PoolFull>
    requires of_pool { IsPassOf pool.now pass.old }
    requires stride { stride < 1000 }
    ensures of_pool { IsPassOf pool.now pass.new }
    ensures shares { pass.new.view.shares ≡ pass.old.view.shares }
{
    let mut sum: u64 = 0;
    'pairs: for k in 0..1000u32 {
        let pair = k * stride % 1000;
        let r = pool.intern(pass, Ref::leaf(pair / 32), Ref::leaf(pair % 32))?;
        sum = sum.wrapping_add(r.number() as u64 * (pair as u64 + 1));
    }
    Ok(sum)
}

/// Equal pairs have got equal references, and 1,000 places are taken: 3,096 further pairs have room, and no other.
fn sums_agree(
    rt: &impl Abort,
    pool: &Pool,
    pass: &mut Pass,
    sums: (Sums, Sums),
) -> Result<(), PoolFull>
    requires { IsPassOf pool.now pass.old }
{
    let (first, last) = sums;
    let again = place_all(pool, pass, 1)?;
    assert_eq!(rt; first?, (again, again));
    assert_eq!(rt; last?, (again, again));
    'more: for k in 0..3096u32 {
        let _r = pool.intern(pass, Ref::leaf(100 + k / 64), Ref::leaf(k % 64))?;
    }
    assert_eq!(rt;
        pool.intern(pass, Ref::leaf(99), Ref::leaf(0)),
        Err(PoolFull)
    );
    Ok(())
}

/// Two passes on two threads fill one pool, each with pairs of its own. Of the 8,194 pairs 4,096 get a place, so both passes
/// are refused.
#[test]
fn two_threads_fill_a_pool(rt: HostRuntime) -> Result<(), Fail> {
    let (mut pool, mut pass) = Pool::new(rt.alloc(), 12)?;
    if let Err(memory) = pool.share(rt.alloc(), &mut pass) {
        drop(pass);
        return Err(memory.into());
    }
    let (pass, counts) = fill_by_two(&rt, &pool, pass);
    drop(pass);
    assert_eq!(rt; counts.0 + counts.1, 4096);
    Ok(())
}

fn fill_by_two<R: Threads + Sync>(rt: &R, pool: &Pool, mut pass: Pass) -> (Pass, (u32, u32))
    requires of_pool { IsForMany pool.now × IsPassOf pool.now pass }
    requires shares { pass.view.shares ≡ 65 }
    ensures counts { (result.1.0 ≤ 4097) × (result.1.1 ≤ 4097) }
{
    let second = pool.split(&mut pass);
    let ((mut pass, count), (other, other_count)) = join(
        rt,
        || -> (Pass, u32)
            requires { IsPassOf pool.now pass }
            ensures of_pool { IsPassOf pool.entry.now result.0 }
            ensures count { result.1 ≤ 4097 }
        { place_until_full(pool, pass, 0) },
        || -> (Pass, u32)
            requires { IsPassOf pool.now second }
            ensures of_pool { IsPassOf pool.entry.now result.0 }
            ensures count { result.1 ≤ 4097 }
        { place_until_full(pool, second, 100) },
    );
    pool.join(&mut pass, other);
    (pass, (count, other_count))
}

/// Interns pairs whose first leaves are from `from` on, until the pool is full or there are 4,097: how many got a place.
fn place_until_full(pool: &Pool, mut pass: Pass, from: u32) -> (Pass, u32)
    requires of_pool { IsPassOf pool.now pass }
    requires from { from ≤ 100 }
    ensures of_pool { IsPassOf pool.now result.0 }
    ensures count { result.1 ≤ 4097 }
{
    'pairs: for k in 0..4097u32 {
        let made = pool.intern(&mut pass, Ref::leaf(from + k / 64), Ref::leaf(k % 64));
        if made.is_err() {
            return (pass, k);
        }
    }
    (pass, 4097)
}
