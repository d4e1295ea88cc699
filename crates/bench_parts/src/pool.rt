//! Cells of a pool: interning pairs of leaves, finding them again, a chain of pairs, and its parts.

ghost use Rattle.std.specs.Prelude.{◌≡◌, ◌≤◌, ◌<◌, ◌^◌, IfOk};
ghost use Rattle.pair_pool.specs.Views.{IsPassOf, IsKnown};

use pair_pool::{Memory, Pass, Pool, PoolFull, Ref};
use std::alloc::Global;

/// Why a case has no sum.
#[derive(Clone, Copy, Debug, PartialEq, Eq)]
pub enum Stop {
    BadWords,
    Memory,
    PoolFull,
}

impl From<Memory> for Stop {
    fn from(_stop: Memory) -> Stop {
        Stop::Memory
    }
}

impl From<PoolFull> for Stop {
    fn from(_stop: PoolFull) -> Stop {
        Stop::PoolFull
    }
}

/// The sum of the numbers of all references that the case returned, modulo 2^64.
pub fn run(alloc: Global, case: &str, bits: &str, count: &str) -> Result<u64, Stop> {
    let bits = bits.parse::<u32>().unwrap_or(0);
    let count = count.parse::<u32>().unwrap_or(u32::MAX);
    if bits < 12 || bits > 26 || count > (1 << 26) {
        return Err(Stop::BadWords);
    }
    let (pool, mut pass) = Pool::new(alloc, bits)?;
    sum_of_case(&pool, &mut pass, case, count)
}

// The sum of a case, in a pool with nothing in it.
fn sum_of_case(pool: &Pool, pass: &mut Pass, case: &str, count: u32) -> Result<u64, Stop>
    requires { IsPassOf pool.now pass.old }
{
    match case {
        "none" => Ok(0),
        "pairs" => Ok(pairs(pool, pass, count)?),
        "finds" => {
            let first = pairs(pool, pass, count)?;
            Ok(first.wrapping_add(pairs(pool, pass, count)?))
        }
        "chain" => Ok(chain(pool, pass, count)?.number() as u64),
        "parts" => {
            let last = chain(pool, pass, count)?;
            Ok(walk(pool, pass, last, count))
        }
        _ => Err(Stop::BadWords),
    }
}

/// Interns so many pairs of leaves.
fn pairs(pool: &Pool, pass: &mut Pass, count: u32) -> Result<u64, PoolFull>
    requires { IsPassOf pool.now pass.old }
    ensures { IsPassOf pool.now pass.new }
{
    let mut sum: u64 = 0;
    'pairs: for k in 0..count {
        let r = pool.intern(pass, Ref::leaf(k / 4096), Ref::leaf(k % 4096))?;
        sum = sum.wrapping_add(r.number() as u64);
    }
    Ok(sum)
}

/// The last of so many pairs, of which each holds the one before.
fn chain(pool: &Pool, pass: &mut Pass, count: u32) -> Result<Ref, PoolFull>
    requires { IsPassOf pool.now pass.old }
    ensures of_pool { IsPassOf pool.now pass.new }
    ensures known { IfOk result (λ r. IsKnown pass.new.view r) }
{
    let mut last = Ref::leaf(0);
    'links: for k in 0..count {
        last = pool.intern(pass, last, Ref::leaf(k % 1024))?;
    }
    Ok(last)
}

/// The sum of the numbers of the second parts, from a reference down the first parts, at most so many.
fn walk(pool: &Pool, pass: &mut Pass, from: Ref, count: u32) -> u64
    requires of_pool { IsPassOf pool.now pass.old }
    requires known { IsKnown pass.old.view from }
{
    let mut r = from;
    let mut sum: u64 = 0;
    'links: for _ in 0..count {
        if r.is_leaf() {
            return sum;
        }
        let (first, second) = pool.parts(pass, r);
        sum = sum.wrapping_add(second.number() as u64);
        r = first;
    }
    sum
}
