//! What no contract says: that chunks are drawn one after the other and done beside each other, and that memory suffices.
ghost use Rattle.std.specs.Prelude.{◌≡◌, ◌<◌, ◌≤◌, ◌^◌, ℕ};

use super::*;
use file_ports::Gate;
use pair_pool::{Memory, Pool};
use std::alloc::Global;
use std::process::Abort;
use std::sync::atomic::{AtomicU64, Ordering};
use std::test::Fail;
use std::thread::Threads;
use sym_table::Symbols;
use term_parts::RuleStop;
use term_pool::Terms;

// So many chunks, and what is made of each is its number.
#[derive(Drop)]
struct Numbers<'a> {
    symbols: &'a Symbols,
    chunks: u32,
}

impl<'a> Job for Numbers<'a> {
    ghost use Rattle.std.specs.Prelude.{◌≡◌};

    type Piece = u64;

    type Kept = ();

    ghost symbols = { λ job. job.symbols.now };

    ghost count = { λ job. job.chunks };

    ghost fits = { λ job v. Unit {0} };

    ghost is_kept = { λ job v kept. Unit {0} };

    ghost says = { λ job v k piece. piece ≡ k };

    ghost places = { λ job v t. ⊥ };

    fn chunks(&self) -> u64 {
        self.chunks as u64
    }

    fn begin(&self, _alloc: Global, _terms: &mut Terms<'_>) -> Result<(), Memory> {
        Ok(())
    }

    fn chunk(
        &self,
        _alloc: Global,
        k: u64,
        _kept: &mut (),
        _terms: &mut Terms<'_>,
    ) -> Result<u64, RuleStop> {
        Ok(k)
    }

    fn more_may_be_known(&self) {}
}

// Who enters the first chunk waits until all others were left, or for so many turns.
#[derive(Drop)]
struct FirstLast {
    others: u32,
    left: AtomicU64,
    gave_up: AtomicU64,
}

impl Gate for FirstLast {
    fn enter(&self, k: u64) {
        if k != 0 {
            return;
        }
        for _ in 0..2_000_000_000u64 {
            if self.left.load(Ordering::SeqCst) == self.others as u64 {
                return;
            }
        }
        self.gave_up.store(1, Ordering::SeqCst);
    }

    fn leave(&self, k: u64) {
        if k != 0 {
            self.left.fetch_add(1, Ordering::SeqCst);
        }
    }
}

fn made<R: Threads + AllocGlobal + Sync>(rt: &R, gate: &FirstLast) -> Option<Vec<u64>>
    requires { gate.now.others < 2 ^ 31 }
{
    let alloc = rt.alloc();
    let Ok(symbols) = Symbols::new(alloc) else {
        return None;
    };
    let Ok((mut pool, mut pass)) = Pool::new(alloc, 12) else {
        return None;
    };
    let Ok(()) = pool.share(alloc, &mut pass) else {
        return None;
    };
    let mut terms = Terms::new(&pool, pass);
    let job = Numbers {
        symbols: &symbols,
        chunks: gate.others + 1,
    };
    run(rt, alloc, &job, &mut terms, 2, gate).ok()
}

// The pieces of a chunk that is held and of others, by two workers; none where all turns went by.
fn made_of<R: Threads + AllocGlobal + Sync>(rt: &R, others: u32) -> Option<Vec<u64>>
    requires { others < 2 ^ 31 }
{
    let gate = FirstLast {
        others,
        left: AtomicU64::new(0),
        gave_up: AtomicU64::new(0),
    };
    let pieces = made(rt, &gate);
    if gate.gave_up.load(Ordering::SeqCst) != 0 {
        return None;
    }
    pieces
}

/// While one of two workers is at the first chunk the other one does all others, one or four, and the pieces stand in order.
#[test]
fn one_worker_is_held_and_one_goes_on(rt: HostRuntime) -> Result<(), Fail> {
    let two = made_of(&rt, 1);
    assert!(rt; two.is_some_and(|pieces| pieces.as_slice() == [0, 1].as_slice()));
    let five = made_of(&rt, 4);
    assert!(rt; five.is_some_and(|pieces| pieces.as_slice() == [0, 1, 2, 3, 4].as_slice()));
    Ok(())
}
