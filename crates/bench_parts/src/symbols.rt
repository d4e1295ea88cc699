//! Names in a table of symbols: so many declarations, and five look-ups for each.
use std::alloc::Global;
use sym_table::{Memory, NameFault, Symbols};
use term_model::Sort;

/// Why a case has no sum.
#[derive(Clone, Copy, Debug, PartialEq, Eq)]
pub enum Stop {
    BadWords,
    Memory,
    Repeated,
}

impl From<Memory> for Stop {
    fn from(_stop: Memory) -> Stop {
        Stop::Memory
    }
}

impl From<NameFault> for Stop {
    fn from(stop: NameFault) -> Stop {
        match stop {
            NameFault::Repeated => Stop::Repeated,
            NameFault::Memory => Stop::Memory,
        }
    }
}

// How many leaves a table may have before a call that adds one.
const LIMIT: u32 = 1 << 30;

/// The sum of the leaves that the case returned, modulo 2^64.
pub fn run(alloc: Global, case: &str, count: &str) -> Result<u64, Stop> {
    let count = count.parse::<u32>().unwrap_or(u32::MAX);
    if count > (1 << 24) {
        return Err(Stop::BadWords);
    }
    let mut symbols = Symbols::new(alloc)?;
    let sum = sum_of_case(&mut symbols, case, count);
    // A table is let go by a call: let go in parts, at the end of a scope, it is dear to prove.
    drop(symbols);
    sum
}

// The sum of a case, over a table that has no declarations yet.
fn sum_of_case(symbols: &mut Symbols, case: &str, count: u32) -> Result<u64, Stop> {
    match case {
        "none" => Ok(0),
        "declare" => declare(symbols, count),
        "find" => {
            let sum = declare(symbols, count)?;
            Ok(sum.wrapping_add(find(symbols, count)))
        }
        _ => Err(Stop::BadWords),
    }
}

// Declares the names below `count`.
fn declare(symbols: &mut Symbols, count: u32) -> Result<u64, Stop> {
    let mut sum: u64 = 0;
    for number in 0..count {
        if symbols.count() >= LIMIT {
            return Err(Stop::BadWords);
        }
        let leaf = symbols.declare(&name_of(number), &[], Sort::Bool)?;
        sum = sum.wrapping_add(u64::from(leaf));
    }
    Ok(sum)
}

// Looks five times for each name below `count`, in a mixed order.
fn find(symbols: &Symbols, count: u32) -> u64 {
    let mut sum: u64 = 0;
    for turn in 0..5 {
        for number in 0..count {
            let mixed = (u64::from(number) * 2_654_435_761 + turn) % u64::from(count);
            if let Some(leaf) = symbols.find(&name_of(mixed as u32)) {
                sum = sum.wrapping_add(u64::from(leaf));
            }
        }
    }
    sum
}

// A name of eight bytes for each number.
fn name_of(number: u32) -> [u8; 8] {
    let mut name = [b'a'; 8];
    let mut rest = number;
    for byte in name.iter_mut() {
        *byte = b'a' + (rest % 16) as u8;
        rest /= 16;
    }
    name
}
