//! The table of symbols and the pool that two texts are judged with.
ghost use Rattle.std.specs.Prelude.{◌≡◌, ◌≤◌, IfOk, IfSome};
ghost use Rattle.judged_texts.specs.Tables.{AreEmpty, HasForItself};

use crate::pools::{LEAST_BITS, MOST_BITS};
use pair_pool::{Memory, Pass, Pool};
use std::alloc::Global;
use sym_table::Symbols;

/// A table of symbols, and a pool with a pass on it.
#[derive(Drop)]
pub(crate) struct Tables {
    pub(crate) symbols: Symbols,
    pub(crate) pool: Pool,
    pub(crate) pass: Pass,
}

/// New tables, with a pool with so many bits.
pub(crate) fn new_tables(alloc: Global, bits: u32) -> Result<Tables, Memory>
    requires least { LEAST_BITS ≤ bits }
    requires most { bits ≤ MOST_BITS }
    ensures empty { IfOk result AreEmpty }
    ensures bits { IfOk result (λ tables. tables.pool.bits ≡ bits) }
{
    let Ok(symbols) = Symbols::new(alloc) else {
        return Err(Memory);
    };
    let (pool, pass) = Pool::new(alloc, bits)?;
    Ok(Tables {
        symbols,
        pool,
        pass,
    })
}

/// The tables, with nothing in them. They keep their memory.
fn cleared(tables: Tables) -> Tables
    requires { HasForItself tables tables.pool.bits }
    ensures empty { AreEmpty result }
    ensures bits { result.pool.bits ≡ tables.pool.bits }
{
    let Tables {
        mut symbols,
        pool,
        pass,
    } = tables;
    symbols.clear();
    let pass = pool.clear(pass);
    Tables {
        symbols,
        pool,
        pass,
    }
}

/// Tables with nothing in them, with a pool of the least size: those that are there, cleared, or new ones.
pub(crate) fn cleared_or_new(alloc: Global, there: Option<Tables>) -> Result<Tables, Memory>
    requires { IfSome there (λ tables. HasForItself tables 12) }
    ensures empty { IfOk result AreEmpty }
    ensures bits { IfOk result (λ tables. tables.pool.bits ≡ 12) }
{
    match there {
        Some(tables) => Ok(cleared(tables)),
        None => new_tables(alloc, LEAST_BITS),
    }
}

/// The tables, where one worker had them: then the pass has the pool for itself, and they can be cleared. More share the pool.
pub(crate) fn kept(workers: u32, tables: Tables) -> Option<Tables>
    requires { workers ≤ 1 → HasForItself tables 12 }
    ensures { IfSome result (λ t. HasForItself t 12) }
{
    if workers == 1 {
        return Some(tables);
    }
    drop(tables);
    None
}
