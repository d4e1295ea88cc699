//! Where steps are added.

use pair_pool::Ref;
use proof_store::Proof;
use std::alloc::Global;
use sym_table::Symbols;

/// Where steps are added: for the command of this index of a proof, for a problem with these assertions. Memory is taken from the
/// allocator.
#[derive(Clone, Copy)]
pub struct Site<'a> {
    pub alloc: Global,
    pub symbols: &'a Symbols,
    pub proof: &'a Proof,
    pub command: u32,
    pub asserted: &'a [Ref],
}
