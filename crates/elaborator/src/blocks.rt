//! The steps that are added for each command.

ghost use Rattle.std.specs.Prelude.{◌≡◌, ◌≤◌, ◌-◌, ◌^◌, ◌++◌, ◌↔◌, map, IfOk, OnOk, IsTrue};
ghost use Rattle.elaborator.specs.Blocks.{blocks_of, commands_for, commands_needed};
ghost use Rattle.elaborator.specs.Steps.{blocks_in};

use pair_pool::Memory;
use proof_store::Added;
use std::alloc::Global;

/// A proof has fewer commands.
const LIMIT: u64 = (1 << 32) - 1;

/// Puts the blocks of a piece at the end.
fn add_piece<'a>(blocks: &mut Vec<&'a Vec<Added>>, piece: &'a [Vec<Added>]) -> Result<(), Memory>
    ensures { OnOk result (blocks_in blocks.new.items ≡ blocks_in blocks.old.items ++ map (λ b. b.items) piece.now) }
{
    'each: for block in piece {
        blocks.push(block)?;
    }
    Ok(())
}

/// The steps that are added for each of so many commands, in file order. A block takes 8 bytes.
pub(crate) fn blocks_of<'a>(
    alloc: Global,
    pieces: &'a [Vec<Vec<Added>>],
    count: u32,
) -> Result<Vec<&'a Vec<Added>>, Memory>
    ensures { IfOk result (λ list. blocks_in list.items ≡ blocks_of pieces.now) }
{
    let mut blocks = Vec::with_capacity(alloc, count as usize)?;
    'pieces: for piece in pieces {
        add_piece(&mut blocks, piece)?;
    }
    Ok(blocks)
}

/// How many commands a block needs: where nothing is added, the command itself.
#[tactic(auto, using(crate::proofs::BlockLists::as_many, crate::proofs::BlockLists::one_if_none))]
fn size_of(block: &[Added]) -> u64
    ensures { result ≡ commands_for block.now }
{
    if block.is_empty() {
        1
    } else {
        block.len() as u64
    }
}

/// Whether there would be 2^32 - 1 commands or more.
pub(crate) fn are_too_many(blocks: &[&Vec<Added>]) -> bool
    ensures { IsTrue result ↔ 2 ^ 32 - 1 ≤ commands_needed (blocks_in blocks.now) }
{
    let mut needed: u64 = 0;
    'each: for block in blocks {
        let size = size_of(block);
        if size >= LIMIT - needed {
            return true;
        }
        needed += size;
    }
    false
}
