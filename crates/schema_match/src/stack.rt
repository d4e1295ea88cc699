//! Stacks of terms.

ghost use Rattle.std.specs.Prelude.{◌≡◌, ◌≤◌, reverse, IfOk, OnOk};
ghost use Rattle.schema_match.specs.Arguments.{HasSoMany};
ghost use Rattle.schema_match.specs.Pushing.{AddsArguments};

use crate::scratch::{Scratch, push};
use pair_pool::{Memory, Ref};
use term_pool::Terms;

/// Puts the literals of a clause alone on a stack, the first one at the top.
pub(crate) fn stack_clause(stack: &mut Scratch, clause: &[Ref]) -> Result<(), Memory>
    ensures { OnOk result (stack.new.items ≡ reverse clause.now) }
{
    stack.clear();
    let mut left = clause.len();
    'literals: while left > 0 {
        left -= 1;
        push(stack, clause[left])?;
    }
    Ok(())
}

/// Puts the arguments of an application on a stack, the first one at the top. There are `count` of them, and each costs a
/// walk to it: it is meant for few.
pub(crate) fn push_arguments(
    terms: &mut Terms<'_>,
    r: Ref,
    count: u32,
    stack: &mut Scratch,
) -> Result<(), Memory>
    requires { HasSoMany terms.old r count }
    ensures pushed { OnOk result (AddsArguments terms.old r count 0 stack.old.items stack.new.items) }
    ensures same { terms.new ≡ terms.old }
{
    let mut left = count;
    'arguments: while left > 0 {
        left -= 1;
        push(stack, terms.nth_arg(r, left))?;
    }
    Ok(())
}
