//! Added steps without the room that their lists don't use.

ghost use Rattle.std.specs.Prelude.{◌≡◌};

use proof_store::Added;

/// Gives back the room that the lists of a step don't use.
fn trim(step: &mut Added)
    ensures { step.new ≡ step.old }
{
    step.clause.shrink_to_fit();
    step.premises.shrink_to_fit();
    step.pivots.shrink_to_fit();
}

/// The same steps, without the room that they don't use: they are held until the steps for all commands are made and put in, and
/// most lists have one or two items in room for four.
pub(crate) fn trimmed(mut block: Vec<Added>) -> Vec<Added>
    ensures { result.items ≡ block.items }
{
    'steps: for k in 0..block.len() {
        trim(&mut block[k]);
    }
    block.shrink_to_fit();
    block
}
