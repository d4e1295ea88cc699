//! The equalities that the command's clause denies.

ghost use Rattle.std.specs.Prelude.{◌≡◌, List, IfOk};
ghost use Rattle.elab_denials.specs.Walking.{AreGivenDenials};
ghost use Rattle.equality_blocks.specs.Commands.{IsToElaborate, clause_of_command};
ghost use Rattle.equality_ways.specs.Sides.{AreSidesOfDenials};
ghost use Rattle.term_model.specs.Terms.{Term};
ghost use Rattle.term_pool.specs.Views.{ReferToAll};

use equality_steps::Site;
use equality_ways::{Pair, denied};
use pair_pool::Memory;
use term_pool::Terms;

/// The sides of each equality that the command's clause denies, literal by literal.
pub(crate) fn denials(at: &Site<'_>, terms: &mut Terms<'_>) -> Result<Vec<Option<Pair>>, Memory>
    requires job { IsToElaborate at.now terms.old }
    ensures sides { (ts : List Term) → ReferToAll at.now.symbols.now terms.old (clause_of_command at.now) ts →
        IfOk result (λ sides. AreSidesOfDenials at.now.symbols.now terms.old sides.items ts) }
    ensures given { IfOk result (λ sides. AreGivenDenials at.now terms.old sides.items) }
    ensures same { terms.new ≡ terms.old }
{
    let sides = denied(at.alloc, at.symbols, terms, at.proof.clause(at.command))?;
    Ok(sides)
}
