//! The last step, with the command's clause.

ghost use Rattle.std.specs.Prelude.{◌≡◌, ◌+◌, None, length, IfOk};
ghost use Rattle.elab_denials.specs.Owing.{SaysGiven};
ghost use Rattle.elab_denials.specs.Working.{IsWork};
ghost use Rattle.equality_blocks.specs.Blocks.{IsBlockFor};
ghost use Rattle.equality_blocks.specs.Commands.{IsToElaborate, clause_of_command};
ghost use Rattle.equality_blocks.specs.Counts.{IsFew};
ghost use Rattle.equality_steps.specs.Sites.{AreLiteralsAt};
ghost use Rattle.rule_model.specs.Reading.{closes_at};

use crate::work::Work;
use equality_steps::{Block, Site, weakening};
use flip_steps::forms_stay;
use pair_pool::Memory;
use proof_store::{Link, commands_correspond};
use term_pool::Terms;

/// The steps, with one more that has the command's clause.
pub(crate) fn finished(
    at: &Site<'_>,
    terms: &Terms<'_>,
    work: Work,
    link: Link,
) -> Result<Block, Memory>
    requires job { IsToElaborate at.now terms.now }
    requires opens { closes_at at.now.proof.now at.now.command ≡ None }
    requires literals { AreLiteralsAt at.now terms.now (clause_of_command at.now) }
    requires work { IsWork at.now terms.now work }
    requires given { SaysGiven at.now terms.now work.block link }
    requires few { IsFew at.now terms.now (length work.block + 1) }
    ensures made { IfOk result (IsBlockFor at.now terms.now) }
{
    at.symbols.leaves_differ();
    terms.equal_exactly_where_terms_are();
    commands_correspond();
    forms_stay();
    let mut work = work;
    let _last = weakening(
        at,
        terms,
        &mut work.block,
        link,
        at.proof.clause(at.command),
    )?;
    Ok(work.block)
}
