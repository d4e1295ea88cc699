//! Whether a term that was made may stand where it does.
ghost use Rattle.std.specs.Prelude.{Option, Ok};
ghost use Rattle.sym_table.specs.Table.{Table};
ghost use Rattle.term_pool.specs.Views.{TermsView};
ghost use Rattle.term_names.specs.Making.{IsMade};
ghost use Rattle.problem_text.specs.TypedTerms.{Typed};
ghost use Rattle.problem_text.specs.Scripts.{Script};
ghost use Rattle.term_reader.specs.Settling.{SettlesTerm};
ghost use Rattle.term_expansion.specs.SymbolsAndTerms.{both};

use sexpr::Cause;
use term_expansion::values::Value;
use term_names::faults::ReadFault;
use text_items::refusals::refused;

/// The greatest height of a term.
const MOST_HEIGHT: u64 = 2000;

/// The term that begins at `place`, where one was made and it is not too high. `cause` is why none was made.
pub(crate) fn settle(cause: Cause, place: u64, made: Option<Value>) -> Result<Value, ReadFault>
    ensures { (s : Table) (v : TermsView) (o : Option Typed) (sc : Script) → IsMade (both s v) o (Ok made) → SettlesTerm (both s v) cause place o sc result }
{
    match made {
        None => Err(ReadFault::Text(refused(cause, place))),
        Some(value) if value.height > MOST_HEIGHT => {
            Err(ReadFault::Text(refused(Cause::TooHigh, place)))
        }
        Some(value) => Ok(value),
    }
}
