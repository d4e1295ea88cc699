//! Names that are in use (SMT-LIB 2.6, "Commands", and on attributes of terms).
ghost use Rattle.std.specs.Prelude.{◌≡◌};
ghost use Rattle.sym_table.specs.Table.{Table};
ghost use Rattle.term_pool.specs.Views.{TermsView};
ghost use Rattle.problem_text.specs.Scripts as spec;
ghost use Rattle.problem_text.specs.Scripts.{Script};
ghost use Rattle.term_names.specs.Scope.{known_in};
ghost use Rattle.term_names.specs.Standing.{IsScript};
ghost use Rattle.term_expansion.specs.SymbolsAndTerms.{both};

use crate::repeats::is_built_in;
use term_names::names::Names;
use term_names::settings::ReadSettings;

/// Whether no function, macro or named term may have this name from here on: it is a built-in word, or one of them has it.
///
/// Costs one look-up, and another one where the reader starts from a problem.
pub fn is_taken(settings: &ReadSettings<'_>, names: &Names, name: &[u8]) -> bool
    ensures { (s : Table) (v : TermsView) (sc : Script) → IsScript (both s v) (known_in settings.now names.now) sc → result ≡ spec.is_taken sc name.now }
{
    is_built_in(name) || names.entry(settings, name).is_some()
}
