//! How flags have commands judged.

ghost use Rattle.std.specs.Prelude.{◌≡◌};
ghost use Rattle.step_check.specs.Statuses.{mode_of};
ghost use Rattle.step_check.specs.Steps.{IsKindOf};

use rule_model::{Kind, Mode, Rule};
use term_reader::Flags;

/// The mode in which steps are judged.
pub(crate) fn mode_of(flags: Flags) -> Mode
    ensures { result ≡ mode_of flags }
{
    if flags.strict {
        Mode::Strict
    } else {
        Mode::Check
    }
}

/// How the command of a rule is judged: one by an unknown rule as a hole, where the flags say so.
pub(crate) fn kind_of(rule: Rule, flags: Flags) -> Kind
    ensures { IsKindOf flags rule result }
{
    match rule.kind() {
        Kind::Unknown if flags.ignore_unknown => Kind::Hole,
        kind => kind,
    }
}
