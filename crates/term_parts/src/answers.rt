//! What is said of a step by its rule.

ghost use Rattle.std.specs.Prelude.{◌≡◌};
ghost use Rattle.term_parts.specs.Judging.{met_if};

use pair_pool::{Memory, PoolFull};

/// Whether a step meets its rule's condition.
#[derive(Clone, Copy, Debug, PartialEq, Eq)]
pub enum Answer {
    Met,
    NotMet,
    /// The weight of the step's numbers is over 2^127 - 1.
    TooWide,
}

/// Met or not met.
pub fn answer_of(met: bool) -> Answer
    ensures { result ≡ met_if met }
{
    if met { Answer::Met } else { Answer::NotMet }
}

/// Why a step was not judged.
#[derive(Clone, Copy, Debug, PartialEq, Eq)]
pub enum RuleStop {
    /// The pool has no place for a cell.
    PoolFull,
    /// Out of memory.
    Memory,
}

impl From<Memory> for RuleStop {
    ghost use Rattle.std.specs.Prelude.{◌≡◌};
    ghost use Rattle.term_parts.specs.declared.answers.RuleStop.TheVariants as RuleStop;

    ghost from_gives = { λ _ stop. stop ≡ RuleStop.Memory };

    fn from(_refused: Memory) -> RuleStop {
        RuleStop::Memory
    }
}

impl From<PoolFull> for RuleStop {
    ghost use Rattle.std.specs.Prelude.{◌≡◌};
    ghost use Rattle.term_parts.specs.declared.answers.RuleStop.TheVariants as RuleStop;

    ghost from_gives = { λ _ stop. stop ≡ RuleStop.PoolFull };

    fn from(_refused: PoolFull) -> RuleStop {
        RuleStop::PoolFull
    }
}
