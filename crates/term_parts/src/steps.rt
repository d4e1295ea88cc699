//! What a rule judges.

use pair_pool::Ref;
use rule_model::{Mode, Rule};

/// What a rule judges: the mode, the rule, the clauses of the step's premises in order, and its own clause, as references of
/// literals. Coefficients, pivots and what open anchors bind are handed to the rules that look at them.
#[derive(Clone, Copy)]
pub struct Step<'a> {
    pub mode: Mode,
    pub rule: Rule,
    pub premises: &'a [&'a [Ref]],
    pub clause: &'a [Ref],
}
