//! The rows of the rules of simplification that compare the numbers of constants, in the order of their tables.

ghost use Rattle.rules_simplify.specs.Tables.{AreRows, rows_of};
ghost use Rattle.rules_simplify.specs.declared.tables.Simplification.TheVariants as Simplification;

use crate::asked::{Asked, NumberTest};
use crate::tables::{A, B, EQUAL, FALSE, NOT, Next, RowParts, TRUE};
use rule_model::Letter;
use schema_match::Part;
use term_model::Op;

const LESS_EQ: Part = Part::Apply(Op::LessEq, 2);

static EQUALITY_ROWS: [RowParts; 3] = [
    RowParts {
        op: Op::Equal,
        left: &[A, A],
        both: &[TRUE, A, A],
        asked: Asked::Nothing,
        next: Next::Ends,
    },
    RowParts {
        op: Op::Equal,
        left: &[A, B],
        both: &[FALSE, A, B],
        asked: Asked::Numbers(NumberTest::Different, Letter::A, Letter::B),
        next: Next::Ends,
    },
    RowParts {
        op: Op::Not,
        left: &[EQUAL, A, B],
        both: &[FALSE, EQUAL, A, B],
        asked: Asked::Numbers(NumberTest::Equal, Letter::A, Letter::B),
        next: Next::Ends,
    },
];

/// The rows of eq_simplify.
pub(crate) fn equality_rows() -> &'static [RowParts]
    ensures { AreRows (rows_of Simplification.Equality) result.now }
{
    &EQUALITY_ROWS
}

static COMPARISON_ROWS: [RowParts; 9] = [
    RowParts {
        op: Op::Less,
        left: &[A, B],
        both: &[TRUE, A, B],
        asked: Asked::Numbers(NumberTest::Below, Letter::A, Letter::B),
        next: Next::Ends,
    },
    RowParts {
        op: Op::Less,
        left: &[A, B],
        both: &[FALSE, A, B],
        asked: Asked::Numbers(NumberTest::AtMost, Letter::B, Letter::A),
        next: Next::Ends,
    },
    RowParts {
        op: Op::LessEq,
        left: &[A, B],
        both: &[TRUE, A, B],
        asked: Asked::Numbers(NumberTest::AtMost, Letter::A, Letter::B),
        next: Next::Ends,
    },
    RowParts {
        op: Op::LessEq,
        left: &[A, B],
        both: &[FALSE, A, B],
        asked: Asked::Numbers(NumberTest::Below, Letter::B, Letter::A),
        next: Next::Ends,
    },
    RowParts {
        op: Op::Less,
        left: &[A, A],
        both: &[FALSE, A, A],
        asked: Asked::Nothing,
        next: Next::Ends,
    },
    RowParts {
        op: Op::LessEq,
        left: &[A, A],
        both: &[TRUE, A, A],
        asked: Asked::Nothing,
        next: Next::Ends,
    },
    RowParts {
        op: Op::GreaterEq,
        left: &[A, B],
        both: &[LESS_EQ, B, A, A, B],
        asked: Asked::Nothing,
        next: Next::Over(Op::LessEq, &[Letter::B, Letter::A]),
    },
    RowParts {
        op: Op::Less,
        left: &[A, B],
        both: &[NOT, LESS_EQ, B, A, A, B],
        asked: Asked::Nothing,
        next: Next::Ends,
    },
    RowParts {
        op: Op::Greater,
        left: &[A, B],
        both: &[NOT, LESS_EQ, A, B, A, B],
        asked: Asked::Nothing,
        next: Next::Ends,
    },
];

/// The rows of comp_simplify.
pub(crate) fn comparison_rows() -> &'static [RowParts]
    ensures { AreRows (rows_of Simplification.Comparison) result.now }
{
    &COMPARISON_ROWS
}
