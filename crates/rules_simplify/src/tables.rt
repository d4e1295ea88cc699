//! The rows of the rules of simplification, in the order of their tables.

ghost use Rattle.rules_simplify.specs.Tables.{AreRows, rows_of};

use crate::asked::Asked;
use crate::number_tables::{comparison_rows, equality_rows};
use rule_model::Letter;
use schema_match::Part;
use term_model::Op;

/// A rule of simplification by a table of rewrites.
#[derive(Clone, Copy)]
pub(crate) enum Simplification {
    Not,
    Implies,
    Equiv,
    Bool,
    Ite,
    Equality,
    Comparison,
}

/// What a row makes of a term, as the next term of a chain.
#[derive(Clone, Copy)]
pub(crate) enum Next {
    /// A term that fits no row of the table.
    Ends,
    /// What a letter stands for.
    Part(Letter),
    /// An operator over what letters stand for.
    Over(Op, &'static [Letter]),
    /// `(and a (not b))`: the negation may have no cell, and has one where the term fits a row.
    OverNegation,
    /// `(=> (and a b) c)`: the term fits a row as long as `c` is an implication, whose premise joins the others in the
    /// `and`, which may have no cell.
    Conjoins,
}

/// A row of a table of rewrites. Its left side is an application.
#[derive(Clone, Copy)]
pub(crate) struct RowParts {
    /// The operator of the left side.
    pub(crate) op: Op,
    /// The parts of the left side's arguments.
    pub(crate) left: &'static [Part],
    /// The parts of the right side, and then those of the left side's arguments.
    pub(crate) both: &'static [Part],
    pub(crate) asked: Asked,
    pub(crate) next: Next,
}

pub(crate) const A: Part = Part::Any(Letter::A);

pub(crate) const B: Part = Part::Any(Letter::B);

const C: Part = Part::Any(Letter::C);

const D: Part = Part::Any(Letter::D);

pub(crate) const TRUE: Part = Part::Apply(Op::True, 0);

pub(crate) const FALSE: Part = Part::Apply(Op::False, 0);

pub(crate) const NOT: Part = Part::Apply(Op::Not, 1);

const AND: Part = Part::Apply(Op::And, 2);

const OR: Part = Part::Apply(Op::Or, 2);

const IMPLIES: Part = Part::Apply(Op::Implies, 2);

pub(crate) const EQUAL: Part = Part::Apply(Op::Equal, 2);

const ITE: Part = Part::Apply(Op::Ite, 3);

static NOT_ROWS: [RowParts; 3] = [
    RowParts {
        op: Op::Not,
        left: &[NOT, A],
        both: &[A, NOT, A],
        asked: Asked::Nothing,
        next: Next::Part(Letter::A),
    },
    RowParts {
        op: Op::Not,
        left: &[FALSE],
        both: &[TRUE, FALSE],
        asked: Asked::Nothing,
        next: Next::Ends,
    },
    RowParts {
        op: Op::Not,
        left: &[TRUE],
        both: &[FALSE, TRUE],
        asked: Asked::Nothing,
        next: Next::Ends,
    },
];

/// The rows of not_simplify.
fn not_rows() -> &'static [RowParts]
    ensures { AreRows (rows_of Simplification.Not) result.now }
{
    &NOT_ROWS
}

static IMPLIES_ROWS: [RowParts; 9] = [
    RowParts {
        op: Op::Implies,
        left: &[NOT, A, NOT, B],
        both: &[IMPLIES, B, A, NOT, A, NOT, B],
        asked: Asked::Nothing,
        next: Next::Over(Op::Implies, &[Letter::B, Letter::A]),
    },
    RowParts {
        op: Op::Implies,
        left: &[FALSE, A],
        both: &[TRUE, FALSE, A],
        asked: Asked::Nothing,
        next: Next::Ends,
    },
    RowParts {
        op: Op::Implies,
        left: &[A, TRUE],
        both: &[TRUE, A, TRUE],
        asked: Asked::Nothing,
        next: Next::Ends,
    },
    RowParts {
        op: Op::Implies,
        left: &[TRUE, A],
        both: &[A, TRUE, A],
        asked: Asked::Nothing,
        next: Next::Part(Letter::A),
    },
    RowParts {
        op: Op::Implies,
        left: &[A, FALSE],
        both: &[NOT, A, A, FALSE],
        asked: Asked::Nothing,
        next: Next::Ends,
    },
    RowParts {
        op: Op::Implies,
        left: &[A, A],
        both: &[TRUE, A, A],
        asked: Asked::Nothing,
        next: Next::Ends,
    },
    RowParts {
        op: Op::Implies,
        left: &[NOT, A, A],
        both: &[A, NOT, A, A],
        asked: Asked::Nothing,
        next: Next::Part(Letter::A),
    },
    RowParts {
        op: Op::Implies,
        left: &[A, NOT, A],
        both: &[NOT, A, A, NOT, A],
        asked: Asked::Nothing,
        next: Next::Ends,
    },
    RowParts {
        op: Op::Implies,
        left: &[IMPLIES, A, B, B],
        both: &[OR, A, B, IMPLIES, A, B, B],
        asked: Asked::Nothing,
        next: Next::Ends,
    },
];

/// The rows of implies_simplify.
fn implies_rows() -> &'static [RowParts]
    ensures { AreRows (rows_of Simplification.Implies) result.now }
{
    &IMPLIES_ROWS
}

static EQUIV_ROWS: [RowParts; 8] = [
    RowParts {
        op: Op::Equal,
        left: &[NOT, A, NOT, B],
        both: &[EQUAL, A, B, NOT, A, NOT, B],
        asked: Asked::Nothing,
        next: Next::Over(Op::Equal, &[Letter::A, Letter::B]),
    },
    RowParts {
        op: Op::Equal,
        left: &[A, A],
        both: &[TRUE, A, A],
        asked: Asked::Truth(Letter::A),
        next: Next::Ends,
    },
    RowParts {
        op: Op::Equal,
        left: &[A, NOT, A],
        both: &[FALSE, A, NOT, A],
        asked: Asked::Nothing,
        next: Next::Ends,
    },
    RowParts {
        op: Op::Equal,
        left: &[NOT, A, A],
        both: &[FALSE, NOT, A, A],
        asked: Asked::Nothing,
        next: Next::Ends,
    },
    RowParts {
        op: Op::Equal,
        left: &[TRUE, A],
        both: &[A, TRUE, A],
        asked: Asked::Nothing,
        next: Next::Part(Letter::A),
    },
    RowParts {
        op: Op::Equal,
        left: &[A, TRUE],
        both: &[A, A, TRUE],
        asked: Asked::Nothing,
        next: Next::Part(Letter::A),
    },
    RowParts {
        op: Op::Equal,
        left: &[FALSE, A],
        both: &[NOT, A, FALSE, A],
        asked: Asked::Nothing,
        next: Next::Ends,
    },
    RowParts {
        op: Op::Equal,
        left: &[A, FALSE],
        both: &[NOT, A, A, FALSE],
        asked: Asked::Nothing,
        next: Next::Ends,
    },
];

/// The rows of equiv_simplify.
fn equiv_rows() -> &'static [RowParts]
    ensures { AreRows (rows_of Simplification.Equiv) result.now }
{
    &EQUIV_ROWS
}

static BOOL_ROWS: [RowParts; 7] = [
    RowParts {
        op: Op::Not,
        left: &[IMPLIES, A, B],
        both: &[AND, A, NOT, B, IMPLIES, A, B],
        asked: Asked::Nothing,
        next: Next::OverNegation,
    },
    RowParts {
        op: Op::Not,
        left: &[OR, A, B],
        both: &[AND, NOT, A, NOT, B, OR, A, B],
        asked: Asked::Nothing,
        next: Next::Ends,
    },
    RowParts {
        op: Op::Not,
        left: &[AND, A, B],
        both: &[OR, NOT, A, NOT, B, AND, A, B],
        asked: Asked::Nothing,
        next: Next::Ends,
    },
    RowParts {
        op: Op::Implies,
        left: &[A, IMPLIES, B, C],
        both: &[IMPLIES, AND, A, B, C, A, IMPLIES, B, C],
        asked: Asked::Nothing,
        next: Next::Conjoins,
    },
    RowParts {
        op: Op::Implies,
        left: &[IMPLIES, A, B, B],
        both: &[OR, A, B, IMPLIES, A, B, B],
        asked: Asked::Nothing,
        next: Next::Ends,
    },
    RowParts {
        op: Op::And,
        left: &[A, IMPLIES, A, B],
        both: &[AND, A, B, A, IMPLIES, A, B],
        asked: Asked::Nothing,
        next: Next::Over(Op::And, &[Letter::A, Letter::B]),
    },
    RowParts {
        op: Op::And,
        left: &[IMPLIES, A, B, A],
        both: &[AND, A, B, IMPLIES, A, B, A],
        asked: Asked::Nothing,
        next: Next::Over(Op::And, &[Letter::A, Letter::B]),
    },
];

/// The rows of bool_simplify.
fn bool_rows() -> &'static [RowParts]
    ensures { AreRows (rows_of Simplification.Bool) result.now }
{
    &BOOL_ROWS
}

static ITE_ROWS: [RowParts; 12] = [
    RowParts {
        op: Op::Ite,
        left: &[TRUE, A, B],
        both: &[A, TRUE, A, B],
        asked: Asked::Nothing,
        next: Next::Part(Letter::A),
    },
    RowParts {
        op: Op::Ite,
        left: &[FALSE, A, B],
        both: &[B, FALSE, A, B],
        asked: Asked::Nothing,
        next: Next::Part(Letter::B),
    },
    RowParts {
        op: Op::Ite,
        left: &[C, A, A],
        both: &[A, C, A, A],
        asked: Asked::Nothing,
        next: Next::Part(Letter::A),
    },
    RowParts {
        op: Op::Ite,
        left: &[NOT, C, A, B],
        both: &[ITE, C, B, A, NOT, C, A, B],
        asked: Asked::Nothing,
        next: Next::Over(Op::Ite, &[Letter::C, Letter::B, Letter::A]),
    },
    RowParts {
        op: Op::Ite,
        left: &[C, ITE, C, A, B, D],
        both: &[ITE, C, A, D, C, ITE, C, A, B, D],
        asked: Asked::Nothing,
        next: Next::Over(Op::Ite, &[Letter::C, Letter::A, Letter::D]),
    },
    RowParts {
        op: Op::Ite,
        left: &[C, A, ITE, C, B, D],
        both: &[ITE, C, A, D, C, A, ITE, C, B, D],
        asked: Asked::Nothing,
        next: Next::Over(Op::Ite, &[Letter::C, Letter::A, Letter::D]),
    },
    RowParts {
        op: Op::Ite,
        left: &[C, TRUE, FALSE],
        both: &[C, C, TRUE, FALSE],
        asked: Asked::Nothing,
        next: Next::Part(Letter::C),
    },
    RowParts {
        op: Op::Ite,
        left: &[C, FALSE, TRUE],
        both: &[NOT, C, C, FALSE, TRUE],
        asked: Asked::Nothing,
        next: Next::Ends,
    },
    RowParts {
        op: Op::Ite,
        left: &[C, TRUE, A],
        both: &[OR, C, A, C, TRUE, A],
        asked: Asked::Nothing,
        next: Next::Ends,
    },
    RowParts {
        op: Op::Ite,
        left: &[C, A, FALSE],
        both: &[AND, C, A, C, A, FALSE],
        asked: Asked::Nothing,
        next: Next::Ends,
    },
    RowParts {
        op: Op::Ite,
        left: &[C, FALSE, A],
        both: &[AND, NOT, C, A, C, FALSE, A],
        asked: Asked::Nothing,
        next: Next::Ends,
    },
    RowParts {
        op: Op::Ite,
        left: &[C, A, TRUE],
        both: &[OR, NOT, C, A, C, A, TRUE],
        asked: Asked::Nothing,
        next: Next::Ends,
    },
];

/// The rows of ite_simplify.
fn ite_rows() -> &'static [RowParts]
    ensures { AreRows (rows_of Simplification.Ite) result.now }
{
    &ITE_ROWS
}

/// Some row of a table.
pub(crate) fn some_row() -> RowParts {
    NOT_ROWS[0]
}

/// The rows of a table.
pub(crate) fn rows(of: Simplification) -> &'static [RowParts]
    ensures { AreRows (rows_of of) result.now }
{
    match of {
        Simplification::Not => not_rows(),
        Simplification::Implies => implies_rows(),
        Simplification::Equiv => equiv_rows(),
        Simplification::Bool => bool_rows(),
        Simplification::Ite => ite_rows(),
        Simplification::Equality => equality_rows(),
        Simplification::Comparison => comparison_rows(),
    }
}
