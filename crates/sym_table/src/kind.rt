//! The kinds of leaves.
use term_model::{Op, Sort};

/// What a leaf of a term stands for.
#[derive(Clone, Copy, Debug, PartialEq, Eq)]
pub enum Kind {
    /// The end of a list of arguments.
    Nil,
    /// The head of a let term (SMT-LIB 2.6, on binders).
    Let,
    /// An operator of the theories Core and Ints.
    Op(Op),
    /// A declared function, with its number in the order of declaration, from 0.
    Fun(u32),
    /// A variable of this sort.
    Var(Sort),
    /// A numeral, which is not negative.
    Num(i128),
}
