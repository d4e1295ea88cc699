/// The sorts of a problem. A declared sort is known by its number in the order of declaration, from 0
/// (SMT-LIB 2.6, "Sorts" and "Commands").
#[derive(Clone, Copy, Debug, PartialEq, Eq, Hash)]
pub enum Sort {
    Bool,
    Int,
    Declared(u32),
}

/// The operators of the theories Core and Ints of SMT-LIB 2.6 that a term may apply.
#[derive(Clone, Copy, Debug, PartialEq, Eq)]
pub enum Op {
    True,
    False,
    Not,
    Implies,
    And,
    Or,
    Xor,
    Equal,
    Distinct,
    Ite,
    Minus,
    Plus,
    Times,
    Div,
    Mod,
    LessEq,
    Less,
    GreaterEq,
    Greater,
}
