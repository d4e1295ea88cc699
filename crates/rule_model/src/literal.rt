//! Literals of clauses, over atoms of any kind.

/// A literal of a clause over atoms of a type, such as terms, or numbers that stand for them. `Always` stands for the
/// constant `true` and `Never` for the constant `false` (SMT-LIB 2.6, the theory Core); every other literal is an atom,
/// or its negation.
#[derive(Clone, Copy, Debug, PartialEq, Eq)]
pub enum Literal<A> {
    Plain { atom: A, negative: bool },
    Always,
    Never,
}
