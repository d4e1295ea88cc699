//! The letters of schemas.

/// A letter of a rule's schema: each stands for one term throughout a step. Four are as many as any rule needs.
#[derive(Clone, Copy, Debug, PartialEq, Eq)]
pub enum Letter {
    A,
    B,
    C,
    D,
}
