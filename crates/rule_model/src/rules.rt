//! The rules of proofs, and what a check of them may return.

/// The column of a rule's condition that a check takes.
#[derive(Clone, Copy, Debug, PartialEq, Eq)]
pub enum Mode {
    /// What a solver may leave out is found: flips, order and pivots.
    Check,
    /// Nothing is left to find.
    Strict,
}

/// The rules of Alethe that have a condition here, and those that leave a hole (Alethe, "List of rules").
#[derive(Clone, Copy, Debug, PartialEq, Eq)]
pub enum Rule {
    /// No rule: the command assumes its term.
    Assume,
    /// A rule of another name than those below.
    Unknown,
    Hole,
    LiaGeneric,
    RareRewrite,
    AllSimplify,
    True,
    False,
    NotNot,
    AndPos,
    AndNeg,
    OrPos,
    OrNeg,
    XorPos1,
    XorPos2,
    XorNeg1,
    XorNeg2,
    ImpliesPos,
    ImpliesNeg1,
    ImpliesNeg2,
    EquivPos1,
    EquivPos2,
    EquivNeg1,
    EquivNeg2,
    ItePos1,
    ItePos2,
    IteNeg1,
    IteNeg2,
    And,
    Or,
    NotOr,
    NotAnd,
    Xor1,
    Xor2,
    NotXor1,
    NotXor2,
    Implies,
    NotImplies1,
    NotImplies2,
    Equiv1,
    Equiv2,
    NotEquiv1,
    NotEquiv2,
    Ite1,
    Ite2,
    NotIte1,
    NotIte2,
    Contraction,
    Reordering,
    Weakening,
    Tautology,
    Resolution,
    ThResolution,
    Refl,
    Symm,
    NotSymm,
    Trans,
    Cong,
    EqReflexive,
    EqSymmetric,
    EqTransitive,
    EqCongruent,
    EqCongruentPred,
    Subproof,
    Let,
    ConnectiveDef,
    IteIntro,
    DistinctElim,
    NotSimplify,
    ImpliesSimplify,
    EquivSimplify,
    BoolSimplify,
    IteSimplify,
    EqSimplify,
    CompSimplify,
    AndSimplify,
    OrSimplify,
    LaGeneric,
    LaDisequality,
    LaTotality,
    LaRwEq,
    SumSimplify,
    ProdSimplify,
    MinusSimplify,
    UnaryMinusSimplify,
}

/// Why a command is faulty.
#[derive(Clone, Copy, Debug, PartialEq, Eq)]
pub enum StepCause {
    /// The step is by a rule of a name that the table does not have.
    UnknownRule,
    /// The step does not meet its rule's condition.
    NotMet,
    /// The assumed term is no assertion of the problem.
    NotAsserted,
}
