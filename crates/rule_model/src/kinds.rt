//! How the commands of each rule are judged.

ghost use Rattle.std.specs.Prelude.{◌≡◌};
ghost use Rattle.rule_model.specs.RuleNames.{kind_of};

use crate::rules::Rule;

/// The rules that are decided by one condition's kind of work, each family by a crate of its name.
#[derive(Clone, Copy, Debug, PartialEq, Eq)]
pub enum Family {
    /// Tautologies of the connectives, what follows from one connective, and clauses with the literals of another one.
    Clausal,
    /// Resolution, in both its names.
    Resolution,
    /// The rules of equality, but refl.
    Congruence,
    /// Equality after what the open anchors put in.
    Refl,
    /// The rules over `ite`, and what connectives stand for.
    Ite,
    /// The rules of simplification, but those of arithmetic.
    Simplify,
    /// Linear arithmetic.
    Arith,
    /// The rules whose steps close a scope.
    Subproof,
}

/// How a command is judged.
#[derive(Clone, Copy, Debug, PartialEq, Eq)]
pub enum Kind {
    /// It assumes its term.
    Assumed,
    /// Its rule is unknown.
    Unknown,
    /// Its rule leaves a hole.
    Hole,
    /// By the condition of its rule, which is one of this family.
    Judged(Family),
}

impl Rule {
    /// How a command of the rule is judged (Alethe, "List of rules").
    pub fn kind(self) -> Kind
        ensures { result ≡ kind_of self }
    {
        match self {
            Rule::Assume => Kind::Assumed,
            Rule::Unknown => Kind::Unknown,
            Rule::Hole | Rule::LiaGeneric | Rule::RareRewrite | Rule::AllSimplify => Kind::Hole,
            Rule::True
            | Rule::False
            | Rule::NotNot
            | Rule::AndPos
            | Rule::AndNeg
            | Rule::OrPos
            | Rule::OrNeg
            | Rule::XorPos1
            | Rule::XorPos2 => Kind::Judged(Family::Clausal),
            Rule::XorNeg1
            | Rule::XorNeg2
            | Rule::ImpliesPos
            | Rule::ImpliesNeg1
            | Rule::ImpliesNeg2
            | Rule::EquivPos1
            | Rule::EquivPos2
            | Rule::EquivNeg1
            | Rule::EquivNeg2 => Kind::Judged(Family::Clausal),
            Rule::And
            | Rule::Or
            | Rule::NotOr
            | Rule::NotAnd
            | Rule::Xor1
            | Rule::Xor2
            | Rule::NotXor1
            | Rule::NotXor2
            | Rule::Implies
            | Rule::NotImplies1 => Kind::Judged(Family::Clausal),
            Rule::NotImplies2 | Rule::Equiv1 | Rule::Equiv2 | Rule::NotEquiv1 | Rule::NotEquiv2 =>
                Kind::Judged(Family::Clausal),
            Rule::Contraction | Rule::Reordering | Rule::Weakening | Rule::Tautology =>
                Kind::Judged(Family::Clausal),
            Rule::Resolution | Rule::ThResolution => Kind::Judged(Family::Resolution),
            Rule::Symm
            | Rule::NotSymm
            | Rule::Trans
            | Rule::Cong
            | Rule::EqReflexive
            | Rule::EqSymmetric
            | Rule::EqTransitive
            | Rule::EqCongruent
            | Rule::EqCongruentPred => Kind::Judged(Family::Congruence),
            Rule::Refl => Kind::Judged(Family::Refl),
            Rule::ItePos1
            | Rule::ItePos2
            | Rule::IteNeg1
            | Rule::IteNeg2
            | Rule::Ite1
            | Rule::Ite2
            | Rule::NotIte1
            | Rule::NotIte2
            | Rule::ConnectiveDef
            | Rule::IteIntro
            | Rule::DistinctElim => Kind::Judged(Family::Ite),
            Rule::NotSimplify
            | Rule::ImpliesSimplify
            | Rule::EquivSimplify
            | Rule::BoolSimplify
            | Rule::IteSimplify
            | Rule::EqSimplify
            | Rule::CompSimplify
            | Rule::AndSimplify
            | Rule::OrSimplify => Kind::Judged(Family::Simplify),
            Rule::LaGeneric
            | Rule::LaDisequality
            | Rule::LaTotality
            | Rule::LaRwEq
            | Rule::SumSimplify
            | Rule::ProdSimplify
            | Rule::MinusSimplify
            | Rule::UnaryMinusSimplify => Kind::Judged(Family::Arith),
            Rule::Subproof | Rule::Let => Kind::Judged(Family::Subproof),
        }
    }
}
