//! Leaves by their numbers, and the leaves of operators, numerals and variables.
ghost use Rattle.std.specs.Prelude.{◌≡◌, ◌+◌, ◌<◌, ◌^◌, ◌⊎◌, ◌++◌, [], ◌∷◌, ℕ, List, false, pos, ◌≤ℤ◌, length, slice_get, Some, IfOk, OnErr, IsSomeAnd};
ghost use Rattle.sym_table.specs.Leaf.{operator, numeral, variable, kind_of, name_of, first_leaves};
ghost use Rattle.sym_table.specs.Table.{IsLeaf, LeafMeets, IsFunctionLeaf, IsFun, FindsOrAdds, Keeps, functions_before};

use super::{FIRST_LEAVES, Symbols};
use crate::cells::Symbol;
use crate::faults::Memory;
use crate::kind::Kind;
use crate::names;
use term_model::{Op, Sort};

impl Symbols {
    /// The leaf of an operator, which is the same in every table.
    pub fn operator(&self, op: Op) -> u32
        ensures leaf { IsLeaf self.now result (operator op) }
        ensures same_in_every_table { slice_get first_leaves result ≡ Some (operator op) }
    {
        let _leaves = &self.leaves;
        operator_leaf(op)
    }

    /// The leaf of a numeral: the one that is there, or a new one. After a refusal the table is as before.
    pub fn numeral(&mut self, n: i128) -> Result<u32, Memory>
        requires not_negative { pos 0 ≤ℤ n }
        requires room { length self.old.leaves < 2 ^ 30 }
        ensures leaf { IfOk result (λ leaf. IsLeaf self.new leaf (numeral n)) }
        ensures found_or_new { IfOk result (λ leaf. FindsOrAdds self.old self.new leaf (numeral n)) }
        ensures refused { OnErr result (self.new ≡ self.old) }
        ensures keeps { Keeps self.old self.new }
    {
        let place = self.leaves.find_or_add(Symbol::Numeral(n))?;
        Ok(FIRST_LEAVES + place as u32)
    }

    /// The leaf of a variable, which is a name with a sort: the one that is there, or a new one. After a refusal
    /// the table is as before.
    pub fn variable(&mut self, name: &[u8], sort: Sort) -> Result<u32, Memory>
        requires { length self.old.leaves < 2 ^ 30 }
        ensures leaf { IfOk result (λ leaf. IsLeaf self.new leaf (variable name.now sort)) }
        ensures found_or_new { IfOk result (λ leaf. FindsOrAdds self.old self.new leaf (variable name.now sort)) }
        ensures refused { OnErr result (self.new ≡ self.old) }
        ensures keeps { Keeps self.old self.new }
    {
        let number = names::find_or_add(&mut self.variable_names, name)?;
        let place = self.leaves.find_or_add(Symbol::Variable(number, sort))?;
        Ok(FIRST_LEAVES + place as u32)
    }

    /// Whether a variable may have a leaf here. Where none may, no term over the table has a variable in it.
    ///
    /// It may say so where none has one, after a refusal.
    pub fn may_have_variables(&self) -> bool
        ensures { result ≡ false → (leaf : ℕ) (name : List ℕ) (sort : Sort) → IsLeaf self.now leaf (variable name sort) → ⊥ }
    {
        let _leaves = &self.leaves;
        self.variable_names.len() > 0
    }

    /// The kind of a leaf.
    pub fn kind(&self, leaf: u32) -> Kind
        requires { leaf < length self.now.leaves }
        ensures kind { LeafMeets self.now leaf (λ l. result ≡ kind_of (functions_before self.now leaf) l) }
        ensures function { IsFun result → IsFunctionLeaf self.now leaf }
    {
        let keys = self.leaves.as_slice();
        if leaf < FIRST_LEAVES {
            return first_kind(leaf);
        }
        match &keys[(leaf - FIRST_LEAVES) as usize] {
            Symbol::Function(number) => Kind::Fun(*number as u32),
            Symbol::Variable(_, sort) => Kind::Var(*sort),
            Symbol::Numeral(n) => Kind::Num(*n),
        }
    }

    /// The name of a leaf: that of a function or a variable, the symbol of an operator, `let` for the head of a
    /// let, and nothing for nil and for a numeral.
    pub fn name(&self, leaf: u32) -> &[u8]
        requires { leaf < length self.now.leaves }
        ensures { LeafMeets self.now leaf (λ l. result.now ≡ name_of l) }
    {
        let keys = self.leaves.as_slice();
        if leaf < FIRST_LEAVES {
            return first_name(leaf);
        }
        match &keys[(leaf - FIRST_LEAVES) as usize] {
            Symbol::Function(number) => self.function_names.name(*number),
            Symbol::Variable(number, _) => self.variable_names.name(*number),
            Symbol::Numeral(_) => b"",
        }
    }
}

static FIRST_KINDS: [Kind; 21] = [
    Kind::Nil,
    Kind::Let,
    Kind::Op(Op::True),
    Kind::Op(Op::False),
    Kind::Op(Op::Not),
    Kind::Op(Op::Implies),
    Kind::Op(Op::And),
    Kind::Op(Op::Or),
    Kind::Op(Op::Xor),
    Kind::Op(Op::Equal),
    Kind::Op(Op::Distinct),
    Kind::Op(Op::Ite),
    Kind::Op(Op::Minus),
    Kind::Op(Op::Plus),
    Kind::Op(Op::Times),
    Kind::Op(Op::Div),
    Kind::Op(Op::Mod),
    Kind::Op(Op::LessEq),
    Kind::Op(Op::Less),
    Kind::Op(Op::GreaterEq),
    Kind::Op(Op::Greater),
];

static FIRST_NAMES: [&[u8]; 21] = [
    b"",
    b"let",
    b"true",
    b"false",
    b"not",
    b"=>",
    b"and",
    b"or",
    b"xor",
    b"=",
    b"distinct",
    b"ite",
    b"-",
    b"+",
    b"*",
    b"div",
    b"mod",
    b"<=",
    b"<",
    b">=",
    b">",
];

// The kind of one of the first leaves.
fn first_kind(leaf: u32) -> Kind
    requires { leaf < 21 }
    ensures { IsSomeAnd (slice_get first_leaves leaf) (λ l. result ≡ kind_of 0 l) }
{
    FIRST_KINDS[leaf as usize]
}

// The name of one of the first leaves.
fn first_name(leaf: u32) -> &'static [u8]
    requires { leaf < 21 }
    ensures { IsSomeAnd (slice_get first_leaves leaf) (λ l. result.now ≡ name_of l) }
{
    FIRST_NAMES[leaf as usize]
}

// The place of an operator among the first leaves.
fn operator_leaf(op: Op) -> u32
    ensures { slice_get first_leaves result ≡ Some (operator op) }
{
    2 + op as u32
}
