//! What a term is at its top.

ghost use Rattle.std.specs.Prelude.{◌≡◌, ℕ, ◌<◌, length};
ghost use Rattle.pair_pool.specs.Trees.{Tree, leaf, cell};
ghost use Rattle.pair_pool.specs.Views.{IsPassOf, Knows};
ghost use Rattle.sym_table.specs.Leaf.{Leaf};
ghost use Rattle.sym_table.specs.Table.{IsLeaf};
ghost use Rattle.term_pool.specs.CellShapes.{leaf_shape, cell_shape, IsTermCell};

use crate::build::LET;
use crate::lists::{length, parts};
use pair_pool::{Pass, Pool, Ref};
use sym_table::{Kind, Symbols};

/// The shape of a term.
#[derive(Clone, Copy, Debug, PartialEq, Eq)]
pub enum Shape {
    /// A numeral.
    Num(i128),
    /// A variable, with its leaf.
    Var(u32),
    /// An application: the leaf of its head, and how many arguments it has.
    App { head: u32, count: u32 },
    /// A let, and how many bindings it has.
    LetTerm { count: u32 },
}

/// The shape of the term that is a leaf.
pub(crate) fn shape_of_leaf(symbols: &Symbols, leaf: u32) -> Shape
    requires { leaf < length symbols.now.leaves }
    ensures { (l : Leaf) → IsLeaf symbols.now leaf l → result ≡ leaf_shape leaf l }
{
    match symbols.kind(leaf) {
        Kind::Num(n) => Shape::Num(n),
        Kind::Var(_) => Shape::Var(leaf),
        _ => Shape::App {
            head: leaf,
            count: 0,
        },
    }
}

/// The shape of the term that is a cell.
pub(crate) fn shape_of_cell(pool: &Pool, pass: &mut Pass, r: Ref) -> Shape
    requires of_pool { IsPassOf pool.now pass.old }
    requires tree { IsTermCell pass.old.view r }
    ensures shape { (k : ℕ) (t : Tree) → Knows pass.old.view r (cell (leaf k) t) → result ≡ cell_shape k t }
    ensures same { pass.new.view ≡ pass.old.view }
    ensures of_pool { IsPassOf pool.now pass.new }
{
    pass.one_to_one();
    pass.parts_of_trees();
    let (head, rest) = parts(pool, pass, r);
    if head.number() == LET {
        let list = parts(pool, pass, rest).0;
        return Shape::LetTerm {
            count: length(pool, pass, list),
        };
    }
    Shape::App {
        head: head.number(),
        count: length(pool, pass, rest),
    }
}
