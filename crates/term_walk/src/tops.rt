//! What a term is at its top.
ghost use Rattle.std.specs.Prelude.{◌≡◌};
ghost use Rattle.term_model.specs.Terms.{Term};
ghost use Rattle.term_pool.specs.Views.{IsTerm, RefersTo};
ghost use Rattle.term_walk.specs.Walks.{IsTop, HasLeaf};

use pair_pool::Ref;
use sym_table::Symbols;
use term_pool::Terms;

/// The leaf of the head of a let.
const LET: u32 = 1;

/// What a term is at its top.
#[derive(Clone, Copy, Debug, PartialEq, Eq)]
pub enum Top {
    /// A numeral, a variable, or a symbol without arguments, by its leaf.
    Leaf(u32),
    /// An application, by the leaf of its head and the reference of the list of its arguments, of which there are some.
    Application(u32, Ref),
    /// A let, by the references of the list of its bindings and of its body.
    Let(Ref, Ref),
}

/// What a term is at its top. Loads one cell, or two of a let.
pub fn top_of(symbols: &Symbols, terms: &mut Terms<'_>, r: Ref) -> Top
    requires { IsTerm symbols.now terms.old r }
    ensures top { (t : Term) → RefersTo symbols.now terms.old r t → IsTop symbols.now terms.old r result t }
    ensures leaf { HasLeaf symbols.now result }
    ensures same { terms.new ≡ terms.old }
{
    terms.one_to_one();
    terms.parts_of_trees();
    symbols.leaves_differ();
    if r.is_leaf() {
        return Top::Leaf(r.number());
    }
    let (head, rest) = terms.cell_parts(r);
    let leaf = head.number();
    if leaf != LET {
        return Top::Application(leaf, rest);
    }
    let (list, body) = terms.cell_parts(rest);
    Top::Let(list, body)
}
