//! The attributes that most steps have: a rule, and at most one list behind it.
ghost use Rattle.std.specs.Prelude.{◌≡◌, ◌<◌, ◌≤◌, ℕ, length, true, None, IfSome};
ghost use Rattle.text_items.specs.ItemsAt.{item_at, items_at};
ghost use Rattle.text_items.specs.Keywords as keywords;
ghost use Rattle.alethe_text.specs.Commands as shape;
ghost use Rattle.alethe_commands.specs.UsualAttributes as spec;
ghost use Rattle.alethe_commands.specs.UsualAttributes.{IsOneList};

use crate::attributes::{AttributeWord, word_at};
use text_items::keywords::{list_fault, symbol_list_fault};
use text_items::nodes::ItemText;
use text_items::shapes::symbol_fault;

/// Whether the attributes that stand from `first` to before `end` are a rule and at most one list behind it. Such attributes
/// have no fault, and most steps have them; of others nothing is told.
pub(crate) fn are_usual(items: &ItemText<'_, '_>, first: usize, end: usize) -> bool
    requires { end ≤ length items.now.nodes }
    ensures { result ≡ true → (place : ℕ) → keywords.attributes_fault shape.step_keywords place (items_at items.now first end) ≡ None }
{
    if first >= end {
        return false;
    }
    let name = items.node(first).next;
    if name >= end {
        return false;
    }
    match attribute_word(items, first, name) {
        Some(AttributeWord::Rule) => {
            let behind = items.node(name).next;
            behind >= end || is_one_list(items, behind, end)
        }
        _ => false,
    }
}

/// Whether the items from node `k` to before `end`, of which there is one or more, are the keyword of another attribute and the
/// list that it wants.
fn is_one_list(items: &ItemText<'_, '_>, k: usize, end: usize) -> bool
    requires inside { end ≤ length items.now.nodes }
    requires some { k < end }
    ensures { result ≡ true → IsOneList (items_at items.now k end) }
{
    let list = items.node(k).next;
    if list >= end || items.node(list).next < end {
        return false;
    }
    match attribute_word(items, k, list) {
        Some(word) => !is_rule(word),
        None => false,
    }
}

fn is_rule(word: AttributeWord) -> bool
    ensures { result ≡ spec.is_rule word }
{
    matches!(word, AttributeWord::Rule)
}

/// What the keyword at node `k` asks for, where the item at node `value` is what has to stand behind it.
fn attribute_word(items: &ItemText<'_, '_>, k: usize, value: usize) -> Option<AttributeWord>
    requires keyword { k < length items.now.nodes }
    requires value { value < length items.now.nodes }
    ensures { IfSome result (λ w. spec.IsAttribute w (item_at items.now k) (item_at items.now value)) }
{
    let word = word_at(items, k)?;
    match wanted_fault(items, word, value) {
        None => Some(word),
        Some(_) => None,
    }
}

/// The fault of the item at a node, where this word wants one.
fn wanted_fault(items: &ItemText<'_, '_>, word: AttributeWord, k: usize) -> Option<u64>
    requires { k < length items.now.nodes }
    ensures { result ≡ keywords.wanted_fault (spec.wants word) (item_at items.now k) }
{
    match word {
        AttributeWord::Rule => symbol_fault(items, k),
        AttributeWord::Premises | AttributeWord::Discharge => symbol_list_fault(items, k),
        AttributeWord::Arguments => list_fault(items, k),
    }
}
