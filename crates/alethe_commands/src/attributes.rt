//! The attributes of steps (Alethe specification, "The Syntax"), told by their nodes.
ghost use Rattle.std.specs.Prelude.{◌≡◌, ◌<◌, ◌≤◌, length, Some};
ghost use Rattle.text_items.specs.ItemsAt.{item_at, items_at};
ghost use Rattle.text_items.specs.Keywords as keywords;
ghost use Rattle.alethe_text.specs.Commands as shape;
ghost use Rattle.alethe_text.specs.Steps as steps;
ghost use Rattle.alethe_commands.specs.CommandNodes.{AreAttributesAt, IsNextAttribute};
ghost use Rattle.alethe_commands.specs.CommandShapes as spec;

use crate::usual::are_usual;
use text_items::keywords::{Keyword, Wanted, attributes_fault, keyword_at};
use text_items::nodes::ItemText;
use text_items::shapes::name_of;

/// An attribute of a step that has an effect, by the node of its rule's name, or by those of what stands in its list, from
/// `first` to before `end`.
#[derive(Clone, Copy)]
pub enum StepAttribute {
    Rule(usize),
    Premises { first: usize, end: usize },
    Arguments { first: usize, end: usize },
    Discharge { first: usize, end: usize },
}

/// What an attribute's keyword asks for.
#[derive(Clone, Copy)]
pub(crate) enum AttributeWord {
    Rule,
    Premises,
    Arguments,
    Discharge,
}

const RULE: Keyword<'static> = Keyword {
    spelling: b":rule",
    wants: Wanted::Name,
    once: true,
    needed: true,
};

const PREMISES: Keyword<'static> = Keyword {
    spelling: b":premises",
    wants: Wanted::Names,
    once: true,
    needed: false,
};

const ARGUMENTS: Keyword<'static> = Keyword {
    spelling: b":args",
    wants: Wanted::AnyList,
    once: true,
    needed: false,
};

const DISCHARGE: Keyword<'static> = Keyword {
    spelling: b":discharge",
    wants: Wanted::Names,
    once: true,
    needed: false,
};

static STEP_KEYWORDS: [Keyword<'static>; 4] = [RULE, PREMISES, ARGUMENTS, DISCHARGE];

/// The first fault of a step's attributes, which stand from `first` to before `end`. The step begins at `place`.
pub(crate) fn step_attributes_fault(
    items: &ItemText<'_, '_>,
    place: u64,
    first: usize,
    end: usize,
) -> Option<u64>
    requires { end ≤ length items.now.nodes }
    ensures { result ≡ keywords.attributes_fault shape.step_keywords place (items_at items.now first end) }
{
    if are_usual(items, first, end) {
        return None;
    }
    attributes_fault(items, &STEP_KEYWORDS, place, first, end)
}

/// The next of a step's attributes that stand from `at` to before `end` and have no fault of shape, where there is one. It
/// stands before `at` then, and the others behind. An attribute without effect is passed.
pub fn next_attribute(items: &ItemText<'_, '_>, at: &mut usize, end: usize) -> Option<StepAttribute>
    requires { AreAttributesAt items.now at.old end }
    ensures { IsNextAttribute items.now at.old at.new end result }
{
    let mut k = *at;
    'items: while k < end {
        let value = items.node(k).next;
        match attribute_from(items, k, end) {
            Some(attribute) => {
                *at = items.node(value).next;
                return Some(attribute);
            }
            None => k = value,
        }
    }
    None
}

/// The word of a step's rule, whose attributes stand from `first` to before `end` and have no fault of shape. It is empty where
/// none of them is a rule.
pub fn rule_word<'t>(items: &ItemText<'_, 't>, first: usize, end: usize) -> &'t [u8]
    requires { AreAttributesAt items.now first end }
    ensures { result.now ≡ steps.rule_word (shape.attributes_of (items_at items.now first end)) }
{
    let mut at = first;
    'attributes: while let Some(attribute) = next_attribute(items, &mut at, end) {
        if let Some(rule) = rule_node(attribute) {
            return name_of(items, rule);
        }
    }
    b""
}

/// The node of a rule's name, where the attribute is a rule.
fn rule_node(attribute: StepAttribute) -> Option<usize>
    ensures { result ≡ spec.rule_node attribute }
{
    match attribute {
        StepAttribute::Rule(k) => Some(k),
        _ => None,
    }
}

/// The attribute that the item at node `k` and the one behind it are, where they are one. The attributes end before `end`.
fn attribute_from(items: &ItemText<'_, '_>, k: usize, end: usize) -> Option<StepAttribute>
    requires some { k < end }
    requires attributes { AreAttributesAt items.now k end }
    ensures { spec.IsAttributeFrom items.now k end result }
{
    let value = items.node(k).next;
    if value >= end {
        return None;
    }
    match word_at(items, k) {
        Some(word) => Some(attribute_at(word, value, items.node(value).next)),
        None => None,
    }
}

/// What the item at a node asks for, where it is the keyword of an attribute that has an effect.
pub(crate) fn word_at(items: &ItemText<'_, '_>, k: usize) -> Option<AttributeWord>
    requires { k < length items.now.nodes }
    ensures { result ≡ spec.attribute_word (keywords.keyword_of (item_at items.now k)) }
{
    match keyword_at(items, k) {
        Some(word) => word_named(word),
        None => None,
    }
}

fn word_named(word: &[u8]) -> Option<AttributeWord>
    ensures { result ≡ spec.attribute_word (Some word.now) }
{
    match word {
        b":rule" => Some(AttributeWord::Rule),
        b":premises" => Some(AttributeWord::Premises),
        b":args" => Some(AttributeWord::Arguments),
        b":discharge" => Some(AttributeWord::Discharge),
        _ => None,
    }
}

/// The attribute of a word, whose value stands from node `k` to before `end`.
fn attribute_at(word: AttributeWord, k: usize, end: usize) -> StepAttribute
    requires { k < end }
    ensures { result ≡ spec.attribute_nodes word k end }
{
    let first = k + 1;
    match word {
        AttributeWord::Rule => StepAttribute::Rule(k),
        AttributeWord::Premises => StepAttribute::Premises { first, end },
        AttributeWord::Arguments => StepAttribute::Arguments { first, end },
        AttributeWord::Discharge => StepAttribute::Discharge { first, end },
    }
}
