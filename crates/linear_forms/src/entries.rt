//! Entries of terms and lists: their nodes over those of their parts, and what is known of them.

ghost use Rattle.std.specs.Prelude.{◌≡◌, ◌+◌, ◌<◌, ◌≤◌, ◌^◌, neg_ℤ, unsigned_abs, length};
ghost use Rattle.sym_table.specs.Table.{LeafMeets};
ghost use Rattle.linear_forms.specs.Infos.{CanJoin};
ghost use Rattle.linear_forms.specs.Entries as spec;

use crate::infos::{LIMIT, capped_sum, joined};
use crate::nodes::{Factors, Info, Node, Part};
use pair_pool::Ref;
use sym_table::{Kind, Symbols};
use term_model::Op;

/// A node, with what is known of it.
#[derive(Clone, Copy)]
pub(crate) struct Entry {
    pub(crate) node: Node,
    pub(crate) info: Info,
}

/// What has been met, by its number.
#[derive(Clone, Copy)]
pub(crate) struct Found {
    pub(crate) number: usize,
    pub(crate) info: Info,
}

/// The heads that count in a linear form.
#[derive(Clone, Copy)]
pub(crate) enum Head {
    Plus,
    Minus,
    Times,
    /// Any other.
    Other,
}

fn once(node: usize) -> Part
    ensures { result ≡ spec.once node }
{
    Part { times: 1, node }
}

fn less(node: usize) -> Part
    ensures { result ≡ spec.taken_away node }
{
    Part { times: -1, node }
}

/// What is known of a term that is no constant.
fn term_info(weight: u128, own: usize) -> Info
    ensures { result ≡ spec.term_info weight own }
{
    Info {
        sum: weight,
        product: weight,
        factors: Factors::Single(once(own)),
    }
}

/// A constant: a numeral, or `(- n)` of one.
fn constant_entry(n: i128) -> Entry
    ensures { result ≡ spec.constant_entry n }
{
    let weight = n.unsigned_abs().max(1).min(LIMIT);
    Entry {
        node: Node::Number(n),
        info: Info {
            sum: weight,
            product: weight,
            factors: Factors::Constants(n),
        },
    }
}

/// The negation of a numeral.
pub(crate) fn negated_numeral(n: i128) -> Entry
    requires { unsigned_abs n < 2 ^ 127 }
    ensures { result ≡ spec.constant_entry (neg_ℤ n) }
{
    constant_entry(-n)
}

/// A number that is no constant by its form.
fn number_entry(n: i128, own: usize) -> Entry
    ensures { result ≡ spec.number_entry n own }
{
    Entry {
        node: Node::Number(n),
        info: term_info(1, own),
    }
}

/// An opaque term.
pub(crate) fn opaque_entry(r: Ref, own: usize) -> Entry
    ensures { result ≡ spec.opaque_entry r own }
{
    Entry {
        node: Node::Opaque(r),
        info: term_info(1, own),
    }
}

/// A sum, by what is known of its arguments.
pub(crate) fn sum_entry(list: Found, own: usize) -> Entry
    ensures { result ≡ spec.sum_entry list own }
{
    Entry {
        node: Node::Multiple(once(list.number)),
        info: term_info(list.info.sum, own),
    }
}

/// A negation.
pub(crate) fn negated_entry(term: Found, own: usize) -> Entry
    ensures { result ≡ spec.negated_entry term own }
{
    Entry {
        node: Node::Multiple(less(term.number)),
        info: term_info(term.info.sum, own),
    }
}

/// A difference of two terms or more: the first one less the sum of the others.
pub(crate) fn difference_entry(first: Found, rest: Found, own: usize) -> Entry
    ensures { result ≡ spec.difference_entry first rest own }
{
    Entry {
        node: Node::Sum(once(first.number), less(rest.number)),
        info: term_info(capped_sum(first.info.sum, rest.info.sum), own),
    }
}

/// A product, which is opaque where more than one of its factors is no constant.
pub(crate) fn product_entry(r: Ref, list: Info, own: usize) -> Entry
    ensures { result ≡ spec.product_entry r list.factors list.product own }
{
    match list.factors {
        Factors::Constants(n) => Entry {
            node: Node::Number(n),
            info: term_info(list.product, own),
        },
        Factors::Single(part) => Entry {
            node: Node::Multiple(part),
            info: term_info(list.product, own),
        },
        Factors::Many => opaque_entry(r, own),
    }
}

/// A list of one term.
pub(crate) fn single_entry(term: Found) -> Entry
    ensures { result ≡ spec.single_entry term }
{
    Entry {
        node: Node::Multiple(once(term.number)),
        info: term.info,
    }
}

/// A list of two terms or more.
pub(crate) fn pair_entry(first: Found, rest: Found) -> Entry
    requires { CanJoin first.info rest.info }
    ensures { result ≡ spec.pair_entry first rest }
{
    Entry {
        node: Node::Sum(once(first.number), once(rest.number)),
        info: joined(first.info, rest.info),
    }
}

/// A leaf: a numeral, an operator without arguments, or an opaque term.
pub(crate) fn leaf_entry(symbols: &Symbols, r: Ref, own: usize) -> Entry
    requires { r < length symbols.now.leaves }
    ensures { LeafMeets symbols.now r (λ l. result ≡ spec.leaf_entry l r own) }
{
    match symbols.kind(r.number()) {
        Kind::Num(n) => constant_entry(n),
        Kind::Op(Op::Plus) | Kind::Op(Op::Minus) => number_entry(0, own),
        Kind::Op(Op::Times) => number_entry(1, own),
        _ => opaque_entry(r, own),
    }
}

/// The number of a leaf that is a numeral.
pub(crate) fn leaf_numeral(symbols: &Symbols, leaf: u32) -> Option<i128>
    requires { leaf < length symbols.now.leaves }
    ensures { LeafMeets symbols.now leaf (λ l. result ≡ spec.leaf_numeral l) }
{
    match symbols.kind(leaf) {
        Kind::Num(n) => Some(n),
        _ => None,
    }
}

/// What a leaf is as the head of an application.
pub(crate) fn head_of(symbols: &Symbols, leaf: u32) -> Head
    requires { leaf < length symbols.now.leaves }
    ensures { LeafMeets symbols.now leaf (λ l. result ≡ spec.head_of l) }
{
    match symbols.kind(leaf) {
        Kind::Op(Op::Plus) => Head::Plus,
        Kind::Op(Op::Minus) => Head::Minus,
        Kind::Op(Op::Times) => Head::Times,
        _ => Head::Other,
    }
}
