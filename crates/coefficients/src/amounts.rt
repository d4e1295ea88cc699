//! One coefficient, told by its nodes.
ghost use Rattle.std.specs.Prelude.{◌≡◌, ◌<◌, length, option_map};
ghost use Rattle.sexpr.specs.Items.{place_of};
ghost use Rattle.text_items.specs.ItemShapes.{items_of};
ghost use Rattle.text_items.specs.ItemsAt.{item_at};
ghost use Rattle.alethe_text.specs.Coefficients as spec;
ghost use Rattle.coefficients.specs.Amounts.{IsFigureFound, IsAmountFound, ratio_spelled, quotient_among, divided, with_minus, read_as};

use crate::figures::{Figure, behind, figure_spelled, is_zero, position_of, ratio_parts};
use crate::fractions::Pair;
use crate::judging::read_amount;
use crate::shapes::{is_symbol, opposite, three};
use proof_store::Ratio;
use sexpr::{Refusal, TokenKind, WordKind, word_kind};
use text_items::nodes::ItemText;
use text_items::shapes::is_list;

/// A number or a ratio of numerals, at a place; or a quotient of two numbers, the first with its sign, and the place of its
/// bracket. The parts of the first are None where one is above 2^127 - 1.
#[derive(Clone, Copy)]
pub(crate) enum Amount {
    Plain {
        place: u64,
        parts: Option<Pair>,
    },
    Quotient {
        place: u64,
        negative: bool,
        num: Figure,
        den: Figure,
    },
}

/// The coefficient at a node, and None of what is none.
#[tactic(auto, unfolding(alethe_text::specs::Coefficients::coefficient_of))]
pub(crate) fn coefficient_at(items: &ItemText<'_, '_>, k: usize) -> Result<Option<Ratio>, Refusal>
    requires { k < length items.now.nodes }
    ensures { read_as result ≡ spec.coefficient_read (spec.coefficient_of (item_at items.now k)) }
{
    let Some(inside) = opposite(items, k) else {
        return amount_read(items, false, k);
    };
    amount_read(items, true, inside)
}

/// The coefficient that the amount at a node is with this sign, and None of what is no amount.
fn amount_read(items: &ItemText<'_, '_>, negative: bool, k: usize) -> Result<Option<Ratio>, Refusal>
    requires { k < length items.now.nodes }
    ensures { read_as result ≡ spec.coefficient_read (with_minus negative (spec.amount_of (item_at items.now k))) }
{
    let Some(amount) = amount_at(items, k) else {
        return Ok(None);
    };
    let ratio = read_amount(negative, amount)?;
    Ok(Some(ratio))
}

/// The amount at a node, and None of what is none.
fn amount_at(items: &ItemText<'_, '_>, k: usize) -> Option<Amount>
    requires { k < length items.now.nodes }
    ensures { IsAmountFound result (spec.amount_of (item_at items.now k)) }
{
    let token = items.node(k).token;
    if is_list(items, k) {
        return quotient_at(items, k);
    }
    match token.kind {
        TokenKind::Word => amount_spelled(token.start, items.spelling(&token)),
        _ => None,
    }
}

/// The amount that a word spells.
fn amount_spelled(place: u64, word: &[u8]) -> Option<Amount>
    ensures { IsAmountFound result (spec.amount_spelled place word.now) }
{
    let kind = word_kind(word)?;
    match kind {
        WordKind::Ratio => ratio_amount(place, word),
        _ => figure_amount(place, word),
    }
}

/// The amount that a numeral or a decimal is, and None of a word that is none.
#[tactic(auto, using(crate::proofs::AmountLemmas::plain_figure))]
fn figure_amount(place: u64, word: &[u8]) -> Option<Amount>
    ensures { IsAmountFound result (option_map spec.figure (spec.figure_spelled place word.now)) }
{
    let figure = figure_spelled(place, word)?;
    Some(Amount::Plain {
        place: figure.place,
        parts: figure.parts,
    })
}

/// The amount that a ratio of two numerals spells, of which the second is not 0.
fn ratio_amount(place: u64, word: &[u8]) -> Option<Amount>
    ensures { IsAmountFound result (ratio_spelled place word.now) }
{
    let slash = position_of(word, b'/');
    let below = behind(word, slash);
    if is_zero(below) {
        return None;
    }
    let parts = ratio_parts(&word[..slash], below);
    Some(Amount::Plain { place, parts })
}

/// The quotient `(/ n d)` at the node of an item, by what stands in it.
fn quotient_at(items: &ItemText<'_, '_>, k: usize) -> Option<Amount>
    requires { k < length items.now.nodes }
    ensures { IsAmountFound result (quotient_among (place_of (item_at items.now k)) (items_of (item_at items.now k))) }
{
    let list = items.node(k);
    let place = list.token.start;
    let places = three(items, k + 1, list.next)?;
    if !is_symbol(items, b"/", k + 1) {
        return None;
    }
    let Some(inside) = opposite(items, places.second) else {
        return divided(items, place, false, places.second, places.third);
    };
    divided(items, place, true, inside, places.third)
}

/// The quotient of the figures at two nodes, with a sign before the first; None where one is none, or the second is 0.
#[tactic(auto, using(crate::proofs::AmountLemmas::quotient_made))]
fn divided(
    items: &ItemText<'_, '_>,
    place: u64,
    negative: bool,
    above: usize,
    below: usize,
) -> Option<Amount>
    requires above { above < length items.now.nodes }
    requires below { below < length items.now.nodes }
    ensures { IsAmountFound result (divided place negative (item_at items.now above) (item_at items.now below)) }
{
    let num = figure_at(items, above)?;
    let den = figure_at(items, below)?;
    if den.is_zero {
        return None;
    }
    Some(Amount::Quotient {
        place,
        negative,
        num,
        den,
    })
}

/// The figure at a node, and None of what is none.
fn figure_at(items: &ItemText<'_, '_>, k: usize) -> Option<Figure>
    requires { k < length items.now.nodes }
    ensures { IsFigureFound result (spec.figure_of (item_at items.now k)) }
{
    let token = items.node(k).token;
    match token.kind {
        TokenKind::Word => figure_spelled(token.start, items.spelling(&token)),
        _ => None,
    }
}
