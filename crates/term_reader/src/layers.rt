//! What a node in a term's place spells, as far as its top goes.
ghost use Rattle.std.specs.Prelude.{◌≡◌, ◌+◌, ◌<◌, length, true, false, Some, None, IfSome};
ghost use Rattle.sexpr.specs.Items.{place_of, symbol_name};
ghost use Rattle.sexpr.specs.Words.{is_symbol, is_numeral};
ghost use Rattle.problem_text.specs.Forms as spec;
ghost use Rattle.problem_text.specs.Forms.{form_of, forms_of, binds_of};
ghost use Rattle.problem_text.specs.Words.{is_among, left_out_words};
ghost use Rattle.term_reader.specs.ShapeFaults.{IsLayer};
ghost use Rattle.text_items.specs.Stepping.{AreInside, name_in};
ghost use Rattle.text_items.specs.ItemsAt.{item_at};
ghost use Rattle.term_reader.specs.Shapes.{IsApplied, arguments_of, others_of, applied_form};
ghost use Rattle.term_reader.specs.ShapeFaults.{IsSymbolLayer, IsTokenLayer, is_numeral_kind, cause_of_kind, IsHeadFault};
ghost use Rattle.text_items.specs.Spelling.{is_list_item};

use crate::attributes::annotation_fault;
use crate::let_shapes::let_fault;
use sexpr::{Cause, Refusal, TokenKind, WordKind, word_kind};
use text_items::nodes::ItemText;
use text_items::numerals::numeral;
use text_items::shapes::{is_list, name_at, place_at, second};

/// The top of a form. Nodes are told by their places in the list of nodes.
#[derive(Clone, Copy)]
pub(crate) enum Layer {
    /// No term has this spelling or shape.
    Faulty(Refusal),
    /// A numeral that is at most 2^127 - 1.
    Number(i128),
    /// The node is a symbol.
    Symbol,
    /// The node is a list. Its head is a symbol at `head`, and one or more arguments stand from `first` to before `end`.
    Application {
        head: usize,
        first: usize,
        end: usize,
    },
    /// The node is a let. The pairs of its bindings stand from `first` to before `body`, where its body stands.
    Let {
        first: usize,
        body: usize,
    },
    /// The node is an annotated term. Its term stands at `term`, and one or more attributes from `first` to before `end`.
    Annotated {
        term: usize,
        first: usize,
        end: usize,
    },
}

/// The top of the form that the item at a node spells (SMT-LIB 2.6, "Terms and Formulas").
///
/// A list costs as much as its items are, and a let also what the items of its bindings are, but nothing below them. No
/// memory is taken.
pub(crate) fn layer_at(items: &ItemText<'_, '_>, k: usize) -> Layer
    requires there { k < length items.now.nodes }
    requires inside { AreInside items.now }
    ensures { IsLayer items.now k result (form_of (item_at items.now k)) }
{
    if is_list(items, k) {
        return list_layer(items, k);
    }
    match name_at(items, k) {
        Some(name) => symbol_layer(name, place_at(items, k)),
        None => token_layer(items, k),
    }
}

/// The name of the symbol at a node, where its top is one: where the item is a symbol, and its name is not left out.
#[inline(always)]
pub(crate) fn symbol_at<'t>(items: &ItemText<'_, 't>, k: usize) -> Option<&'t [u8]>
    requires there { k < length items.now.nodes }
    requires inside { AreInside items.now }
    ensures { IfSome result (λ name. IsLayer items.now k Layer.Symbol (form_of (item_at items.now k)) × (name.now ≡ (name_in items.now k).name)) }
{
    let Some(name) = name_at(items, k) else {
        return None;
    };
    if is_left_out(name) {
        return None;
    }
    Some(name)
}

/// The top of a symbol that stands at `place`.
fn symbol_layer(name: &[u8], place: u64) -> Layer
    ensures { IsSymbolLayer place name.now result (spec.symbol_form (record { place = place; name = name.now })) }
{
    if is_left_out(name) {
        faulty(Cause::LeftOut, place)
    } else {
        Layer::Symbol
    }
}

/// The top of a token that is neither a symbol nor a bracket.
fn token_layer(items: &ItemText<'_, '_>, k: usize) -> Layer
    requires there { k < length items.now.nodes }
    requires alone { is_list_item (item_at items.now k) ≡ false }
    requires unnamed { symbol_name (item_at items.now k) ≡ None }
    ensures { IsTokenLayer (place_of (item_at items.now k)) result (form_of (item_at items.now k)) }
{
    let token = items.node(k).token;
    match token.kind {
        TokenKind::Word => word_layer(items.spelling(&token), token.start),
        _ => faulty(Cause::LeftOut, token.start),
    }
}

/// The top of a word that is no symbol and stands at `place`.
fn word_layer(word: &[u8], place: u64) -> Layer
    requires some { 0 < length word.now }
    requires other { is_symbol word.now ≡ false }
    ensures { IsTokenLayer place result (spec.word_form place word.now) }
{
    let kind = word_kind(word);
    if is_number(kind) {
        number_layer(word, place)
    } else {
        faulty(cause_of(kind), place)
    }
}

/// Whether a word of this kind is a numeral.
fn is_number(kind: Option<WordKind>) -> bool
    ensures { result ≡ is_numeral_kind kind }
{
    matches!(kind, Some(WordKind::Numeral))
}

/// Why a word of this kind, which is neither a numeral nor a symbol, is no term.
fn cause_of(kind: Option<WordKind>) -> Cause
    ensures { result ≡ cause_of_kind kind }
{
    match kind {
        Some(WordKind::BitLiteral | WordKind::Decimal) => Cause::LeftOut,
        _ => Cause::BadCommand,
    }
}

/// The top of a numeral that stands at `place`.
fn number_layer(digits: &[u8], place: u64) -> Layer
    requires { is_numeral digits.now ≡ true }
    ensures { IsTokenLayer place result (spec.number_form place digits.now) }
{
    match numeral(digits) {
        Some(value) => Layer::Number(value),
        None => faulty(Cause::WideNumber, place),
    }
}

/// The top of a list.
fn list_layer(items: &ItemText<'_, '_>, k: usize) -> Layer
    requires there { k < length items.now.nodes }
    requires is { is_list_item (item_at items.now k) ≡ true }
    requires inside { AreInside items.now }
    ensures { IsLayer items.now k result (form_of (item_at items.now k)) }
{
    let list = items.node(k);
    let Some(first) = second(items, k + 1, list.next) else {
        return faulty(Cause::BadCommand, list.token.start);
    };
    let Some(name) = name_at(items, k + 1) else {
        return head_fault(items, k + 1);
    };
    symbol_list_layer(items, k, first, name)
}

/// The fault of a head that is no symbol.
fn head_fault(items: &ItemText<'_, '_>, head: usize) -> Layer
    requires { head < length items.now.nodes }
    ensures { IsHeadFault result (item_at items.now head) }
{
    let place = place_at(items, head);
    if is_list(items, head) {
        faulty(Cause::LeftOut, place)
    } else {
        faulty(Cause::BadCommand, place)
    }
}

/// The top of a list whose head is the symbol of this name, with arguments from `first` on.
fn symbol_list_layer(items: &ItemText<'_, '_>, k: usize, first: usize, name: &[u8]) -> Layer
    requires applied { IsApplied items.now k first }
    requires named { symbol_name (item_at items.now (k + 1)) ≡ Some name.now }
    requires inside { AreInside items.now }
    ensures { IsLayer items.now k result (applied_form items.now k first) }
{
    match name {
        b"let" => let_layer(items, k, first),
        b"!" => annotation_layer(items, k, first),
        _ if is_left_out(name) => faulty(Cause::LeftOut, place_at(items, k + 1)),
        _ => Layer::Application {
            head: k + 1,
            first,
            end: items.node(k).next,
        },
    }
}

/// The top of a let, whose list of bindings is to stand at `first`.
fn let_layer(items: &ItemText<'_, '_>, k: usize, first: usize) -> Layer
    requires applied { IsApplied items.now k first }
    requires inside { AreInside items.now }
    ensures { IsLayer items.now k result (spec.unless_faulty (spec.let_fault (place_of (item_at items.now k)) (arguments_of items.now k first))
        (spec.let_form (place_of (item_at items.now k)) (binds_of (item_at items.now first)) (spec.first_form (forms_of (others_of items.now k first))))) }
{
    let list = items.node(k);
    if let Some(at) = let_fault(items, list.token.start, first, list.next) {
        return faulty(Cause::BadCommand, at);
    }
    let body = items.node(first).next;
    Layer::Let {
        first: first + 1,
        body,
    }
}

/// The top of an annotated term, which is to stand at `first`.
fn annotation_layer(items: &ItemText<'_, '_>, k: usize, first: usize) -> Layer
    requires applied { IsApplied items.now k first }
    requires inside { AreInside items.now }
    ensures { IsLayer items.now k result (spec.unless_faulty (spec.annotation_fault (place_of (item_at items.now k)) (arguments_of items.now k first))
        (spec.annotated (place_of (item_at items.now k)) (form_of (item_at items.now first)) (spec.names_given (arguments_of items.now k first)))) }
{
    let list = items.node(k);
    if let Some(at) = annotation_fault(items, list.token.start, first, list.next) {
        return faulty(Cause::BadCommand, at);
    }
    let attributes = items.node(first).next;
    Layer::Annotated {
        term: first,
        first: attributes,
        end: list.next,
    }
}

fn faulty(cause: Cause, at: u64) -> Layer
    ensures { result ≡ Layer.Faulty (record { cause = cause; at = at }) }
{
    Layer::Faulty(Refusal { cause, at })
}

/// Whether a symbol of this name is left out: binders other than let, matching, indexed and qualified names, and the rest of
/// Ints and Reals_Ints.
///
/// This is asked of every symbol. So it is a match, which compares a name with words of its own length alone, and no call.
#[inline(always)]
fn is_left_out(name: &[u8]) -> bool
    ensures { result ≡ is_among left_out_words name.now }
{
    matches!(
        name,
        b"forall"
            | b"exists"
            | b"choice"
            | b"lambda"
            | b"match"
            | b"_"
            | b"as"
            | b"abs"
            | b"/"
            | b"to_real"
            | b"to_int"
            | b"is_int"
            | b"divisible"
    )
}
