//! Sorts where they stand in a text (SMT-LIB 2.6, "Sorts").
ghost use Rattle.std.specs.Prelude.{◌≡◌, List, bytes_eq, position, option_copied, OnOk};
ghost use Rattle.sexpr.specs.Form.{HasForm};
ghost use Rattle.sexpr.specs.Items.{Item};
ghost use Rattle.sexpr.specs.Source as at;
ghost use Rattle.sexpr.specs.Tokens.{AreTokens};
ghost use Rattle.sexpr.specs.declared.lexing.Token.{Token};
ghost use Rattle.text_items.specs.Lexers.{IsFirstOfItem, GoesOnWith};
ghost use Rattle.problem_text.specs.Sorts as spec;
ghost use Rattle.problem_text.specs.Sorts.{sort_from};

use sexpr::{Cause, Lexer, Refusal, Token, TokenKind, symbol_name};
use sym_table::Symbols;
use term_model::Sort;
use term_names::words::is_among;
use text_items::refusals::refused;

/// Reads the sort that begins with `first`, the token that the lexer gave last: `Bool`, `Int` or a declared sort.
///
/// The text has to be one of nested items, and `first` no closing bracket. A sort is a symbol, so where one is read
/// it is that token alone, and the lexer stands behind it already. Refused at the token: as left out a list, which
/// would be a sort with parameters, and the names of sorts of other theories, also where one of them is declared;
/// as an unknown name any other symbol; as a bad command what is neither a symbol nor a list. No memory is taken.
pub fn read_sort(lexer: &mut Lexer<'_>, first: Token, symbols: &Symbols) -> Result<Sort, Refusal>
    requires formed { HasForm (at.source lexer.old) }
    requires first { IsFirstOfItem lexer.old first }
    ensures sort { (i : Item) (rest : List Token) → GoesOnWith lexer.old first i rest → result ≡ sort_from symbols.now.sorts i }
    ensures behind { (i : Item) (rest : List Token) → GoesOnWith lexer.old first i rest →
        OnOk result (AreTokens (at.source lexer.new) (at.position lexer.new) rest) }
    ensures source { at.source lexer.new ≡ at.source lexer.old }
{
    match first.kind {
        TokenKind::Open => Err(refused(Cause::LeftOut, first.start)),
        _ => sort_spelled(symbol_name(lexer, &first), first.start, symbols),
    }
}

/// The sort of a symbol that stands at this place, or of what is none.
pub(crate) fn sort_spelled(
    name: Option<&[u8]>,
    place: u64,
    symbols: &Symbols,
) -> Result<Sort, Refusal>
    ensures { result ≡ spec.sort_spelled symbols.now.sorts place (option_copied name.entry) }
{
    match name {
        Some(name) => sort_named(name, place, symbols),
        None => Err(refused(Cause::BadCommand, place)),
    }
}

/// The sort of a name that stands at this place.
fn sort_named(name: &[u8], place: u64, symbols: &Symbols) -> Result<Sort, Refusal>
    ensures { result ≡ spec.sort_named symbols.now.sorts (record { place = place; name = name.now }) }
{
    if name == b"Bool".as_slice() {
        Ok(Sort::Bool)
    } else if name == b"Int".as_slice() {
        Ok(Sort::Int)
    } else if is_among(&LEFT_OUT, name) {
        Err(refused(Cause::LeftOut, place))
    } else {
        declared_sort(name, place, symbols)
    }
}

/// The declared sort of this name.
#[tactic(auto, using(crate::proofs::SortItems::declared_found, crate::proofs::SortItems::declared_nowhere))]
fn declared_sort(name: &[u8], place: u64, symbols: &Symbols) -> Result<Sort, Refusal>
    ensures { result ≡ spec.declared_sort place (position (bytes_eq name.now) symbols.now.sorts) }
{
    // The names of declared sorts differ, which `count` says, so the one that is found is the first of its name.
    symbols.leaves_differ();
    match symbols.find_sort(name) {
        Some(sort) => Ok(sort),
        None => Err(refused(Cause::UnknownName, place)),
    }
}

/// The sorts of other theories: Reals, Strings and ArraysEx.
static LEFT_OUT: [&[u8]; 4] = [b"Real", b"String", b"RegLan", b"Array"];
