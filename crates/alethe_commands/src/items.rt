//! The commands of a proof's text, one by one (Alethe, "The Proof Format"). They stand by themselves or in one list, perhaps
//! behind the answer of the solver. A list of commands is never read whole.
ghost use Rattle.std.specs.Prelude.{◌≡◌, ◌≤◌, ◌<◌, ◌+◌, length, codes, bytes_eq, unwrap_or, [], IsTrue, IfOk, true, false};
ghost use Rattle.sexpr.specs.Items.{Items, no_items, name_spelled};
ghost use Rattle.sexpr.specs.Source as at;
ghost use Rattle.sexpr.specs.Tokens.{next_token, token_text};
ghost use Rattle.text_items.specs.ItemShapes as shape;
ghost use Rattle.alethe_text.specs.ProofTexts.{behind_answer, unwrapped_commands};
ghost use Rattle.alethe_commands.specs.TextItems.{HasCommandItems, IsItemRead, behind_list};
ghost use Rattle.alethe_commands.specs.Brackets.{is_open, is_close, is_bracket, begins_bracket};

use sexpr::{Lexer, Token, TokenKind, symbol_name};
use std::alloc::AllocError;
use text_items::nodes::{Node, read_item};

/// Whether a token closes a list.
fn is_close(token: Token) -> bool
    ensures { result ≡ is_close token.kind }
{
    token.kind == TokenKind::Close
}

/// Whether a token opens a list.
fn is_open(token: Token) -> bool
    ensures { result ≡ is_open token.kind }
{
    token.kind == TokenKind::Open
}

/// Whether the next token is a bracket.
fn begins_bracket(lexer: Lexer<'_>) -> bool
    ensures { result ≡ begins_bracket (next_token (at.source lexer.entry) (at.position lexer.entry)) }
{
    let mut ahead = lexer;
    match ahead.next() {
        Ok(Some(token)) => is_bracket(token),
        _ => false,
    }
}

/// Whether a token opens or closes a list.
fn is_bracket(token: Token) -> bool
    ensures { result ≡ is_bracket token.kind }
{
    matches!(token.kind, TokenKind::Open | TokenKind::Close)
}

/// Whether a token is the symbol `unsat`.
fn is_answer(text: &Lexer<'_>, token: Token) -> bool
    requires start { token.start ≤ token.end }
    requires within { token.end ≤ length (at.source text.now) }
    ensures { result ≡ bytes_eq (unwrap_or (name_spelled token.kind (token_text (at.source text.now) token)) []) (codes "unsat") }
{
    match symbol_name(text, &token) {
        Some(name) => name == b"unsat".as_slice(),
        None => false,
    }
}

/// Goes behind the answer of the solver, where the text begins with it.
pub fn skip_answer(lexer: &mut Lexer<'_>)
    requires { (items : Items) × HasCommandItems (at.source lexer.old) false (at.position lexer.old) items no_items }
    ensures items { (items : Items) → HasCommandItems (at.source lexer.old) false (at.position lexer.old) items no_items →
        HasCommandItems (at.source lexer.new) false (at.position lexer.new) (behind_answer items) no_items }
    ensures source { at.source lexer.new ≡ at.source lexer.old }
    ensures behind { at.position lexer.old ≤ at.position lexer.new }
    ensures inside { at.position lexer.old ≤ length (at.source lexer.old) → at.position lexer.new ≤ length (at.source lexer.old) }
{
    let mut ahead = *lexer;
    let Ok(found) = ahead.next() else {
        unreachable!()
    };
    if let Some(first) = found {
        if is_answer(&ahead, first) {
            *lexer = ahead;
        }
    }
}

/// Goes into the list of the commands, where they stand in one, and returns whether they do.
pub fn enter_list(lexer: &mut Lexer<'_>) -> bool
    requires { (items : Items) × HasCommandItems (at.source lexer.old) false (at.position lexer.old) items no_items }
    ensures items { (items : Items) → HasCommandItems (at.source lexer.old) false (at.position lexer.old) items no_items →
        HasCommandItems (at.source lexer.new) result (at.position lexer.new) (unwrapped_commands items) (behind_list items) }
    ensures source { at.source lexer.new ≡ at.source lexer.old }
    ensures behind { at.position lexer.old ≤ at.position lexer.new }
    ensures inside { at.position lexer.old ≤ length (at.source lexer.old) → at.position lexer.new ≤ length (at.source lexer.old) }
{
    let mut within = *lexer;
    let Ok(found) = within.next() else {
        unreachable!()
    };
    let Some(first) = found else {
        return false;
    };
    if !is_open(first) || !begins_bracket(within) {
        return false;
    }
    *lexer = within;
    true
}

/// Reads the next command of a text into the nodes, and returns whether there was one. Refuses only when out of memory.
pub fn next_item(
    lexer: &mut Lexer<'_>,
    in_list: bool,
    nodes: &mut Vec<Node>,
) -> Result<bool, AllocError>
    requires { (items : Items) × (behind : Items) × HasCommandItems (at.source lexer.old) in_list (at.position lexer.old) items behind }
    ensures item { (items behind : Items) → HasCommandItems (at.source lexer.old) in_list (at.position lexer.old) items behind →
        IfOk result (IsItemRead (at.source lexer.new) in_list nodes.new.items (at.position lexer.new) items behind) }
    ensures source { at.source lexer.new ≡ at.source lexer.old }
    ensures behind { at.position lexer.old ≤ at.position lexer.new }
    ensures inside { IfOk result (λ found. IsTrue found → at.position lexer.new ≤ length (at.source lexer.old)) }
    ensures few { IfOk result (λ found. IsTrue found → length nodes.new.items + at.position lexer.old ≤ at.position lexer.new) }
    ensures progress { IfOk result (λ found. IsTrue found → at.position lexer.old < at.position lexer.new) }
{
    let Ok(found) = lexer.next() else {
        unreachable!()
    };
    let Some(first) = found else {
        return Ok(false);
    };
    if is_close(first) {
        return Ok(false);
    }
    read_item(lexer, first, nodes)?;
    Ok(true)
}

/// The place of the next item, where there is one.
pub fn excess(lexer: Lexer<'_>) -> Option<u64>
    requires { (items : Items) × HasCommandItems (at.source lexer) false (at.position lexer) items no_items }
    ensures { (items : Items) → HasCommandItems (at.source lexer.entry) false (at.position lexer.entry) items no_items → result ≡ shape.excess items }
{
    let mut ahead = lexer;
    let Ok(found) = ahead.next() else {
        unreachable!()
    };
    match found {
        Some(first) => Some(first.start),
        None => None,
    }
}
