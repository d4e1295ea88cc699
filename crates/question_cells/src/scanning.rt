//! Whether a text defines functions or gives terms attributes.
ghost use Rattle.std.specs.Prelude.{◌≡◌, ◌≤◌, ◌&&◌, false, List, length, Ok, Some, IfSome, IfNone};
ghost use Rattle.sexpr.specs.declared.lexing.Token.{Token as TokenOf};
ghost use Rattle.sexpr.specs.Source.{source, position};
ghost use Rattle.sexpr.specs.Tokens.{AreTokens, next_token, IsSpanFrom};
ghost use Rattle.question_cells.specs.Definitions.{defines_in, is_defining, is_open};

use sexpr::{Lexer, Token, TokenKind, symbol_name};

/// Whether a token is an opening bracket.
fn is_open(kind: TokenKind) -> bool
    ensures { result ≡ is_open kind }
{
    matches!(kind, TokenKind::Open)
}

/// Whether a token stands right behind an opening bracket and spells one of the symbols that begin a definition of a function and a term
/// with attributes.
fn defines(opened: bool, lexer: &Lexer<'_>, token: &Token) -> bool
    requires start { token.now.start ≤ token.now.end }
    requires within { token.now.end ≤ length (source lexer.now) }
    ensures { result ≡ (opened && is_defining (source lexer.now) token.now) }
{
    if !opened {
        return false;
    }
    match symbol_name(lexer, token) {
        Some(name) => name == b"define-fun".as_slice() || name == b"!".as_slice(),
        None => false,
    }
}

/// The next token of a text, and none at its end and at its first bad byte.
fn next_token(lexer: &mut Lexer<'_>) -> Option<Token>
    ensures some { IfSome result (λ t. next_token (source lexer.old) (position lexer.old) ≡ Ok (Some t)) }
    ensures none { IfNone result ((t : TokenOf) → next_token (source lexer.old) (position lexer.old) ≡ Ok (Some t) → ⊥) }
    ensures span { IfSome result (λ t. IsSpanFrom (position lexer.old) (length (source lexer.old)) t) }
    ensures behind { IfSome result (λ t. position lexer.new ≡ t.end) }
    ensures source { source lexer.new ≡ source lexer.old }
{
    match lexer.next() {
        Ok(found) => found,
        Err(_) => None,
    }
}

/// Whether a text, whose tokens can be read, defines a function or gives a term an attribute: whether the word `define-fun` or the symbol
/// `!` stands somewhere right behind an opening bracket.
///
/// Takes time in proportion to the text, and no memory.
pub fn has_definitions(text: &[u8]) -> bool
    ensures { (tokens : List TokenOf) → AreTokens text.now 0 tokens → result ≡ defines_in text.now false tokens }
{
    let mut lexer = Lexer::new(text);
    let mut opened = false;
    'tokens: while let Some(token) = next_token(&mut lexer) {
        if defines(opened, &lexer, &token) {
            return true;
        }
        opened = is_open(token.kind);
    }
    false
}
