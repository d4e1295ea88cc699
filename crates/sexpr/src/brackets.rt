//! The form of a text: whether its tokens are those of nested items.
ghost use Rattle.std.specs.Prelude.{◌≡◌, ◌<◌, Ok, Err, OnOk, IfErr, MatchResult};
ghost use Rattle.sexpr.specs.declared.causes.Refusal.{Refusal};
ghost use Rattle.sexpr.specs.Depths.{lists_after, bracket_kind};
ghost use Rattle.sexpr.specs.Form.{HasForm, IsFormFault};

use crate::blocks::is_formed;
use crate::bytes::is_white;
use crate::causes::{Cause, Refusal};
use crate::lexing::{Token, TokenKind, past_token, token_of};
use crate::scan::comment_end;

/// How many lists are open, and the place where the outermost of them began, if there is one.
#[derive(Clone, Copy)]
struct OpenLists {
    depth: u64,
    outermost: u64,
}

impl OpenLists {
    /// What is open after a token, and None where it closes a list and none is open.
    fn after(self, token: Token) -> Option<OpenLists>
        requires { self.depth < u64.MAX }
        ensures { result ≡ lists_after self token }
    {
        let outermost = if self.depth == 0 {
            token.start
        } else {
            self.outermost
        };
        let depth = match token.kind {
            TokenKind::Open => self.depth + 1,
            TokenKind::Close if self.depth == 0 => return None,
            TokenKind::Close => self.depth - 1,
            TokenKind::Text | TokenKind::Quoted | TokenKind::Word => self.depth,
        };
        Some(OpenLists { depth, outermost })
    }
}

/// Whether a text has the form of nested items: tokens in which each bracket has its partner.
///
/// The first fault from the left is refused: a bad byte, or a closing bracket where no list is open. Where there
/// is none and a list is open at the end, that is refused at the outermost open bracket (SMT-LIB 2.6,
/// "Lexicon" and "S-expressions"). The text is read once, from the left.
pub fn form(bytes: &[u8]) -> Result<(), Refusal>
    ensures formed { OnOk result (HasForm bytes.now) }
    ensures fault { IfErr result (IsFormFault bytes.now) }
    ensures ok_where_formed { HasForm bytes.now → result ≡ Ok tt }
    ensures err_where_faulty { (refusal : Refusal) → IsFormFault bytes.now refusal → result ≡ Err refusal }
{
    if is_formed(bytes) {
        return Ok(());
    }
    first_fault(bytes)
}

/// Reads the text up to its first fault of form. It goes from one part of the text to the next, and asks of what is no
/// bracket only where it ends, which takes about half of the time of reading each token by a `Lexer`.
fn first_fault(bytes: &[u8]) -> Result<(), Refusal>
    ensures { MatchResult result (λ _. HasForm bytes.now) (IsFormFault bytes.now) }
{
    let mut place = 0;
    let mut lists = OpenLists {
        depth: 0,
        outermost: 0,
    };
    while place < bytes.len() {
        let byte = bytes[place];
        if is_white(byte) {
            place += 1;
        } else if let Some(kind) = bracket_kind(byte) {
            let Some(after) = lists.after(token_of(kind, place, place + 1)) else {
                return Err(Refusal {
                    cause: Cause::StrayClose,
                    at: place as u64,
                });
            };
            lists = after;
            place += 1;
        } else if byte == b';' {
            place = comment_end(bytes, place + 1);
        } else {
            place = past_token(bytes, place)?;
        }
    }
    if lists.depth == 0 {
        Ok(())
    } else {
        Err(Refusal {
            cause: Cause::OpenList,
            at: lists.outermost,
        })
    }
}

/// Which bracket a byte is, if it is one.
fn bracket_kind(byte: u8) -> Option<TokenKind>
    ensures { result ≡ bracket_kind byte }
{
    match byte {
        b'(' => Some(TokenKind::Open),
        b')' => Some(TokenKind::Close),
        _ => None,
    }
}
