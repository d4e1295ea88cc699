//! Tests of tokens and form over texts, and of words and symbols (SMT-LIB 2.6, "Lexicon").
use crate::test_texts::{BRACKETS, BYTES, Case, QUOTED, WORDS};
use crate::{
    Lexer, Token, TokenKind, WordKind, cause_text, form, print_symbol, symbol_name, word_kind,
};
use std::alloc::{AllocError, Global};
use std::process::Abort;
use std::test::Fail;

fn letter(kind: TokenKind) -> char {
    match kind {
        TokenKind::Open => 'O',
        TokenKind::Close => 'C',
        TokenKind::Text => 'T',
        TokenKind::Quoted => 'Q',
        TokenKind::Word => 'W',
    }
}

fn push_token(out: &mut String, token: &Token) -> Result<(), AllocError> {
    let kind = letter(token.kind);
    let start = token.start;
    let end = token.end;
    write!(out, "{kind}{start}-{end} ")
}

/// The tokens of a text, and the refusal that ends them, if one does.
fn tokens_of(alloc: Global, text: &[u8]) -> Result<String, AllocError> {
    let mut out = String::new(alloc);
    let mut lexer = Lexer::new(text);
    for _ in 0..text.len() {
        match lexer.next() {
            Ok(Some(token)) => push_token(&mut out, &token)?,
            Ok(None) => break,
            Err(refusal) => {
                let cause = cause_text(refusal.cause);
                let at = refusal.at;
                write!(out, "{cause} {at} ")?;
                break;
            }
        }
    }
    Ok(out)
}

fn form_of(alloc: Global, text: &[u8]) -> Result<String, AllocError> {
    match form(text) {
        Ok(()) => String::from_str(alloc, "ok"),
        Err(refusal) => {
            let cause = cause_text(refusal.cause);
            let at = refusal.at;
            format!(in alloc; "{cause} {at}")
        }
    }
}

fn check_cases(rt: &impl Abort, alloc: Global, cases: &[Case]) -> Result<(), Fail> {
    for case in cases {
        let tokens = tokens_of(alloc, case.text)?;
        assert_eq!(rt; tokens.as_str().trim_ascii(), case.tokens);
        let judged = form_of(alloc, case.text)?;
        assert_eq!(rt; judged.as_str(), case.form, "at {tokens}");
    }
    Ok(())
}

#[test]
fn brackets_and_comments_have_their_tokens_and_form(rt: HostRuntime) -> Result<(), Fail> {
    check_cases(&rt, rt.alloc(), BRACKETS)
}

#[test]
fn bytes_have_their_tokens_and_form(rt: HostRuntime) -> Result<(), Fail> {
    check_cases(&rt, rt.alloc(), BYTES)
}

#[test]
fn strings_and_quoted_symbols_have_their_tokens_and_form(rt: HostRuntime) -> Result<(), Fail> {
    check_cases(&rt, rt.alloc(), QUOTED)
}

#[test]
fn words_have_their_tokens_and_form(rt: HostRuntime) -> Result<(), Fail> {
    check_cases(&rt, rt.alloc(), WORDS)
}

#[test]
fn many_open_lists(rt: HostRuntime) -> Result<(), Fail> {
    let text = vec![in rt.alloc(); b'('; 1_000_000]?;
    let judged = form_of(rt.alloc(), &text)?;
    assert_eq!(rt; judged.as_str(), "open list 0");
    Ok(())
}

#[test]
fn answers_come_again(rt: HostRuntime) -> Result<(), Fail> {
    let mut lexer = Lexer::new(b"(|p q| \"\"\"\" 01");
    for spelling in [b"(".as_slice(), b"|p q|", b"\"\"\"\""] {
        let token = lexer.next()?.ok_or("a token")?;
        assert!(rt; token.start <= token.end && token.end <= 14);
        assert_eq!(rt; lexer.text(&token), spelling);
    }
    let refusal = lexer.next();
    assert_eq!(rt; refusal, lexer.next());
    Ok(())
}

#[test]
fn symbols_have_one_name(rt: HostRuntime) -> Result<(), Fail> {
    let mut lexer = Lexer::new(b"a-b |a-b| || :a \"a\"");
    for name in [Some(b"a-b".as_slice()), Some(b"a-b"), Some(b""), None, None] {
        let token = lexer.next()?.ok_or("a token")?;
        assert!(rt; token.start <= token.end && token.end <= 19);
        assert_eq!(rt; symbol_name(&lexer, &token), name);
    }
    Ok(())
}

#[test]
fn words_have_their_kinds(rt: HostRuntime) {
    let cases: [(&[u8], Option<WordKind>); 10] = [
        (b"=>", Some(WordKind::Symbol)),
        (b"-1", Some(WordKind::Symbol)),
        (b".5", Some(WordKind::Symbol)),
        (b":named", Some(WordKind::Keyword)),
        (b"#b01", Some(WordKind::BitLiteral)),
        (b"0", Some(WordKind::Numeral)),
        (b"1.50", Some(WordKind::Decimal)),
        (b"10/3", Some(WordKind::Ratio)),
        (b"007", None),
        (b"", None),
    ];
    for (word, kind) in cases {
        assert_eq!(rt; word_kind(word), kind);
    }
}

#[test]
fn symbols_are_printed(rt: HostRuntime) -> Result<(), Fail> {
    let cases: [(&[u8], &[u8]); 6] = [
        (b"a-b", b"a-b"),
        (b"p q", b"|p q|"),
        (b"", b"||"),
        (b":a", b"|:a|"),
        (b"1x", b"|1x|"),
        (b"x1", b"x1"),
    ];
    for (name, printed) in cases {
        let mut text = Vec::from_slice(rt.alloc(), b"step ")?;
        print_symbol(name, &mut text)?;
        assert_eq!(rt; &text.as_slice()[5..], printed);
    }
    Ok(())
}
