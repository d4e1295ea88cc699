//! The form and the tokens of a text: `tokens FILE`, and `tokens FILE time`.
use anyhow::Result;
use sexpr::{Lexer, cause_text, form};
use std::fs;
use std::rt::{Clock, Files};
use std::time::Instant;

pub fn run(rt: &(impl Files + Clock + Print + AllocGlobal), path: &str, timed: bool) -> Result<()> {
    let text = fs::read(rt, path)?;
    run_on(rt, &text, timed)
}

// The same of a text that was read.
fn run_on(rt: &(impl Clock + Print), text: &[u8], timed: bool) -> Result<()> {
    let begin = Instant::now(rt)?;
    match form(text) {
        Ok(()) => println!(rt; "form: ok")?,
        Err(refusal) => {
            let cause = cause_text(refusal.cause);
            let at = refusal.at;
            println!(rt; "form: {cause} at {at}")?;
        }
    }
    let judged = begin.elapsed(rt)?;
    let begin = Instant::now(rt)?;
    let count = token_count(text);
    println!(rt; "tokens: {count}")?;
    let counted = begin.elapsed(rt)?;
    if timed {
        let form = judged.as_micros();
        let tokens = counted.as_micros();
        println!(rt; "form: {form} us, tokens: {tokens} us")?;
    }
    Ok(())
}

/// How many tokens a text has, up to its end or its first bad byte.
fn token_count(text: &[u8]) -> u64 {
    let mut lexer = Lexer::new(text);
    let mut count = 0;
    'tokens: while let Ok(Some(_)) = lexer.next() {
        count += 1;
    }
    count
}
