//! All cases of a file, and the lines that are printed about them.
use crate::answer::answer;
use crate::case::{Answer, Called, Case};
use crate::reader::Reader;
use crate::reading::reading;
use anyhow::{Context, Result};
use std::fs;
use std::rt::Files;
use std::thread::Threads;

/// How many cases there are, and how many of them pass.
#[derive(Clone, Copy, Debug, PartialEq, Eq)]
pub struct Count {
    pub passed: usize,
    pub all: usize,
}

impl Count {
    fn add(&mut self, passes: bool) {
        self.all = self.all.saturating_add(1);
        if passes {
            self.passed = self.passed.saturating_add(1);
        }
    }
}

/// Runs the cases of a file, and prints those that differ, and then how many pass.
pub fn run(rt: &(impl Files + Print + AllocGlobal + Threads + Sync), path: &str) -> Result<Count> {
    let text = fs::read_to_string(rt, path).context(format_args!("{path}"))?;
    let mut reader = Reader::new(rt.alloc());
    let counted = run_cases(rt, path, &text, &mut reader);
    // What owns much is let go by a call: let go in parts, at the end of a scope, it is dear to prove.
    drop(reader);
    drop(text);
    let count = counted?;
    let passed = count.passed;
    let all = count.all;
    println!(rt; "{path}: {passed} of {all} cases pass")?;
    Ok(count)
}

/// Runs the cases of a text, and prints those that differ.
fn run_cases(
    rt: &(impl Print + AllocGlobal + Threads + Sync),
    path: &str,
    text: &str,
    reader: &mut Reader,
) -> Result<Count> {
    let mut count = Count { passed: 0, all: 0 };
    for (above, line) in text.split('\n').enumerate() {
        let number = above.saturating_add(1);
        let ended = reader
            .take(line)
            .context(format_args!("{path}, line {number}"))?;
        run_ended(rt, ended, &mut count)?;
    }
    let ended = reader.end().context(format_args!("{path}, at its end"))?;
    run_ended(rt, ended, &mut count)?;
    Ok(count)
}

/// Runs the case that ended, where one did, and counts it.
fn run_ended(
    rt: &(impl Print + AllocGlobal + Threads + Sync),
    ended: Option<Case>,
    count: &mut Count,
) -> Result<()> {
    if let Some(mut case) = ended {
        let passes = passes(rt, &mut case);
        drop(case);
        count.add(passes?);
    }
    Ok(())
}

/// Whether a case comes to what it wants. Where it doesn't, both are printed. What the call takes is taken out of the case.
fn passes(rt: &(impl Print + AllocGlobal + Threads + Sync), case: &mut Case) -> Result<bool> {
    let reads = reads(rt, case)?;
    let answers = answers(rt, case)?;
    Ok(reads && answers)
}

fn reads(rt: &(impl Print + AllocGlobal), case: &Case) -> Result<bool> {
    let (Some(wanted), Some(problem)) = (case.read, &case.problem) else {
        return Ok(true);
    };
    let found = reading(rt.alloc(), problem, wanted.last.is_some())?;
    let wanted = Some(wanted);
    if found == wanted {
        return Ok(true);
    }
    let name = case.name.as_str();
    println!(rt; "{name}\n  wanted {wanted:?}\n  found {found:?}")?;
    Ok(false)
}

fn answers(rt: &(impl Print + AllocGlobal + Threads + Sync), case: &mut Case) -> Result<bool> {
    let Some(Called { call, wanted }) = case.called.take() else {
        return Ok(true);
    };
    let found = answer(rt, call, case.problem.take(), case.proof.take())?;
    is_wanted(rt, &case.name, &wanted, &found)
}

fn is_wanted(rt: &impl Print, name: &str, wanted: &Answer, found: &Answer) -> Result<bool> {
    if found == wanted {
        return Ok(true);
    }
    println!(rt; "{name}")?;
    print_answer(rt, "wanted", wanted)?;
    print_answer(rt, "found", found)?;
    Ok(false)
}

fn print_answer(rt: &impl Print, which: &str, answer: &Answer) -> Result<()> {
    let status = answer.status;
    let output = answer.output.escape_ascii();
    println!(rt; "  {which} {status} \"{output}\"")?;
    Ok(())
}
