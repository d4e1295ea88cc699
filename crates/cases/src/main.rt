//! Runs the checker's top call on cases that stand in files, over files and an output in memory, and compares what it
//! answers with what is wanted. Each word names a file of cases; `README.md` has their form.
//!
//! - `line`: a line of a file; `reader`: the lines of a file as cases, over `draft`s; `fault`: why a file is none.
//! - `case`: a case; `answer`: what the top call returns; `reading`: what a problem's text comes to.
//! - `file`: all cases of a file, and the lines that are printed about them.
//!
//! A case that differs is printed. The last line says how many cases pass. Where one differs, or a file has another
//! form, the status is 1.
#![tactic(auto)]

mod answer;
mod case;
mod draft;
mod fault;
mod file;
mod line;
mod reader;
mod reading;

use anyhow::{Result, ensure};
use std::env;
use std::rt::Files;
use std::thread::Threads;

fn main(rt: HostRuntime) -> Result<()> {
    let paths: Vec<String> = env::args(&rt)?.skip(1).collect(rt.alloc())?;
    run(&rt, &paths)
}

// Runs the cases of all files. The paths are borrowed here: each way out of a function that owns them would be a proof of
// letting them go.
fn run(rt: &(impl Files + Print + AllocGlobal + Threads + Sync), paths: &[String]) -> Result<()> {
    let mut passed: usize = 0;
    let mut all: usize = 0;
    for path in paths {
        let count = file::run(rt, path.as_str())?;
        passed = passed.saturating_add(count.passed);
        all = all.saturating_add(count.all);
    }
    println!(rt; "{passed} of {all} cases pass")?;
    ensure!(passed == all, "some cases differ");
    Ok(())
}
