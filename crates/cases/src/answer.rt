//! What the top call returns over files and an output in memory.

ghost use Rattle.std.specs.Prelude.{◌≤◌};

use crate::case::{Answer, Call};
use file_ports::{MemoryFolder, MemorySink, OpenGate};
use fillers::Filler;
use filling_cli::carcara_with;
use hole_fillers::Bench;
use lia_answers::LiaFiller;
use rule_filler::RuleFiller;
use std::alloc::{AllocError, Global};
use std::thread::Threads;

// A short file is read in many pieces, so that its reading is tried too, and a long one in as few as may be.
const SHORT_BYTES: usize = 65_536;

const SMALL_PIECE: usize = 7;

const WRITE_PIECE: usize = 16;

// How many questions each filler may be asked.
const BUDGET: u64 = 1_000_000;

/// The answer to the words, where the files at the paths `PROBLEM` and `PROOF` have these bytes.
pub fn answer(
    rt: &(impl AllocGlobal + Threads + Sync),
    call: Call,
    problem: Option<Vec<u8>>,
    proof: Option<Vec<u8>>,
) -> Result<Answer, AllocError> {
    let most = piece_bytes(is_long(&problem) || is_long(&proof));
    let files = files(rt.alloc(), problem, proof)?;
    let Call {
        words,
        failing_reads,
        failing_writes,
    } = call;
    let mut folder = MemoryFolder::new(files, most, failing_reads);
    let mut out = MemorySink::new(WRITE_PIECE, failing_writes);
    let found = answer_over(rt, &words, &mut folder, &mut out);
    // What owns much is let go by a call: let go in parts, at the end of a scope, it is dear to prove.
    drop(out);
    drop(folder);
    drop(words);
    found
}

// The answer to the words, over a folder and an output, with the fillers of holes that the program has.
fn answer_over(
    rt: &(impl AllocGlobal + Threads + Sync),
    words: &[String],
    folder: &mut MemoryFolder,
    out: &mut MemorySink,
) -> Result<Answer, AllocError> {
    let alloc = rt.alloc();
    let mut fillers: Vec<Box<dyn Filler>> = Vec::new(alloc);
    fillers.push(Box::new(alloc, RuleFiller::new(alloc, BUDGET))?)?;
    fillers.push(Box::new(alloc, LiaFiller::new(alloc, BUDGET))?)?;
    let mut bench = Bench::new(fillers);
    let status = carcara_with(rt, words, folder, out, &OpenGate, &mut bench);
    drop(bench);
    let output = Vec::from_slice(alloc, out.written())?;
    Ok(Answer { status, output })
}

fn is_long(text: &Option<Vec<u8>>) -> bool {
    text.as_ref().is_some_and(|text| text.len() > SHORT_BYTES)
}

// How many bytes a read gives at most.
fn piece_bytes(long: bool) -> usize
    ensures { 1 ≤ result }
{
    if long { SHORT_BYTES } else { SMALL_PIECE }
}

fn files(
    alloc: Global,
    problem: Option<Vec<u8>>,
    proof: Option<Vec<u8>>,
) -> Result<Vec<(String, Vec<u8>)>, AllocError> {
    let mut files = Vec::new(alloc);
    add_file(alloc, &mut files, "PROBLEM", problem)?;
    add_file(alloc, &mut files, "PROOF", proof)?;
    Ok(files)
}

// Adds the file at a path, where there is one.
fn add_file(
    alloc: Global,
    files: &mut Vec<(String, Vec<u8>)>,
    path: &str,
    text: Option<Vec<u8>>,
) -> Result<(), AllocError> {
    if let Some(text) = text {
        files.push((String::from_str(alloc, path)?, text))?;
    }
    Ok(())
}
