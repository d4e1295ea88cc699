//! The top call of tests with fillers, over two files and an output in memory.
use file_ports::{MemoryFolder, MemorySink, OpenGate};
use filling_cli::carcara_with;
use hole_fillers::Bench;
use std::alloc::{AllocError, Global};
use std::thread::Threads;

// The words `command PROOF PROBLEM`, with an option where one is named, and the two texts.
#[derive(Drop)]
pub(crate) struct Call<'a> {
    pub(crate) command: &'a str,
    pub(crate) problem: &'a [u8],
    pub(crate) proof: &'a [u8],
    pub(crate) option: &'a str,
}

fn files(alloc: Global, call: &Call<'_>) -> Result<Vec<(String, Vec<u8>)>, AllocError> {
    let mut files = Vec::new(alloc);
    let text = Vec::from_slice(alloc, call.proof)?;
    files.push((String::from_str(alloc, "PROOF")?, text))?;
    let text = Vec::from_slice(alloc, call.problem)?;
    files.push((String::from_str(alloc, "PROBLEM")?, text))?;
    Ok(files)
}

fn words(alloc: Global, call: &Call<'_>) -> Result<Vec<String>, AllocError> {
    let mut words = Vec::new(alloc);
    words.push(String::from_str(alloc, call.command)?)?;
    words.push(String::from_str(alloc, "PROOF")?)?;
    words.push(String::from_str(alloc, "PROBLEM")?)?;
    if !call.option.is_empty() {
        words.push(String::from_str(alloc, call.option)?)?;
    }
    Ok(words)
}

// The budgets on a bench, in their order.
pub(crate) fn budgets(alloc: Global, bench: &Bench) -> Result<Vec<u64>, AllocError> {
    let mut budgets = Vec::new(alloc);
    for i in 0..bench.count() {
        budgets.push(bench.left(i))?;
    }
    Ok(budgets)
}

// What the top call returns and prints.
pub(crate) fn answered<R: AllocGlobal + Threads + Sync>(
    rt: &R,
    call: &Call<'_>,
    bench: &mut Bench,
) -> Result<(u8, Vec<u8>), AllocError> {
    let alloc = rt.alloc();
    let words = words(alloc, call)?;
    let mut folder = MemoryFolder::new(files(alloc, call)?, 65_536, Vec::new(alloc));
    let mut out = MemorySink::new(65_536, Vec::new(alloc));
    let status = carcara_with(rt, &words, &mut folder, &mut out, &OpenGate, bench);
    let output = Vec::from_slice(alloc, out.written())?;
    drop(out);
    drop(folder);
    drop(words);
    Ok((status, output))
}
