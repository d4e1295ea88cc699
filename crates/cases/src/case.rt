//! A case: the two files, and what is asked of them and wanted.

/// A case of a file.
#[derive(Debug, Drop)]
pub struct Case {
    pub name: String,
    /// The bytes of the file at the path `PROBLEM`; None where there is no such file.
    pub problem: Option<Vec<u8>>,
    /// The same at the path `PROOF`.
    pub proof: Option<Vec<u8>>,
    pub called: Option<Called>,
    pub read: Option<Reading>,
}

/// A call of the top call, and the answer that is wanted.
#[derive(Debug, Drop)]
pub struct Called {
    pub call: Call,
    pub wanted: Answer,
}

/// The words of a command line, and which reads and writes fail by their numbers from 0.
#[derive(Debug, Drop)]
pub struct Call {
    pub words: Vec<String>,
    pub failing_reads: Vec<u64>,
    pub failing_writes: Vec<u64>,
}

/// The status and the bytes on the output.
#[derive(Debug, PartialEq, Eq, Drop)]
pub struct Answer {
    pub status: u8,
    pub output: Vec<u8>,
}

/// What a problem's text comes to: how many assertions it stands for, and the measures of the last one where they are
/// asked for.
#[derive(Clone, Copy, Debug, PartialEq, Eq)]
pub struct Reading {
    pub assertions: usize,
    pub last: Option<Measures>,
}

/// The height of a term, and how many distinct cells it has.
#[derive(Clone, Copy, Debug, PartialEq, Eq)]
pub struct Measures {
    pub height: u32,
    pub cells: u64,
}
