//! A case whose parts are still being read.
use crate::case::{Answer, Call, Called, Case, Measures, Reading};
use crate::fault::Fault;
use crate::line::{Field, Part};
use std::alloc::Global;

/// The parts of a case that stand so far.
#[derive(Drop)]
pub struct Draft {
    name: String,
    problem: Option<Vec<u8>>,
    proof: Option<Vec<u8>>,
    words: Option<Vec<String>>,
    failing_reads: Option<Vec<u64>>,
    failing_writes: Option<Vec<u64>>,
    status: Option<u8>,
    output: Option<Vec<u8>>,
    assertions: Option<usize>,
    measures: Option<Measures>,
}

impl Draft {
    pub fn new(name: String) -> Draft {
        Draft {
            name,
            problem: None,
            proof: None,
            words: None,
            failing_reads: None,
            failing_writes: None,
            status: None,
            output: None,
            assertions: None,
            measures: None,
        }
    }

    /// Adds a text of the case, where it has none of this kind.
    pub fn add_text(&mut self, part: Part, text: Vec<u8>) -> Result<(), Fault> {
        match part {
            Part::Problem => put(&mut self.problem, text),
            Part::Proof => put(&mut self.proof, text),
            Part::Output => put(&mut self.output, text),
        }
    }

    /// Adds a part that stands in one line, where the case has none of this kind.
    pub fn add_field(&mut self, alloc: Global, field: Field<'_>) -> Result<(), Fault> {
        match field {
            Field::Words(words) => put(&mut self.words, words_of(alloc, words)?),
            Field::FailingReads(numbers) => {
                put(&mut self.failing_reads, numbers_of(alloc, numbers)?)
            }
            Field::FailingWrites(numbers) => {
                put(&mut self.failing_writes, numbers_of(alloc, numbers)?)
            }
            Field::Status(status) => put(&mut self.status, status),
            Field::Assertions(count) => put(&mut self.assertions, count),
            Field::Measures(measures) => put(&mut self.measures, measures),
        }
    }

    /// The case, where it has all parts of what it asks: words, a status and an output, or a problem and how many
    /// assertions it has, or both.
    pub fn finished(self, alloc: Global) -> Result<Case, Fault> {
        if self.is_whole() {
            Ok(self.into_case(alloc))
        } else {
            Err(Fault::PartAbsent)
        }
    }

    // Whether something is asked, and no part of what is asked is absent.
    fn is_whole(&self) -> bool {
        let reads = self.assertions.is_some();
        let is_reading_whole = if reads {
            self.problem.is_some()
        } else {
            self.measures.is_none()
        };
        let is_call_whole = if self.words.is_some() {
            self.status.is_some() && self.output.is_some()
        } else {
            reads && self.status.is_none() && self.output.is_none()
        };
        is_reading_whole && is_call_whole
    }

    // The case of the parts.
    fn into_case(self, alloc: Global) -> Case {
        let last = self.measures;
        let read = self
            .assertions
            .map(|assertions| Reading { assertions, last });
        let failing_reads = self.failing_reads.unwrap_or(Vec::new(alloc));
        let failing_writes = self.failing_writes.unwrap_or(Vec::new(alloc));
        let called = match (self.words, self.status, self.output) {
            (Some(words), Some(status), Some(output)) => Some(Called {
                call: Call {
                    words,
                    failing_reads,
                    failing_writes,
                },
                wanted: Answer { status, output },
            }),
            _ => None,
        };
        Case {
            name: self.name,
            problem: self.problem,
            proof: self.proof,
            called,
            read,
        }
    }
}

fn put<T: Drop>(place: &mut Option<T>, part: T) -> Result<(), Fault> {
    if place.is_some() {
        return Err(Fault::PartTwice);
    }
    *place = Some(part);
    Ok(())
}

// The words between single spaces. There are none in an empty text.
fn words_of(alloc: Global, text: &str) -> Result<Vec<String>, Fault> {
    let mut words = Vec::new(alloc);
    if text.is_empty() {
        return Ok(words);
    }
    for word in text.split(' ') {
        words.push(String::from_str(alloc, word)?)?;
    }
    Ok(words)
}

fn numbers_of(alloc: Global, text: &str) -> Result<Vec<u64>, Fault> {
    let mut numbers = Vec::new(alloc);
    for word in text.split(' ') {
        numbers.push(word.parse::<u64>().map_err(|_| Fault::BadNumber)?)?;
    }
    Ok(numbers)
}
