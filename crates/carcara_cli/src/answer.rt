//! What the checker returns, and how it is printed.
ghost use Rattle.std.specs.Prelude.{◌≡◌, IfOk};
ghost use Rattle.carcara_cli.specs.Printed.{status_of, text_of};

use judged_texts::{Judgement, status_of_judgement, text_of_judgement};
use std::alloc::{AllocError, Global};

/// What the checker returns.
#[derive(Debug, Drop)]
pub enum Answer {
    /// The words of the command line spell no command.
    Usage,
    /// A file was not read.
    ReadFault,
    /// A file is longer than a file may be.
    TooLong,
    /// Both files were read, and this is what their texts come to.
    Judged(Judgement),
}

/// The status with which the program ends.
pub fn status_of(answer: &Answer) -> u8
    ensures { result ≡ status_of answer.now }
{
    match answer {
        Answer::Usage => 64,
        Answer::ReadFault => 5,
        Answer::TooLong => 9,
        Answer::Judged(judgement) => status_of_judgement(judgement),
    }
}

/// The whole text that is printed.
pub fn text_of(alloc: Global, answer: &Answer) -> Result<Vec<u8>, AllocError>
    ensures { IfOk result (λ v. v.items ≡ text_of answer.now) }
{
    match answer {
        Answer::Usage => Vec::from_slice(alloc, USAGE),
        Answer::ReadFault => Vec::from_slice(alloc, b"read fault\n"),
        Answer::TooLong => Vec::from_slice(alloc, b"too long\n"),
        Answer::Judged(judgement) => text_of_judgement(alloc, judgement),
    }
}

/// The usage line.
static USAGE: &[u8] =
    b"usage: carcara (check | elaborate) PROOF PROBLEM [options] | carcara generate N [options]\n";
