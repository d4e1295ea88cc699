//! Each write of a proof failing in turn leaves a prefix of its text.
use crate::printing::{Stop, print_texts};
use file_ports::MemorySink;
use std::alloc::{AllocError, Global};
use std::test::Fail;

static PROBLEM: &[u8] = b"(declare-const p Bool)
(assert p)
(assert (not p))
";

static PROOF: &[u8] = b"(assume h p)
(assume g (not p))
(step t (cl) :rule resolution :premises (h g) :args (p true))
";

// What is printed, by hand: `(not p)` stands once, and commands are numbered.
static TEXT: &[u8; 99] = b"(assume c1 p)
(assume c2 (not p))
(step c3 (cl) :rule resolution :premises (c1 c2) :args (p true))
";

// The most bytes that one write takes: 99 bytes take 15 writes.
const MOST: usize = 7;

// The number of a write that none has.
const NO_WRITE: u64 = 1000;

// How printing ends where the write of this number fails, and what was written.
fn printed(
    alloc: Global,
    failing: u64,
) -> Result<(std::result::Result<(), Stop>, Vec<u8>), AllocError> {
    let mut sink = MemorySink::new(MOST, vec![in alloc; failing]?);
    let ended = print_texts(alloc, PROBLEM, PROOF, &mut sink);
    let bytes = sink.written().to_vec(alloc)?;
    Ok((ended, bytes))
}

#[test]
fn the_whole_text_is_written(rt: HostRuntime) -> Result<(), Fail> {
    let (ended, bytes) = printed(rt.alloc(), NO_WRITE)?;
    assert_eq!(rt; ended, Ok(()));
    assert_eq!(rt; bytes.as_slice(), TEXT.as_slice());
    Ok(())
}

#[test]
fn a_failing_write_leaves_a_prefix(rt: HostRuntime) -> Result<(), Fail> {
    for k in 0..15u64 {
        let (ended, bytes) = printed(rt.alloc(), k)?;
        assert_eq!(rt; ended, Err(Stop::Write), "{k}");
        assert_eq!(rt; bytes.as_slice(), &TEXT[..k as usize * MOST], "{k}");
    }
    Ok(())
}
