//! When the pool for a question and a reply is full, through the library's call.
use crate::fill_calls::budgets;
use command_words::Options;
use file_ports::OpenGate;
use filled_texts::{End, Stop, ToFill, fill};
use fillers::{Filler, ScriptFiller};
use hole_fillers::Bench;
use judged_texts::{Texts, Workers};
use std::alloc::{AllocError, Global};
use std::test::Fail;
use std::thread::Threads;

static PROBLEM: &[u8] = b"(declare-fun p () Bool)
(assert p)
(assert (not p))
";

static PROOF: &[u8] = b"(assume h1 p)
(assume h2 (not p))
(step t1 (cl) :rule hole :premises (h1 h2))
(step t2 (cl) :rule hole :premises (h1 h2))
(step t3 (cl) :rule hole :premises (h1 h2))
";

const OPTIONS: Options = Options {
    replaces_lets: false,
    ignores_unknown_rules: false,
    is_strict: false,
};

const RIGHT: &[u8] =
    b"(assume a f1)(assume b (not f1))(step c (cl) :rule resolution :premises (a b))";

fn add_times(text: &mut Vec<u8>, word: &[u8], times: u32) -> Result<(), AllocError> {
    for _ in 0..times {
        text.extend_from_slice(word)?;
    }
    Ok(())
}

// A chain of 1,300 minuses over a number, of two cells for each minus.
fn add_chain(text: &mut Vec<u8>, number: &[u8]) -> Result<(), AllocError> {
    add_times(text, b"(- ", 1300)?;
    text.extend_from_slice(number)?;
    add_times(text, b")", 1300)
}

// A proof of the equality of two such chains, by a hole. It has some 5,200 cells: a pool of 2^12 places has no room for them, and one of
// 2^13 has.
fn large_reply(alloc: Global) -> Result<Vec<u8>, AllocError> {
    let mut text = Vec::from_slice(alloc, b"(step c (cl (= ")?;
    add_chain(&mut text, b"1")?;
    text.extend_from_slice(b" ")?;
    add_chain(&mut text, b"2")?;
    text.extend_from_slice(b")) :rule hole)")?;
    Ok(text)
}

// What a filler replies to the three questions.
fn replies(alloc: Global) -> Result<Vec<Option<Vec<u8>>>, AllocError> {
    let mut replies = Vec::new(alloc);
    replies.push(Some(Vec::from_slice(alloc, RIGHT)?))?;
    replies.push(Some(large_reply(alloc)?))?;
    replies.push(Some(Vec::from_slice(alloc, RIGHT)?))?;
    Ok(replies)
}

// How it ends in pools of at most so many bits. None where these are no such numbers.
fn ended<R: AllocGlobal + Threads + Sync>(rt: &R, bench: &mut Bench, bits: u32) -> Option<End> {
    if PROBLEM.len() > 268_435_456 || PROOF.len() > 268_435_456 || !(12..=26).contains(&bits) {
        return None;
    }
    let workers = Workers {
        rt,
        gate: &OpenGate,
        count: 1,
    };
    let to_fill = ToFill {
        texts: Texts {
            problem: PROBLEM,
            proof: PROOF,
            options: OPTIONS,
        },
        most_bits: bits,
    };
    Some(fill(&workers, rt.alloc(), &to_fill, bench))
}

fn is_full(end: &Option<End>) -> bool {
    matches!(end, Some(End::Stopped(Stop::PoolFull)))
}

// All three questions were put, and the second hole alone stays open.
fn leaves_the_second_open(end: &Option<End>) -> bool {
    match end {
        Some(End::Asked(asked)) => asked.filled.as_slice() == [true, false, true].as_slice(),
        _ => false,
    }
}

// The first reply is judged. Where the pool for the second is full, this is said, and not out of memory, and the third question is not
// asked. Where a larger one may be made, the second is judged too, as holey, and then the third, which is the first again.
#[test]
fn a_pool_for_a_reply_may_be_full(rt: HostRuntime) -> Result<(), Fail> {
    let alloc = rt.alloc();
    for (bits, has_room, left) in [(12u32, false, 1u64), (13, true, 0)] {
        let mut fillers: Vec<Box<dyn Filler>> = Vec::new(alloc);
        fillers.push(Box::new(alloc, ScriptFiller::new(3, replies(alloc)?))?)?;
        let mut bench = Bench::new(fillers);
        let end = ended(&rt, &mut bench, bits);
        assert_eq!(rt; is_full(&end), !has_room);
        assert_eq!(rt; leaves_the_second_open(&end), has_room);
        assert_eq!(rt; budgets(alloc, &bench)?.as_slice(), [left].as_slice());
        drop(end);
        drop(bench);
    }
    Ok(())
}
