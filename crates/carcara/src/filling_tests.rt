//! `fill` with fillers that give the replies of a script: what is printed, and which budgets are left.
ghost use Rattle.std.specs.Prelude.{◌<◌, []};

use crate::fill_calls::{Call, answered, budgets};
use fillers::{FillStop, Filler, ScriptFiller};
use hole_fillers::Bench;
use std::alloc::{AllocError, Global};
use std::test::Fail;

const PROBLEM: &[u8] = b"(declare-fun p () Bool)
(assert p)
(assert (not p))
";

// A problem and a proof, and an option or none.
type Texts = (&'static [u8], &'static [u8], &'static str);

const BY_HOLE: &[u8] = b"(assume h1 p)
(assume h2 (not p))
(step t1 (cl) :rule hole :premises (h1 h2))
";

const ONE_HOLE: Texts = (PROBLEM, BY_HOLE, "");

const TWO_HOLES: Texts = (
    PROBLEM,
    b"(assume h1 p)
(assume h2 (not p))
(step t1 (cl) :rule hole :premises (h1 h2))
(step t2 (cl) :rule hole :premises (h1 h2))
",
    "",
);

const THREE_HOLES: Texts = (
    PROBLEM,
    b"(assume h1 p)
(assume h2 (not p))
(step t1 (cl) :rule hole :premises (h1 h2))
(step t2 (cl) :rule hole :premises (h1 h2))
(step t3 (cl) :rule hole :premises (h1 h2))
",
    "",
);

const UNKNOWN_RULE: &[u8] = b"(assume h1 p)
(assume h2 (not p))
(step |t 1| (cl) :rule |my rule| :premises (h1 h2))
";

const FAULTY: Texts = (PROBLEM, UNKNOWN_RULE, "");

const IGNORED: Texts = (PROBLEM, UNKNOWN_RULE, "--ignore-unknown-rules");

// A hole that closes a scope, with a hole inside.
const CLOSING: Texts = (
    PROBLEM,
    b"(assume h1 p)
(assume h2 (not p))
(anchor :step t1)
(step t1.t1 (cl) :rule hole :premises (h1 h2))
(step t1 (cl) :rule hole)
",
    "",
);

const NO_HOLE: Texts = (
    PROBLEM,
    b"(assume h1 p)
(assume h2 (not p))
(step t1 (cl) :rule resolution :premises (h1 h2))
",
    "",
);

const HOLE_AND_FAULT: Texts = (
    PROBLEM,
    b"(assume h1 p)
(assume h2 (not p))
(step t1 (cl) :rule hole :premises (h1 h2))
(step t2 (cl p) :rule resolution :premises (h2))
",
    "",
);

// A coefficient of 2^127 - 1 makes the step too wide.
const HOLE_AND_WIDE: Texts = (
    PROBLEM,
    b"(assume h1 p)
(assume h2 (not p))
(step t1 (cl) :rule hole :premises (h1 h2))
(step t2 (cl (not (< 1 0))) :rule la_generic :args (170141183460469231731687303715884105727))
",
    "",
);

const NO_PROOF: Texts = (PROBLEM, b"(foo)", "");

const NO_PROBLEM: Texts = (b"(foo)", BY_HOLE, "");

// A proof of the question about each of these holes; and texts that are none: one that has a hole, one that is refused, one that has a
// step whose condition is not met, one that has all of the proof and a step that is too wide, proofs of another question and of the problem.
const RIGHT: &[u8] =
    b"(assume a f1)(assume b (not f1))(step c (cl) :rule resolution :premises (a b))";

const HOLEY: &[u8] = b"(step c (cl) :rule hole)";

const BROKEN: &[u8] = b"(step c (cl)";

const WRONG: &[u8] = b"(assume a f1)(step c (cl) :rule resolution :premises (a))";

const WIDE: &[u8] = b"(assume a f1)(assume b (not f1))(step c (cl) :rule resolution :premises (a b))
(step d (cl (not (< 1 0))) :rule la_generic :args (170141183460469231731687303715884105727))";

const OF_ANOTHER: &[u8] = b"(assume h (not (= (not true) false)))
(step t1 (cl (= (not true) false)) :rule not_simplify)
(step t2 (cl) :rule resolution :premises (t1 h))";

const OF_PROBLEM: &[u8] =
    b"(assume a p)(assume b (not p))(step c (cl) :rule resolution :premises (a b))";

const BY_UNKNOWN_RULE: &[u8] =
    b"(assume a f1)(assume b (not f1))(step c (cl) :rule |my rule| :premises (a b))";

const FILLED: &[u8] = b"valid\nfilled t1 hole\n";

const OPEN: &[u8] = b"holey\nhole t1 hole\n";

// How many questions a filler may be asked, and its replies in their order.
type Script = (u64, &'static [Option<&'static [u8]>]);

// The texts, two fillers, what is printed with its status, and the budgets of the fillers that are left.
type Case = (Texts, Script, Script, &'static [u8], u8, &'static [u64]);

// One that may not be asked, and one that may be asked once more than it has replies.
const NOBODY: Script = (0, &[]);

const ONCE_MORE: Script = (2, &[Some(RIGHT)]);

const CASES: [Case; 24] = [
    // A proof of the question fills it, and what isn't one doesn't.
    (ONE_HOLE, (1, &[Some(RIGHT)]), NOBODY, FILLED, 0, &[0]),
    (ONE_HOLE, (0, &[Some(RIGHT)]), NOBODY, OPEN, 2, &[]),
    (ONE_HOLE, (1, &[None]), NOBODY, OPEN, 2, &[0]),
    (ONE_HOLE, (1, &[Some(b"")]), NOBODY, OPEN, 2, &[0]),
    (ONE_HOLE, (1, &[Some(HOLEY)]), NOBODY, OPEN, 2, &[0]),
    (ONE_HOLE, (1, &[Some(BROKEN)]), NOBODY, OPEN, 2, &[0]),
    (ONE_HOLE, (1, &[Some(WRONG)]), NOBODY, OPEN, 2, &[0]),
    (ONE_HOLE, (1, &[Some(WIDE)]), NOBODY, OPEN, 2, &[0]),
    (ONE_HOLE, (1, &[Some(OF_ANOTHER)]), NOBODY, OPEN, 2, &[0]),
    (ONE_HOLE, (1, &[Some(OF_PROBLEM)]), NOBODY, OPEN, 2, &[0]),
    // The second filler is asked only where the first one's reply doesn't fill.
    (ONE_HOLE, (2, &[Some(WRONG)]), ONCE_MORE, FILLED, 0, &[1, 1]),
    (ONE_HOLE, (2, &[Some(RIGHT)]), ONCE_MORE, FILLED, 0, &[1, 2]),
    (
        ONE_HOLE,
        (2, &[None]),
        (2, &[Some(HOLEY)]),
        OPEN,
        2,
        &[1, 1],
    ),
    // Budgets end in the middle.
    (
        TWO_HOLES,
        (1, &[Some(RIGHT)]),
        NOBODY,
        b"holey\nhole t2 hole\nfilled t1 hole\n",
        2,
        &[0],
    ),
    (
        TWO_HOLES,
        (1, &[Some(RIGHT)]),
        ONCE_MORE,
        b"valid\nfilled t1 hole\nfilled t2 hole\n",
        0,
        &[0, 1],
    ),
    (
        THREE_HOLES,
        (2, &[Some(HOLEY), Some(RIGHT)]),
        (1, &[Some(WRONG)]),
        b"holey\nhole t1 hole\nhole t3 hole\nfilled t2 hole\n",
        2,
        &[0, 0],
    ),
    // Nobody is asked about a hole that closes a scope.
    (
        CLOSING,
        (3, &[Some(RIGHT), Some(RIGHT)]),
        NOBODY,
        b"holey\nhole t1 hole\nfilled t1.t1 hole\n",
        2,
        &[2],
    ),
    // A step by an unknown rule is a hole where the words say so, and none in a reply.
    (
        IGNORED,
        (2, &[Some(BY_UNKNOWN_RULE)]),
        ONCE_MORE,
        b"valid\nfilled |t 1| |my rule|\n",
        0,
        &[1, 1],
    ),
    // Where the verdict isn't `holey`, nobody is asked.
    (
        FAULTY,
        ONCE_MORE,
        NOBODY,
        b"invalid\nstep |t 1|: unknown rule\n",
        1,
        &[2],
    ),
    (NO_HOLE, ONCE_MORE, NOBODY, b"valid\n", 0, &[2]),
    (
        HOLE_AND_FAULT,
        ONCE_MORE,
        NOBODY,
        b"invalid\nstep t2: condition not met\n",
        1,
        &[2],
    ),
    (
        HOLE_AND_WIDE,
        ONCE_MORE,
        NOBODY,
        b"unknown\nstep t2: too wide\n",
        4,
        &[2],
    ),
    (
        NO_PROOF,
        ONCE_MORE,
        NOBODY,
        b"refused\nproof 1: unknown command\n",
        3,
        &[2],
    ),
    (
        NO_PROBLEM,
        ONCE_MORE,
        NOBODY,
        b"refused\nproblem 1: unknown command\n",
        3,
        &[2],
    ),
];

// A filler that is out of memory, whatever it is asked.
#[derive(Drop)]
struct Exhausted {
    left: u64,
}

impl Filler for Exhausted {
    ghost budget = { λ filler. filler.left };

    ghost book = { λ filler. [] };

    fn left(&self) -> u64 {
        self.left
    }

    fn fill(&mut self, _question: &[u8]) -> Result<Option<Vec<u8>>, FillStop> {
        Err(FillStop::Memory)
    }
}

// A proof, a filler with a script, what is printed with its status, and the budgets of the two fillers behind it. The second one may be
// asked once, and is out of memory.
const OUT_OF_MEMORY: [(Texts, Script, &[u8], u8, [u64; 2]); 4] = [
    (ONE_HOLE, (2, &[Some(WRONG)]), b"", 7, [1, 1]),
    (ONE_HOLE, (2, &[Some(RIGHT)]), FILLED, 0, [1, 1]),
    // The first question was put all the same.
    (TWO_HOLES, (2, &[Some(RIGHT), None]), b"", 7, [0, 1]),
    (NO_HOLE, (2, &[Some(RIGHT)]), b"valid\n", 0, [2, 1]),
];

fn words_and(command: &'static str, texts: Texts) -> Call<'static> {
    Call {
        command,
        problem: texts.0,
        proof: texts.1,
        option: texts.2,
    }
}

// A filler with a script.
fn scripted(alloc: Global, script: Script) -> Result<ScriptFiller, AllocError> {
    let mut replies = Vec::new(alloc);
    for reply in script.1 {
        match reply {
            Some(bytes) => replies.push(Some(Vec::from_slice(alloc, bytes)?))?,
            None => replies.push(None)?,
        }
    }
    Ok(ScriptFiller::new(script.0, replies))
}

#[test]
fn replies_fill_holes(rt: HostRuntime) -> Result<(), Fail> {
    let alloc = rt.alloc();
    for (texts, first, second, printed, wanted, left) in CASES {
        let call = words_and("fill", texts);
        let mut fillers: Vec<Box<dyn Filler>> = Vec::new(alloc);
        fillers.push(Box::new(alloc, scripted(alloc, first)?)?)?;
        fillers.push(Box::new(alloc, scripted(alloc, second)?)?)?;
        let mut bench = Bench::new(fillers);
        let (status, output) = answered(&rt, &call, &mut bench)?;
        assert_eq!(rt; output.as_slice(), printed);
        assert_eq!(rt; status, wanted);
        assert_eq!(rt; budgets(alloc, &bench)?.as_slice(), left);
        drop(bench);
    }
    Ok(())
}

#[test]
fn fillers_may_be_out_of_memory(rt: HostRuntime) -> Result<(), Fail> {
    let alloc = rt.alloc();
    for (texts, script, printed, wanted, left) in OUT_OF_MEMORY {
        let call = words_and("fill", texts);
        let mut fillers: Vec<Box<dyn Filler>> = Vec::new(alloc);
        fillers.push(Box::new(alloc, scripted(alloc, script)?)?)?;
        fillers.push(Box::new(alloc, Exhausted { left: 1 })?)?;
        let mut bench = Bench::new(fillers);
        let (status, output) = answered(&rt, &call, &mut bench)?;
        assert_eq!(rt; output.as_slice(), printed);
        assert_eq!(rt; status, wanted);
        assert_eq!(rt; budgets(alloc, &bench)?.as_slice(), left.as_slice());
        drop(bench);
    }
    Ok(())
}

// Of other commands the bench is unchanged, also where a filler may be asked no more.
#[test]
fn other_commands_ask_nobody(rt: HostRuntime) -> Result<(), Fail> {
    let alloc = rt.alloc();
    let call = words_and("check", ONE_HOLE);
    let mut fillers: Vec<Box<dyn Filler>> = Vec::new(alloc);
    fillers.push(Box::new(alloc, scripted(alloc, (0, &[]))?)?)?;
    fillers.push(Box::new(alloc, scripted(alloc, (2, &[Some(RIGHT)]))?)?)?;
    let mut bench = Bench::new(fillers);
    let (status, output) = answered(&rt, &call, &mut bench)?;
    assert_eq!(rt; output.as_slice(), OPEN);
    assert_eq!(rt; status, 2);
    assert_eq!(rt; budgets(alloc, &bench)?.as_slice(), [0, 2].as_slice());
    drop(bench);
    Ok(())
}
