//! `fill` with fillers that each reply to one question alone: the questions of proofs, byte for byte; and which are too long.
ghost use Rattle.std.specs.Prelude.{◌≡◌, ◌<◌, ◌+◌, map, IfOk, OnErr};
ghost use Rattle.fillers.specs.Books.{reply_bytes, with_exchange};

use crate::fill_calls::{Call, answered, budgets};
use fillers::{FillStop, Filler, ScriptFiller};
use hole_fillers::Bench;
use std::alloc::{AllocError, Global};
use std::test::Fail;
use std::thread::Threads;

// A question and a reply to it.
type Known = (&'static [u8], &'static [u8]);

// One that nobody knows.
const NOTHING: Known = (b"", b"");

// A filler that replies to one question and to no other.
#[derive(Drop)]
struct Knowing {
    left: u64,
    question: Vec<u8>,
    reply: Vec<u8>,
    book: Vec<Entry>,
}

// A question that was asked, and the reply to it.
#[derive(Drop)]
struct Entry {
    question: Vec<u8>,
    reply: Option<Vec<u8>>,
}

// Some bytes, where there are some, once more.
fn copy(alloc: Global, reply: &Option<Vec<u8>>) -> Result<Option<Vec<u8>>, AllocError>
    ensures { IfOk result (λ copied. reply_bytes copied ≡ reply_bytes reply.now) }
{
    match reply {
        Some(bytes) => Ok(Some(bytes.to_vec(alloc)?)),
        None => Ok(None),
    }
}

impl Filler for Knowing {
    ghost budget = { λ filler. filler.left };

    ghost book = { λ filler. map (λ e. record { question = e.question.items; reply = reply_bytes e.reply }) filler.book.items };

    fn left(&self) -> u64 {
        self.left
    }

    fn fill(&mut self, question: &[u8]) -> Result<Option<Vec<u8>>, FillStop> {
        let alloc = *self.book.allocator();
        let reply = if question == self.question.as_slice() {
            Some(Vec::from_slice(alloc, &self.reply)?)
        } else {
            None
        };
        let entry = Entry {
            question: Vec::from_slice(alloc, question)?,
            reply: copy(alloc, &reply)?,
        };
        self.book.push(entry)?;
        self.left -= 1;
        Ok(reply)
    }
}

const CONTRADICTION: &[u8] = b"(declare-fun p () Bool)
(assert p)
(assert (not p))
";

// Three literals, asked about and as a premise: the two questions are one text.
const THREE: &[u8] = b"(declare-fun p () Bool)
(declare-fun q () Bool)
(declare-fun r () Bool)
(assert (or r p q))
(assert (not p))
(assert (not q))
(assert (not r))
";

const BY_THREE: &[u8] = b"(assume h (or r p q))
(assume n1 (not r))
(assume n2 (not p))
(assume n3 (not q))
(step t1 (cl r p q) :rule hole :premises (h))
(step t2 (cl) :rule hole :premises (t1 n1 n2 n3))
";

const OF_THREE: Known = (
    b"(declare-fun f1 () Bool)
(declare-fun f2 () Bool)
(declare-fun f3 () Bool)
(assert (or f1 f2 f3))
(assert (not f1))
(assert (not f2))
(assert (not f3))
(check-sat)
",
    b"(assume a (or f1 f2 f3))(assume b (not f1))(assume c (not f2))(assume d (not f3))
(step e (cl f1 f2 f3) :rule or :premises (a))(step f (cl) :rule resolution :premises (e b c d))",
);

// The empty clause as a premise.
const BY_NOTHING: &[u8] = b"(assume h1 p)
(assume h2 (not p))
(step t1 (cl) :rule resolution :premises (h1 h2))
(step t2 (cl) :rule hole :premises (t1))
";

const OF_FALSE: Known = (
    b"(assert false)
(check-sat)
",
    b"(assume a false)(step b (cl (not false)) :rule false)(step c (cl) :rule resolution :premises (a b))",
);

// Symbols that need bars.
const BARS: &[u8] = b"(declare-sort |my sort| 0)
(declare-fun |a b| () |my sort|)
(declare-fun |is odd| (|my sort|) Bool)
(assert (|is odd| |a b|))
(assert (not (|is odd| |a b|)))
";

const BY_BARS: &[u8] = b"(assume |h 1| (|is odd| |a b|))
(assume |h 2| (not (|is odd| |a b|)))
(step |t 1| (cl) :rule hole :premises (|h 1| |h 2|))
";

const OF_BARS: Known = (
    b"(declare-sort S1 0)
(declare-fun f1 (S1) Bool)
(declare-fun f2 () S1)
(assert (f1 f2))
(assert (not (f1 f2)))
(check-sat)
",
    b"(assume a (f1 f2))(assume b (not (f1 f2)))(step c (cl) :rule resolution :premises (a b))",
);

// Names that questions have too, in another order.
const OTHER_NAMES: &[u8] = b"(declare-sort S1 0)
(declare-sort S2 0)
(declare-fun f1 () S1)
(declare-fun f2 () S2)
(declare-fun v1 (S2 S1) Bool)
(assert (v1 f2 f1))
(assert (not (v1 f2 f1)))
";

const BY_OTHER_NAMES: &[u8] = b"(assume h1 (v1 f2 f1))
(assume h2 (not (v1 f2 f1)))
(step t1 (cl) :rule hole :premises (h1 h2))
";

const OF_OTHER_NAMES: Known = (
    b"(declare-sort S1 0)
(declare-sort S2 0)
(declare-fun f1 (S1 S2) Bool)
(declare-fun f2 () S1)
(declare-fun f3 () S2)
(assert (f1 f2 f3))
(assert (not (f1 f2 f3)))
(check-sat)
",
    b"(assume a (f1 f2 f3))(assume b (not (f1 f2 f3)))(step c (cl) :rule resolution :premises (a b))",
);

// Names that are all alike: a function, and variables of two sorts.
const ALIKE: &[u8] = b"(declare-fun x () Bool)
(assert x)
(assert (not x))
";

const BY_ALIKE: &[u8] = b"(assume h1 x)
(assume h2 (not x))
(step t1 (cl (not x) (let ((x x)) x) (let ((x 1)) (= x 1))) :rule hole)
(step t2 (cl) :rule resolution :premises (h1 h2))
";

const OF_ALIKE: Known = (
    b"(declare-fun f1 () Bool)
(assert (not (not f1)))
(assert (not (let ((v1 f1)) v1)))
(assert (not (let ((v2 1)) (= v2 1))))
(check-sat)
",
    b"(assume a (not (not f1)))(assume b (not (let ((v1 f1)) v1)))
(anchor :step l :args ((:= (v1 Bool) f1)))(step l.1 (cl (= v1 f1)) :rule refl)
(step l (cl (= (let ((v1 f1)) v1) f1)) :rule let)
(step m (cl (let ((v1 f1)) v1) (not f1)) :rule equiv2 :premises (l))
(step n (cl) :rule resolution :premises (a b m))",
);

// Inside an anchor with an image. A question says of the image what the hole's premises say.
const IMAGE: &[u8] = b"(declare-sort U 0)
(declare-fun a () U)
(declare-fun g (U) Bool)
(assert (let ((x a)) (g x)))
(assert (not (g a)))
";

const BY_IMAGE: &[u8] = b"(assume h1 (let ((x a)) (g x)))
(assume h2 (not (g a)))
(anchor :step t1 :args ((:= (x U) a)))
(step t1.t1 (cl (= x a)) :rule refl)
(step t1.t2 (cl (= (g x) (g a))) :rule hole :premises (t1.t1))
(step t1.t3 (cl (= (g x) (g a))) :rule hole)
(step t1 (cl (= (let ((x a)) (g x)) (g a))) :rule let)
(step t2 (cl (not (let ((x a)) (g x))) (g a)) :rule equiv1 :premises (t1))
(step t3 (cl) :rule resolution :premises (h1 t2 h2))
";

const OF_IMAGE: Known = (
    b"(declare-sort S1 0)
(declare-fun f1 () S1)
(declare-fun f2 (S1) Bool)
(declare-fun v1 () S1)
(assert (= v1 f1))
(assert (not (= (f2 v1) (f2 f1))))
(check-sat)
",
    b"(assume a (= v1 f1))(assume b (not (= (f2 v1) (f2 f1))))
(step c (cl (= (f2 v1) (f2 f1))) :rule cong :premises (a))(step d (cl) :rule resolution :premises (c b))",
);

const WITHOUT_IMAGE: Known = (
    b"(declare-sort S1 0)
(declare-fun f1 (S1) Bool)
(declare-fun f2 () S1)
(declare-fun v1 () S1)
(assert (not (= (f1 v1) (f1 f2))))
(check-sat)
",
    b"(assume a (= v1 f2))(assume b (not (= (f1 v1) (f1 f2))))
(step c (cl (= (f1 v1) (f1 f2))) :rule cong :premises (a))(step d (cl) :rule resolution :premises (c b))",
);

// Numbers.
const NUMBERS: &[u8] = b"(declare-fun a () Int)
(assert (<= (+ a 1) a))
";

const BY_NUMBERS: &[u8] = b"(assume h1 (<= (+ a 1) a))
(step t1 (cl (not (<= (+ a 1) a))) :rule lia_generic)
(step t2 (cl) :rule resolution :premises (h1 t1))
";

const OF_NUMBERS: Known = (
    b"(declare-fun f1 () Int)
(assert (not (not (<= (+ f1 1) f1))))
(check-sat)
",
    b"(assume h1 (not (not (<= (+ f1 1) f1))))
(step t1 (cl (not (not (not (<= (+ f1 1) f1))))) :rule la_generic :args (1))
(step t2 (cl) :rule resolution :premises (t1 h1))",
);

// The example `congruence` of examples/, as cvc5 printed it, and the questions about its holes with replies to them: the files
// `congruence.t11` and `congruence.t13` there.
const EXAMPLE: &[u8] = b"(set-logic QF_UF)
; f(a) and f(c) differ although a = b = c
(declare-sort U 0)
(declare-const a U)
(declare-const b U)
(declare-const c U)
(declare-fun f (U) U)
(assert (= a b))
(assert (= b c))
(assert (not (= (f a) (f c))))
(check-sat)
";

const BY_EXAMPLE: &[u8] = b"unsat
(assume a0 (= a b))
(assume a1 (= b c))
(assume a2 (not (= (f a) (f c))))
(step t1 (cl (not (= (not (= (f a) (f c))) false)) (not (not (= (f a) (f c)))) false) :rule equiv_pos2)
(step t2 (cl (and (= b c) (= a b)) (not (= b c)) (not (= a b))) :rule and_neg)
(step t3 (cl (and (= b c) (= a b))) :rule resolution :premises (t2 a1 a0))
(step t4 (cl (= a b)) :rule and :premises (t3))
(step t5 (cl (= b c)) :rule and :premises (t3))
(step t6 (cl (= a c)) :rule trans :premises (t4 t5))
(step t7 (cl (= (f a) (f c))) :rule cong :premises (t6))
(step t8 (cl (= (f c) (f c))) :rule refl)
(step t9 (cl (= (= (f a) (f c)) (= (f c) (f c)))) :rule cong :premises (t7 t8))
(step t10 (cl (= (not (= (f a) (f c))) (not (= (f c) (f c))))) :rule cong :premises (t9))
(step t11 (cl (= (= (f c) (f c)) true)) :rule all_simplify)
(step t12 (cl (= (not (= (f c) (f c))) (not true))) :rule cong :premises (t11))
(step t13 (cl (= (not true) false)) :rule all_simplify)
(step t14 (cl (= (not (= (f c) (f c))) false)) :rule trans :premises (t12 t13))
(step t15 (cl (= (not (= (f a) (f c))) false)) :rule trans :premises (t10 t14))
(step t16 (cl) :rule resolution :premises (t1 t15 a2))

";

const OF_T11: Known = (
    b"(declare-sort S1 0)
(declare-fun f1 (S1) S1)
(declare-fun f2 () S1)
(assert (not (= (= (f1 f2) (f1 f2)) true)))
(check-sat)
",
    b"(assume h (not (= (= (f1 f2) (f1 f2)) true)))
(step t1 (cl (= (= (f1 f2) (f1 f2)) true)) :rule eq_simplify)
(step t2 (cl) :rule resolution :premises (t1 h))
",
);

const OF_T13: Known = (
    b"(assert (not (= (not true) false)))
(check-sat)
",
    b"(assume h (not (= (not true) false)))
(step t1 (cl (= (not true) false)) :rule not_simplify)
(step t2 (cl) :rule resolution :premises (t1 h))
",
);

// A problem and a proof, what is known of the questions, what is printed with its status, and how many questions are left of three
// that each filler may be asked.
type Case = (
    (&'static [u8], &'static [u8]),
    [Known; 2],
    (&'static [u8], u8),
    [u64; 2],
);

const CASES: [Case; 9] = [
    (
        (THREE, BY_THREE),
        [OF_THREE, NOTHING],
        (b"valid\nfilled t1 hole\nfilled t2 hole\n", 0),
        [1, 3],
    ),
    (
        (CONTRADICTION, BY_NOTHING),
        [OF_FALSE, NOTHING],
        (b"valid\nfilled t2 hole\n", 0),
        [2, 3],
    ),
    (
        (BARS, BY_BARS),
        [OF_BARS, NOTHING],
        (b"valid\nfilled |t 1| hole\n", 0),
        [2, 3],
    ),
    (
        (OTHER_NAMES, BY_OTHER_NAMES),
        [OF_OTHER_NAMES, NOTHING],
        (b"valid\nfilled t1 hole\n", 0),
        [2, 3],
    ),
    (
        (ALIKE, BY_ALIKE),
        [OF_ALIKE, NOTHING],
        (b"valid\nfilled t1 hole\n", 0),
        [2, 3],
    ),
    (
        (IMAGE, BY_IMAGE),
        [OF_IMAGE, WITHOUT_IMAGE],
        (b"holey\nhole t1.t3 hole\nfilled t1.t2 hole\n", 2),
        [1, 2],
    ),
    (
        (NUMBERS, BY_NUMBERS),
        [OF_NUMBERS, NOTHING],
        (b"valid\nfilled t1 lia_generic\n", 0),
        [2, 3],
    ),
    (
        (EXAMPLE, BY_EXAMPLE),
        [OF_T11, OF_T13],
        (
            b"valid\nfilled t11 all_simplify\nfilled t13 all_simplify\n",
            0,
        ),
        [1, 2],
    ),
    (
        (EXAMPLE, BY_EXAMPLE),
        [OF_T13, NOTHING],
        (
            b"holey\nhole t11 all_simplify\nfilled t13 all_simplify\n",
            2,
        ),
        [1, 2],
    ),
];

// A filler that knows this, and may be asked three questions.
fn made(alloc: Global, known: Known) -> Result<Knowing, AllocError> {
    Ok(Knowing {
        left: 3,
        question: Vec::from_slice(alloc, known.0)?,
        reply: Vec::from_slice(alloc, known.1)?,
        book: Vec::new(alloc),
    })
}

#[test]
fn questions_are_asked(rt: HostRuntime) -> Result<(), Fail> {
    let alloc = rt.alloc();
    for (texts, known, wanted, left) in CASES {
        let call = Call {
            command: "fill",
            problem: texts.0,
            proof: texts.1,
            option: "",
        };
        let mut fillers: Vec<Box<dyn Filler>> = Vec::new(alloc);
        fillers.push(Box::new(alloc, made(alloc, known[0])?)?)?;
        fillers.push(Box::new(alloc, made(alloc, known[1])?)?)?;
        let mut bench = Bench::new(fillers);
        let (status, output) = answered(&rt, &call, &mut bench)?;
        assert_eq!(rt; output.as_slice(), wanted.0);
        assert_eq!(rt; status, wanted.1);
        assert_eq!(rt; budgets(alloc, &bench)?.as_slice(), left.as_slice());
        drop(bench);
    }
    Ok(())
}

// How often `p` and `true` stand in a disjunction, behind a disjunction of 1,000 times `p` that stands there 348 times; and whether it is
// asked about. The text of the question has 57 bytes, 3,005 for each of these, 3 for each `p` and 5 for each `true`, which is 1,048,576
// in the first row, and one more in the second. A question has at most 1,048,576.
//
// (declare-fun f1 () Bool)             25 with the line's end
// (assert (not (or (or f1 ..) ..)))    20 without what stands behind the first `or`
// (check-sat)                          12
const LENGTHS: [(u32, u32, bool); 2] = [(923, 2, true), (925, 1, false)];

const OPEN: &[u8] = b"holey\nhole t1 hole\n";

// Adds some bytes so many times.
fn repeat(text: &mut Vec<u8>, piece: &[u8], times: u32) -> Result<(), AllocError> {
    for _ in 0..times {
        text.extend_from_slice(piece)?;
    }
    Ok(())
}

// A hole whose clause is that disjunction.
fn disjunction(alloc: Global, names: u32, truths: u32) -> Result<Vec<u8>, AllocError> {
    let mut text = Vec::from_slice(alloc, b"(step t1 (cl (or (! (or")?;
    repeat(&mut text, b" p", 1_000)?;
    text.extend_from_slice(b") :named @c)")?;
    repeat(&mut text, b" @c", 347)?;
    repeat(&mut text, b" p", names)?;
    repeat(&mut text, b" true", truths)?;
    text.extend_from_slice(b")) :rule hole)\n")?;
    Ok(text)
}

// A hole whose clause is a conjunction of two that are one term, so often one in another.
fn conjunction(alloc: Global, depth: u32) -> Result<Vec<u8>, AllocError> {
    let mut text = Vec::from_slice(alloc, b"(step t1 (cl ")?;
    repeat(&mut text, b"(! (and ", depth)?;
    text.extend_from_slice(b"(! p :named @0)")?;
    for k in 0..depth {
        let end = format!(in alloc; " @{k}) :named @{})", u64::from(k) + 1)?;
        text.extend_from_slice(end.as_bytes())?;
    }
    text.extend_from_slice(b") :rule hole)\n")?;
    Ok(text)
}

// What is printed of a proof with this hole, behind which stands a proof without holes; and whether the hole was asked about.
fn told_and_asked<R: AllocGlobal + Threads + Sync>(
    rt: &R,
    hole: &[u8],
) -> Result<(Vec<u8>, bool), AllocError> {
    let alloc = rt.alloc();
    let mut proof = Vec::from_slice(alloc, hole)?;
    proof.extend_from_slice(
        b"(assume h1 p)(assume h2 (not p))(step t2 (cl) :rule resolution :premises (h1 h2))",
    )?;
    let call = Call {
        command: "fill",
        problem: CONTRADICTION,
        proof: &proof,
        option: "",
    };
    let mut fillers: Vec<Box<dyn Filler>> = Vec::new(alloc);
    fillers.push(Box::new(alloc, ScriptFiller::new(1, Vec::new(alloc)))?)?;
    let mut bench = Bench::new(fillers);
    let (_, output) = answered(rt, &call, &mut bench)?;
    let left = budgets(alloc, &bench)?;
    drop(bench);
    drop(proof);
    Ok((output, left.as_slice() == [0].as_slice()))
}

#[test]
fn long_questions_are_not_asked(rt: HostRuntime) -> Result<(), Fail> {
    let alloc = rt.alloc();
    for (names, truths, wanted) in LENGTHS {
        let hole = disjunction(alloc, names, truths)?;
        let (output, is_asked) = told_and_asked(&rt, &hole)?;
        assert_eq!(rt; output.as_slice(), OPEN);
        assert_eq!(rt; is_asked, wanted, "{names} names");
        drop(hole);
    }
    // 9 * 2^12 - 7 bytes for the term, and 9 * 2^900 - 7.
    for (depth, wanted) in [(12, true), (900, false)] {
        let hole = conjunction(alloc, depth)?;
        let (output, is_asked) = told_and_asked(&rt, &hole)?;
        assert_eq!(rt; output.as_slice(), OPEN);
        assert_eq!(rt; is_asked, wanted, "{depth} in one another");
        drop(hole);
    }
    Ok(())
}
