//! What no contract says: that the top call has as many workers as the words ask for, that these work beside each other, and that
//! each chunk is checked, and elaborated, behind the gate, also of the generator's texts.
use carcara_cli::carcara;
use file_ports::{Gate, MemoryFolder, MemorySink};
use std::alloc::{AllocError, Global};
use std::sync::atomic::{AtomicU64, Ordering};
use std::test::Fail;
use std::thread::Threads;

static PROBLEM: &[u8] = b"(set-logic QF_UF)
(declare-fun p () Bool)
(assert p)
(assert (not p))
(check-sat)
";

// How often a worker that waits looks whether it may go on.
const TURNS: u64 = 2_000_000_000;

// The first chunks, one or two, wait each for the next one to be left. The n-th time that such a chunk is entered it waits for
// the n-th time that the next one is left.
#[derive(Drop)]
struct LastFirst {
    waits_for_third: bool,
    entered: AtomicU64,
    second: AtomicU64,
    third: AtomicU64,
    gave_up: AtomicU64,
}

impl LastFirst {
    fn new(waits_for_third: bool) -> LastFirst {
        LastFirst {
            waits_for_third,
            entered: AtomicU64::new(0),
            second: AtomicU64::new(0),
            third: AtomicU64::new(0),
            gave_up: AtomicU64::new(0),
        }
    }

    fn wait(&self, left: &AtomicU64, times: u64) {
        for _ in 0..TURNS {
            if left.load(Ordering::SeqCst) > times {
                return;
            }
        }
        self.gave_up.store(1, Ordering::SeqCst);
    }
}

impl Gate for LastFirst {
    fn enter(&self, k: u64) {
        if k == 0 {
            let times = self.entered.fetch_add(1, Ordering::SeqCst);
            self.wait(&self.second, times);
        }
        if k == 1 && self.waits_for_third {
            self.wait(&self.third, 0);
        }
    }

    fn leave(&self, k: u64) {
        if k == 1 {
            self.second.fetch_add(1, Ordering::SeqCst);
        }
        if k == 2 {
            self.third.fetch_add(1, Ordering::SeqCst);
        }
    }
}

// A proof of an assume, of steps with numbers below a last one, and of a hole with that number.
fn proof_of(alloc: Global, last: u32) -> Result<Vec<u8>, AllocError> {
    let mut text = Vec::from_slice(alloc, b"(assume h1 p)\n")?;
    for k in 1..last {
        let step = format!(in alloc; "(step t{k} (cl p) :rule contraction :premises (h1))\n")?;
        text.extend_from_slice(step.as_bytes())?;
    }
    let hole = format!(in alloc; "(step t{last} (cl) :rule hole)\n")?;
    text.extend_from_slice(hole.as_bytes())?;
    Ok(text)
}

// The words of a command by so many workers.
fn words_with(alloc: Global, command: &str, workers: &str) -> Result<Vec<String>, AllocError> {
    let mut words = Vec::new(alloc);
    words.push(String::from_str(alloc, command)?)?;
    words.push(String::from_str(alloc, "PROOF")?)?;
    words.push(String::from_str(alloc, "PROBLEM")?)?;
    words.push(String::from_str(alloc, "--num-threads")?)?;
    words.push(String::from_str(alloc, workers)?)?;
    Ok(words)
}

// What the top call prints and returns by so many workers, who check or elaborate a proof with a last step of this number behind a gate.
fn answered<R: AllocGlobal + Threads + Sync>(
    rt: &R,
    gate: &LastFirst,
    command: &str,
    workers: &str,
    last: u32,
) -> Result<(u8, Vec<u8>), AllocError> {
    let alloc = rt.alloc();
    let mut files = Vec::new(alloc);
    files.push((
        String::from_str(alloc, "PROBLEM")?,
        Vec::from_slice(alloc, PROBLEM)?,
    ))?;
    files.push((String::from_str(alloc, "PROOF")?, proof_of(alloc, last)?))?;
    let words = words_with(alloc, command, workers)?;
    let mut folder = MemoryFolder::new(files, 65_536, Vec::new(alloc));
    let mut out = MemorySink::new(65_536, Vec::new(alloc));
    let status = carcara(rt, &words, &mut folder, &mut out, gate);
    let output = Vec::from_slice(alloc, out.written())?;
    drop(out);
    drop(folder);
    drop(words);
    Ok((status, output))
}

// 101 commands, in two chunks: one worker is held at the first chunk until another one has left the second.
#[test]
fn two_workers_work_beside_each_other(rt: HostRuntime) -> Result<(), Fail> {
    let gate = LastFirst::new(false);
    let answer = answered(&rt, &gate, "check", "2", 100).ok();
    assert!(rt;
        answer.is_some_and(|(status, output)| status == 2
            && output.as_slice() == b"holey\nhole t100 hole\n".as_slice())
    );
    assert!(rt; gate.gave_up.load(Ordering::SeqCst) == 0);
    Ok(())
}

// The same 101 commands are gone over three times: they are checked, checked in strict mode, and elaborated. Each time one worker is
// held at the first chunk until another one has left the second.
#[test]
fn two_workers_elaborate_beside_each_other(rt: HostRuntime) -> Result<(), Fail> {
    let gate = LastFirst::new(false);
    let answer = answered(&rt, &gate, "elaborate", "2", 100).ok();
    assert!(rt; answer.is_some_and(|(status, _)| status == 2));
    assert!(rt; gate.entered.load(Ordering::SeqCst) == 3);
    assert!(rt; gate.gave_up.load(Ordering::SeqCst) == 0);
    Ok(())
}

// 192 commands, in three chunks: the third is left before the second, and the second before the first.
#[test]
fn three_workers_work_beside_each_other(rt: HostRuntime) -> Result<(), Fail> {
    let gate = LastFirst::new(true);
    let answer = answered(&rt, &gate, "check", "3", 191).ok();
    assert!(rt;
        answer.is_some_and(|(status, output)| status == 2
            && output.as_slice() == b"holey\nhole t191 hole\n".as_slice())
    );
    assert!(rt; gate.gave_up.load(Ordering::SeqCst) == 0);
    Ok(())
}

// The words of a command over the generator's texts of three links, by two workers.
fn generate_by_two(alloc: Global) -> Result<Vec<String>, AllocError> {
    let mut words = Vec::new(alloc);
    words.push(String::from_str(alloc, "generate")?)?;
    words.push(String::from_str(alloc, "3")?)?;
    words.push(String::from_str(alloc, "--num-threads")?)?;
    words.push(String::from_str(alloc, "2")?)?;
    Ok(words)
}

// What the top call prints and returns of these words behind a gate.
fn generated<R: AllocGlobal + Threads + Sync>(
    rt: &R,
    gate: &LastFirst,
) -> Result<(u8, Vec<u8>), AllocError> {
    let alloc = rt.alloc();
    let words = generate_by_two(alloc)?;
    let mut folder = MemoryFolder::new(Vec::new(alloc), 65_536, Vec::new(alloc));
    let mut out = MemorySink::new(65_536, Vec::new(alloc));
    let status = carcara(rt, &words, &mut folder, &mut out, gate);
    let output = Vec::from_slice(alloc, out.written())?;
    drop(out);
    drop(folder);
    drop(words);
    Ok((status, output))
}

// The 84 commands of three links, in two chunks.
#[test]
fn two_workers_check_generated_texts_beside_each_other(rt: HostRuntime) -> Result<(), Fail> {
    let gate = LastFirst::new(false);
    let answer = generated(&rt, &gate).ok();
    assert!(rt;
        answer.is_some_and(|(status, output)| status == 0
            && output.as_slice() == b"steps 84\ncells 228\nvalid\n".as_slice())
    );
    assert!(rt; gate.gave_up.load(Ordering::SeqCst) == 0);
    Ok(())
}
