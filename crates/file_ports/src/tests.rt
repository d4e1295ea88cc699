use super::*;
use std::alloc::{AllocError, Global};
use std::fs;
use std::process::Abort;
use std::test::Fail;

// 43 bytes.
const TEXT: &[u8; 43] = b"the quick brown fox jumps over the lazy dog";

// The file of the test of real files, in the folder that the test runs in.
const PATH: &str = "file_ports_test.txt";

// What owns much is let go by calls of `drop` in these tests: let go in parts, at the end of a scope, it is dear to prove.

// A folder of two files, whose reads give at most 7 bytes, and of which the call with this number fails.
fn two_files(alloc: Global, failing: u64) -> Result<MemoryFolder, AllocError> {
    let mut files = Vec::new(alloc);
    add_file(alloc, &mut files, "a", TEXT)?;
    add_file(alloc, &mut files, "empty", b"")?;
    let failing = vec![in alloc; failing]?;
    Ok(MemoryFolder::new(files, 7, failing))
}

fn add_file(
    alloc: Global,
    files: &mut Vec<(String, Vec<u8>)>,
    path: &str,
    text: &[u8],
) -> Result<(), AllocError> {
    let path = String::from_str(alloc, path)?;
    files.push((path, text.to_vec(alloc)?))?;
    Ok(())
}

fn expect_whole<F: Folder>(
    rt: &(impl Abort + AllocGlobal),
    folder: &mut F,
    path: &str,
    expected: Result<&[u8], ReadStop>,
)
    requires { F.may_ask folder.old path.now }
{
    match read_whole(rt.alloc(), folder, path) {
        Ok(bytes) => assert_eq!(rt; Ok(bytes.as_slice()), expected, "{path}"),
        Err(stop) => assert_eq!(rt; Err(stop), expected, "{path}"),
    }
}

#[test]
fn a_file_in_memory_is_read_whole(rt: HostRuntime) -> Result<(), Fail> {
    let alloc = rt.alloc();
    let whole = Ok(TEXT.as_slice());
    // Of the calls of one run, 0 opens, 1 to 7 give 7 bytes at most, and 8 finds the end.
    let cases = [
        ("a", 9, whole),
        ("empty", 9, Ok(b"".as_slice())),
        ("absent", 9, Err(ReadStop::Fault)),
        ("a", 0, Err(ReadStop::Fault)),
        ("a", 2, Err(ReadStop::Fault)),
        ("a", 8, Err(ReadStop::Fault)),
    ];
    for (path, failing, expected) in cases {
        let mut folder = two_files(alloc, failing)?;
        expect_whole(&rt, &mut folder, path, expected);
        drop(folder);
    }
    Ok(())
}

#[test]
fn a_steady_folder_starts_anew(rt: HostRuntime) -> Result<(), Fail> {
    let alloc = rt.alloc();
    let mut folder = SteadyFolder::new(TEXT.to_vec(alloc)?, b"other".to_vec(alloc)?);
    for path in ["problem", "problem", "proof", "problem.smt2", "problem"] {
        let expected = if path == "problem" {
            TEXT.as_slice()
        } else {
            b"other".as_slice()
        };
        expect_whole(&rt, &mut folder, path, Ok(expected));
    }
    drop(folder);
    Ok(())
}

// A sink whose writes take at most 16 bytes, and of which the write with this number fails.
fn failing_sink(alloc: Global, failing: u64) -> Result<MemorySink, AllocError> {
    let failing = vec![in alloc; failing]?;
    Ok(MemorySink::new(16, failing))
}

fn expect_written(
    rt: &impl Abort,
    sink: &mut MemorySink,
    expected: Result<(), OutStop>,
    written: &[u8],
) {
    assert_eq!(rt; write_whole(sink, TEXT), expected);
    assert_eq!(rt; sink.written(), written);
}

#[test]
fn a_text_is_written_whole(rt: HostRuntime) -> Result<(), Fail> {
    // Of three writes, of 16, 16 and 11 bytes, one may fail.
    let cases = [
        (3, Ok(()), TEXT.as_slice()),
        (
            2,
            Err(OutStop::Failed),
            b"the quick brown fox jumps over t".as_slice(),
        ),
        (0, Err(OutStop::Failed), b"".as_slice()),
    ];
    for (failing, expected, written) in cases {
        let mut sink = failing_sink(rt.alloc(), failing)?;
        expect_written(&rt, &mut sink, expected, written);
        drop(sink);
    }
    Ok(())
}

#[test]
fn a_real_file_is_read_whole(rt: HostRuntime) -> Result<(), Fail> {
    let long = vec![in rt.alloc(); b'x'; 2 * PIECE_BYTES + 1]?;
    fs::write(&rt, PATH, long.as_slice())?;
    let mut folder = RealFolder::new(&rt, rt.alloc());
    expect_whole(&rt, &mut folder, PATH, Ok(long.as_slice()));
    expect_whole(&rt, &mut folder, "no such file", Err(ReadStop::Fault));
    // A directory is opened, and not read.
    expect_whole(&rt, &mut folder, ".", Err(ReadStop::Fault));
    drop(folder);
    drop(long);
    fs::remove_file(&rt, PATH)?;
    Ok(())
}

#[test]
fn standard_output_is_written(rt: HostRuntime) {
    let mut sink = RealSink::new(&rt);
    assert_eq!(rt;
        write_whole(&mut sink, b"a line on standard output\n"),
        Ok(())
    );
}

fn pass<G: Gate>(gate: &G) {
    gate.enter(0);
    gate.leave(0);
}

#[test]
fn an_open_gate_lets_pass() {
    pass(&OpenGate);
}
