// Reading a whole file, and writing a whole text, over any folder and any sink.
ghost use Rattle.std.specs.Prelude.{◌≡◌, ◌≤◌, ◌↔◌, List, [], ℕ, length, vec_len, IfOk, OnOk, OnErr, IsErrOf};
ghost use Rattle.std.specs.Io.KnownBytes.{Appends};
ghost use Rattle.file_ports.specs.Faults.{HasRisen};
ghost use Rattle.file_ports.specs.Texts.{AreTold, IsLongerThan, AppendsPrefix};
ghost use Rattle.file_ports.specs.Pieces.{AddsPiece};

use crate::{Failed, FileNo, Folder, OutStop, Sink};
use std::alloc::{AllocError, Global};

/// The most bytes that a file may have: 256 MiB.
pub const MOST_BYTES: usize = 268_435_456;

/// The most bytes that one read asks for: 64 KiB.
pub const PIECE_BYTES: usize = 65_536;

/// The bytes that a text has room for from the start: 32 MiB.
// Memory that is asked for in one piece of this size is handed out in large pages, and only as far as it is written: a text
// that grows up to there from a small piece is moved some ten times, and lies in small pages.
const FIRST_ROOM: usize = 33_554_432;

/// Why a file was not read whole.
#[derive(Clone, Copy, Debug, PartialEq, Eq)]
pub enum ReadStop {
    /// The folder failed.
    Fault,
    /// The file gave more than `MOST_BYTES` bytes.
    TooLong,
    /// Out of memory, here or in the folder.
    Memory,
}

impl From<AllocError> for ReadStop {
    ghost use Rattle.file_ports.specs.declared.whole.ReadStop.TheVariants.{Memory};

    ghost from_gives = { λ _ e. e ≡ Memory };

    fn from(_: AllocError) -> Self {
        ReadStop::Memory
    }
}

impl From<Failed> for ReadStop {
    ghost use Rattle.file_ports.specs.declared.whole.ReadStop.TheVariants.{Fault};

    ghost from_gives = { λ _ e. e ≡ Fault };

    fn from(_: Failed) -> Self {
        ReadStop::Fault
    }
}

impl From<OutStop> for ReadStop {
    ghost use Rattle.file_ports.specs.Stops.{stop_of};

    ghost from_gives = { λ stop e. e ≡ stop_of stop };

    fn from(stop: OutStop) -> Self {
        match stop {
            OutStop::Failed => ReadStop::Fault,
            OutStop::Memory => ReadStop::Memory,
        }
    }
}

/// Reads the file at a path whole, in pieces of at most `PIECE_BYTES`.
///
/// A file of more than `MOST_BYTES` bytes is refused as `TooLong`, after one byte more was read of it. `Fault` is a
/// failure of the folder, at any of the calls: what was read before is given up.
pub fn read_whole<F: Folder>(alloc: Global, folder: &mut F, path: &str) -> Result<Vec<u8>, ReadStop>
    requires { F.may_ask folder.old path.now }

    ensures bytes { IfOk result (λ bytes. AreTold (F.content folder.old path.now) bytes.items) }
    ensures within { IfOk result (λ bytes. vec_len bytes ≤ MOST_BYTES) }
    ensures too_long { IsErrOf result ReadStop.TooLong → IsLongerThan MOST_BYTES (F.content folder.old path.now) }
    ensures fault { IsErrOf result ReadStop.Fault → HasRisen (F.faults folder.old) (F.faults folder.new) }

    ensures count { F.faults folder.old ≤ F.faults folder.new }
    ensures content { F.content folder.new ≡ F.content folder.old }
    ensures may_ask { (asked : List ℕ) → F.may_ask folder.new asked ↔ F.may_ask folder.old asked }
{
    let file = folder.open(path)?;
    let mut piece = new_piece(alloc, PIECE_BYTES)?;
    let mut bytes = no_bytes(alloc);
    'pieces: loop {
        let room = PIECE_BYTES.min(MOST_BYTES + 1 - bytes.len());
        let n = add_piece(folder, file, &mut piece[..room], &mut bytes)?;
        if n == 0 {
            return Ok(bytes);
        }
        if bytes.len() > MOST_BYTES {
            return Err(ReadStop::TooLong);
        }
    }
}

// One read, whose bytes are put behind those that were read before. Answers how many they are.
fn add_piece<F: Folder>(
    folder: &mut F,
    file: FileNo,
    piece: &mut [u8],
    bytes: &mut Vec<u8>,
) -> Result<usize, ReadStop>
    requires { F.is_open folder.old file.0 }

    ensures adds { IfOk result (AddsPiece (F.left folder.old file.0) (F.left folder.new file.0)
        bytes.old.items bytes.new.items (length piece.old)) }
    ensures no_bound { IsErrOf result ReadStop.TooLong → ⊥ }
    ensures fault { IsErrOf result ReadStop.Fault → HasRisen (F.faults folder.old) (F.faults folder.new) }

    ensures still_open { F.is_open folder.new file.0 }
    ensures count { F.faults folder.old ≤ F.faults folder.new }
    ensures content { F.content folder.new ≡ F.content folder.old }
    ensures may_ask { (asked : List ℕ) → F.may_ask folder.new asked ↔ F.may_ask folder.old asked }
{
    let n = folder.read(file, piece)?;
    bytes.extend_from_slice(&piece[..n])?;
    Ok(n)
}

// No bytes yet, with room for `FIRST_ROOM` where there is as much memory.
fn no_bytes(alloc: Global) -> Vec<u8>
    ensures { result.items ≡ [] }
{
    match Vec::with_capacity(alloc, FIRST_ROOM) {
        Ok(bytes) => bytes,
        Err(_) => Vec::new(alloc),
    }
}

// Room for the bytes of one read.
fn new_piece(alloc: Global, len: usize) -> Result<Vec<u8>, AllocError>
    ensures { IfOk result (λ piece. vec_len piece ≡ len) }
{
    vec![in alloc; 0u8; len]
}

/// Writes a whole text, in as many writes as the sink needs. After an error some beginning of the text was taken.
pub fn write_whole<S: Sink>(out: &mut S, text: &[u8]) -> Result<(), OutStop>
    ensures all { OnOk result (Appends (S.written out.old) (S.written out.new) text.now) }
    ensures prefix { OnErr result (AppendsPrefix (S.written out.old) (S.written out.new) text.now) }

    ensures count { S.faults out.old ≤ S.faults out.new }
    ensures failed { IsErrOf result OutStop.Failed → HasRisen (S.faults out.old) (S.faults out.new) }
{
    let mut done = 0;
    'writes: while done < text.len() {
        let n = out.write(&text[done..])?;
        if n == 0 {
            return Err(OutStop::Failed);
        }
        done += n;
    }
    Ok(())
}
