// What the checker sees of the outside: files that it reads, a stream that it writes, and a gate at its chunks of work.
ghost use Rattle.std.specs.Prelude.{◌≡◌, ◌≢◌, ◌<◌, ◌≤◌, ◌↔◌, List, ℕ, length, Option, IfOk, OnErr, IsErrOf, Ok};
ghost use Rattle.std.specs.Io.{ReadsAtMost, WritesAtMost};
ghost use Rattle.std.specs.Io.KnownBytes.{ReadConsumes, WriteAppends};
ghost use Rattle.file_ports.specs.Faults.{greatest_count, HasRisen};

use std::alloc::{AllocError, AllocFailed};

/// A read that failed.
#[derive(Clone, Copy, Debug, PartialEq, Eq)]
pub struct Failed;

/// Why a call to the outside gave nothing: a fault of the outside, or out of memory in the object itself.
#[derive(Clone, Copy, Debug, PartialEq, Eq)]
pub enum OutStop {
    Failed,
    Memory,
}

impl From<AllocError> for OutStop {
    ghost use Rattle.file_ports.specs.declared.ports.OutStop.TheVariants.{Memory};

    ghost from_gives = { λ _ e. e ≡ Memory };

    fn from(_: AllocError) -> Self {
        OutStop::Memory
    }
}

impl<T: Drop> From<AllocFailed<T>> for OutStop {
    ghost use Rattle.file_ports.specs.declared.ports.OutStop.TheVariants.{Memory};

    ghost from_gives = { λ _ e. e ≡ Memory };

    fn from(_: AllocFailed<T>) -> Self {
        OutStop::Memory
    }
}

/// The number of an open file, as the folder that opened it gave it.
#[derive(Clone, Copy, Debug, PartialEq, Eq, Hash)]
pub struct FileNo(pub u32);

/// Files by their paths. No call changes a file, and a failure is told apart from the end of a file.
pub trait Folder {
    /// The bytes of a path, where the folder tells them.
    ghost content: { Self → List ℕ → Option (List ℕ) };

    /// What is left to read of the file with this number, where the folder tells it.
    ghost left: { Self → ℕ → Option (List ℕ) };

    /// This folder returned the number to an `open`.
    ghost is_open: { Self → ℕ → Type 0 };

    /// The path may be asked for.
    ghost may_ask: { Self → List ℕ → Type 0 };

    /// The count of faults.
    ghost faults: { Self → ℕ };

    /// Opens a file at its beginning, and returns its number.
    fn open(&mut self, path: &str) -> Result<FileNo, OutStop>
        requires { may_ask self.old path.now }

        ensures left { IfOk result (λ file. left self.new file.0 ≡ content self.old path.now) }
        ensures opened { IfOk result (λ file. is_open self.new file.0) }

        // The files of other numbers stay as they were, and so does each file where none is opened.
        ensures others { (n : ℕ) → IfOk result (λ file. n ≢ file.0) → left self.new n ≡ left self.old n }
        ensures still_open { (n : ℕ) → is_open self.old n → is_open self.new n }

        ensures content { content self.new ≡ content self.old }
        ensures may_ask { (asked : List ℕ) → may_ask self.new asked ↔ may_ask self.old asked }

        ensures count { faults self.old ≤ faults self.new }
        ensures limit { faults self.new ≤ greatest_count }
        ensures failed { IsErrOf result OutStop.Failed → HasRisen (faults self.old) (faults self.new) };

    /// Reads the next bytes of an open file into the beginning of a piece, and returns how many they are.
    /// At a piece that is not empty, 0 is the end of the file.
    fn read(&mut self, file: FileNo, into: &mut [u8]) -> Result<usize, Failed>
        requires { is_open self.old file.0 }

        ensures bound { ReadsAtMost result into.new }

        // The bytes leave what is left, 0 comes only where nothing is left, and a failed read takes nothing.
        ensures bytes { ReadConsumes (left self.old file.0) (left self.new file.0) result into.new }
        ensures others { (n : ℕ) → n ≢ file.0 → left self.new n ≡ left self.old n }
        ensures still_open { (n : ℕ) → is_open self.old n → is_open self.new n }

        ensures content { content self.new ≡ content self.old }
        ensures may_ask { (asked : List ℕ) → may_ask self.new asked ↔ may_ask self.old asked }

        ensures count { faults self.old ≤ faults self.new }
        ensures limit { faults self.new ≤ greatest_count }
        ensures failed { OnErr result (HasRisen (faults self.old) (faults self.new)) };
}

/// A stream of bytes that is written to.
pub trait Sink {
    /// The bytes written, where the sink tells them.
    ghost written: { Self → Option (List ℕ) };

    /// The count of faults.
    ghost faults: { Self → ℕ };

    /// Writes the beginning of a piece, and returns how many bytes it took. An error takes none.
    /// No byte taken of a piece that is not empty is a failed write, and raises the count as one.
    fn write(&mut self, piece: &[u8]) -> Result<usize, OutStop>
        ensures bound { WritesAtMost result piece.now }
        ensures bytes { WriteAppends (written self.old) (written self.new) result piece.now }

        ensures count { faults self.old ≤ faults self.new }
        ensures limit { faults self.new ≤ greatest_count }
        ensures failed { IsErrOf result OutStop.Failed → HasRisen (faults self.old) (faults self.new) }
        ensures nothing_taken { result ≡ Ok 0 → 0 < length piece.now → HasRisen (faults self.old) (faults self.new) };
}

/// Is entered before each chunk of work and left after it, by the worker that does the chunk. It says nothing of results.
pub trait Gate: Sync {
    fn enter(&self, k: u64);

    fn leave(&self, k: u64);
}
