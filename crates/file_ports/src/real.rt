// The real outside: the files and the standard output of the process. They tell no bytes, and count their faults.
ghost use Rattle.std.specs.Prelude.{◌≡◌, ◌<◌, ◌≤◌, ⊤, length, vec_len, None, Ok, IsErrOf};
ghost use Rattle.std.specs.Io.{WritesAtMost};
ghost use Rattle.std.specs.Io.KnownBytes.{WriteAppends};
ghost use Rattle.file_ports.specs.Faults.{greatest_count, HasRisen};

use crate::{Failed, FileNo, Folder, OutStop, Sink};
use std::alloc::Global;
use std::fs;
use std::io::Read;
use std::marker::Model;
use std::rt::Files;

/// The files of the system, by their paths. A file that it opened stays open as long as the folder lives.
#[derive(Drop)]
pub struct RealFolder<R: Files> {
    rt: R,
    files: Vec<R::File>,
    faults: u64,
    ghost limit: { faults ≤ greatest_count },
}

impl<R: Files> RealFolder<R> {
    /// No file is open yet. The allocator is for the list of the open files.
    pub fn new(rt: R, alloc: Global) -> Self
        ensures { ⟦<RealFolder<R> as Folder>⟧.faults result ≡ 0 }
    {
        RealFolder {
            rt,
            files: Vec::new(alloc),
            faults: 0,
        }
    }
}

impl<R: Files> Folder for RealFolder<R> {
    ghost content = { λ folder path. None };

    ghost left = { λ folder number. None };

    ghost is_open = { λ folder number. number < vec_len folder.files };

    ghost may_ask = { λ folder path. ⊤ };

    ghost faults = { λ folder. folder.faults };

    fn open(&mut self, path: &str) -> Result<FileNo, OutStop> {
        let Ok(file) = fs::open(&self.rt, path) else {
            self.faults = self.faults.saturating_add(1);
            return Err(OutStop::Failed);
        };
        let Ok(number) = u32::try_from(self.files.len()) else {
            return Err(OutStop::Memory);
        };
        self.files.push(file)?;
        Ok(FileNo(number))
    }

    fn read(&mut self, file: FileNo, into: &mut [u8]) -> Result<usize, Failed> {
        let Ok(n) = self.files[file.0 as usize].read(into) else {
            self.faults = self.faults.saturating_add(1);
            return Err(Failed);
        };
        Ok(n)
    }
}

/// The standard output of the process.
#[derive(Drop)]
pub struct RealSink<R: Print> {
    rt: R,
    faults: u64,
}

// A clause sees its count of faults.
impl<R: Print> Model for RealSink<R> {
    ghost use Rattle.std.specs.Prelude.{ℕ, ◌≤◌};
    ghost use Rattle.file_ports.specs.Faults.{greatest_count};

    ghost Value = { ℕ };

    ghost view = { λ sink. sink.faults };

    ghost invariant = { λ sink. sink.faults ≤ greatest_count };
}

impl<R: Print> RealSink<R> {
    /// Nothing is written yet.
    pub fn new(rt: R) -> Self
        ensures { result ≡ 0 }
    {
        RealSink { rt, faults: 0 }
    }
}

impl<R: Print> Sink for RealSink<R> {
    ghost written = { λ sink. None };

    ghost faults = { λ sink. sink };

    fn write(&mut self, piece: &[u8]) -> Result<usize, OutStop>
        ensures bound { WritesAtMost result piece.now }
        ensures bytes { WriteAppends None None result piece.now }
        ensures count { self.old ≤ self.new }
        ensures limit { self.new ≤ greatest_count }
        ensures failed { IsErrOf result OutStop.Failed → HasRisen self.old self.new }
        ensures nothing_taken { result ≡ Ok 0 → 0 < length piece.now → HasRisen self.old self.new }

        // It keeps no bytes, so it needs no memory.
        ensures no_memory { IsErrOf result OutStop.Memory → ⊥ }
    {
        let Ok(n) = self.rt.write_some(piece) else {
            self.faults = self.faults.saturating_add(1);
            return Err(OutStop::Failed);
        };
        if n == 0 && !piece.is_empty() {
            self.faults = self.faults.saturating_add(1);
        }
        Ok(n)
    }
}
