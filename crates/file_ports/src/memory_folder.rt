// A folder in memory, which can be told to fail.
ghost use Rattle.std.specs.Prelude.{◌≡◌, ◌≢◌, ◌⊎◌, ◌↔◌, ◌<◌, ◌≤◌, ◌∷◌, ◌++◌, [], List, ℕ, length, vec_len, min, take, slice_get, All, Some, None, IfOk};
ghost use Rattle.std.specs.Prelude.{IfSome, IfNone, IsErrOf, IsErr, OnOk, OnErr};
ghost use Rattle.std.specs.Io.{ReadsAtMost};
ghost use Rattle.std.specs.Io.KnownBytes.{ReadConsumes, Consumes, IsAtEnd};
ghost use Rattle.file_ports.specs.Faults.{greatest_count, HasRisen};
ghost use Rattle.file_ports.specs.Schedule.{FailsNext, IsOneCall};
ghost use Rattle.file_ports.specs.InMemory.{bytes_at, files_of, IsFaultAt};

use crate::pieces::read_on;
use crate::schedule::Schedule;
use crate::{Failed, FileNo, Folder, OutStop};
use std::marker::Model;

/// A folder whose files are handed in.
#[derive(Drop)]
pub struct MemoryFolder {
    files: Vec<(String, Vec<u8>)>,
    opened: Vec<Opened>,
    most: usize,
    calls: Schedule,
}

// The place of an open file among the files, and the place in it up to which it was read.
#[derive(Clone, Copy)]
struct Opened {
    file: usize,
    place: usize,
}

impl Model for MemoryFolder {
    ghost use Rattle.std.specs.Prelude.{ℕ, ◌≤◌, All};
    ghost use Rattle.file_ports.specs.Faults.{greatest_count};
    ghost use Rattle.file_ports.specs.InMemory.{MemoryFolderState, files_of};
    ghost use Rattle.file_ports.specs.Opened.{rests_of, IsWithin};

    ghost Value = { MemoryFolderState };

    ghost view = { λ s. record {
      files = files_of s.files.items;
      left = rests_of (files_of s.files.items) s.opened.items;
      most = s.most;
      calls = s.calls;
    } };

    ghost invariant = { λ s. (1 ≤ s.most) × (s.calls.faults ≤ greatest_count)
        × All (IsWithin (files_of s.files.items)) s.opened.items };
}

impl MemoryFolder {
    /// A folder of these files, by their paths; of two files with one path the first counts.
    ///
    /// A read gives at most `most` bytes. The calls of `open` and `read` are numbered together from 0, and those whose
    /// numbers stand in `failing` fail. It takes no memory.
    pub fn new(files: Vec<(String, Vec<u8>)>, most: usize, failing: Vec<u64>) -> Self
        requires { 1 ≤ most }
        ensures { result ≡ record {
          files = files_of files.items;
          left = [];
          most = most;
          calls = record { failing = failing.items; next = 0; faults = 0 };
        } }
    {
        MemoryFolder {
            opened: Vec::new(*failing.allocator()),
            files,
            most,
            calls: Schedule::new(failing),
        }
    }
}

ghost use Rattle.file_ports.specs.Opened.{bytes_of, rest_of, rests_of, IsWithin};

// The place of the first file with a path.
fn find(files: &[(String, Vec<u8>)], path: &str) -> Option<usize>
    ensures within { IfSome result (λ k. k < length files.now) }
    ensures found { IfSome result (λ k. bytes_at (files_of files.now) path.now ≡ Some (bytes_of (files_of files.now) k)) }
    ensures absent { IfNone result (bytes_at (files_of files.now) path.now ≡ None) }
{
    for (k, file) in files.iter().enumerate() {
        if file.0.as_str() == path {
            return Some(k);
        }
    }
    None
}

// Reads on in an open file, into the front of a piece.
fn read_opened(
    files: &[(String, Vec<u8>)],
    opened: &mut Opened,
    most: usize,
    into: &mut [u8],
) -> usize
    requires { IsWithin (files_of files.now) opened.old }
    ensures within { IsWithin (files_of files.now) opened.new }
    ensures count { result ≡ min most (min (length into.old) (length (rest_of (files_of files.now) opened.old))) }
    ensures bytes { Consumes (Some (rest_of (files_of files.now) opened.old)) (Some (rest_of (files_of files.now) opened.new))
        (take result into.new) }
{
    read_on(&files[opened.file].1, &mut opened.place, most, into)
}

// Reads on in the open file with a number.
fn read_number(
    files: &[(String, Vec<u8>)],
    opened: &mut Vec<Opened>,
    number: usize,
    most: usize,
    into: &mut [u8],
) -> usize
    requires within { All (IsWithin (files_of files.now)) opened.old.items }
    requires is_open { number < length opened.old.items }
    requires some { 1 ≤ most }

    ensures within { All (IsWithin (files_of files.now)) opened.new.items }
    ensures open { length opened.new.items ≡ length opened.old.items }
    ensures bound { result ≤ length into.new }
    ensures bytes { Consumes (slice_get (rests_of (files_of files.now) opened.old.items) number)
        (slice_get (rests_of (files_of files.now) opened.new.items) number) (take result into.new) }
    ensures end { result ≡ 0 → 0 < length into.new → IsAtEnd (slice_get (rests_of (files_of files.now) opened.new.items) number) }
    ensures count { IfSome (slice_get (rests_of (files_of files.now) opened.old.items) number)
        (λ rest. result ≡ min most (min (length into.old) (length rest))) }
    ensures others { (n : ℕ) → n ≢ number → slice_get (rests_of (files_of files.now) opened.new.items) n
        ≡ slice_get (rests_of (files_of files.now) opened.old.items) n }
{
    read_opened(files, &mut opened[number], most, into)
}

// One file more is open, at its beginning. Its number is the next one.
fn add_opened(
    files: &[(String, Vec<u8>)],
    opened: &mut Vec<Opened>,
    file: usize,
) -> Result<FileNo, OutStop>
    requires file { file < length files.now }
    requires within { All (IsWithin (files_of files.now)) opened.old.items }

    ensures within { All (IsWithin (files_of files.now)) opened.new.items }
    ensures opened { IfOk result (λ number. number.0 < length opened.new.items) }
    ensures longer { length opened.old.items ≤ length opened.new.items }
    ensures left { IfOk result (λ number. slice_get (rests_of (files_of files.now) opened.new.items) number.0
        ≡ Some (bytes_of (files_of files.now) file)) }
    ensures others { (n : ℕ) → IfOk result (λ number. n ≢ number.0) → slice_get (rests_of (files_of files.now) opened.new.items) n
        ≡ slice_get (rests_of (files_of files.now) opened.old.items) n }
    ensures no_fault { IsErrOf result OutStop.Failed → ⊥ }
{
    let Ok(number) = u32::try_from(opened.len()) else {
        return Err(OutStop::Memory);
    };
    opened.push(Opened { file, place: 0 })?;
    Ok(FileNo(number))
}

impl Folder for MemoryFolder {
    ghost use Rattle.std.specs.Prelude.{⊤};
    ghost use Rattle.file_ports.specs.InMemory.{bytes_told, rest_told};

    ghost content = { bytes_told };

    ghost left = { rest_told };

    ghost is_open = { λ s number. number < length s.left };

    ghost may_ask = { λ s path. ⊤ };

    ghost faults = { λ s. s.calls.faults };

    fn open(&mut self, path: &str) -> Result<FileNo, OutStop>
        ensures left { IfOk result (λ file. rest_told self.new file.0 ≡ bytes_told self.old path.now) }
        ensures opened { IfOk result (λ file. file.0 < length self.new.left) }
        ensures others { (n : ℕ) → IfOk result (λ file. n ≢ file.0) → rest_told self.new n ≡ rest_told self.old n }
        ensures still_open { length self.old.left ≤ length self.new.left }
        ensures content { bytes_told self.new ≡ bytes_told self.old }
        ensures count { self.old.calls.faults ≤ self.new.calls.faults }
        ensures limit { self.new.calls.faults ≤ greatest_count }
        ensures failed { IsErrOf result OutStop.Failed → HasRisen self.old.calls.faults self.new.calls.faults }

        // Exactly the numbered calls and those at an absent path fail, and no other call is a fault.
        ensures fails { IsErrOf result OutStop.Failed ↔ IsFaultAt self.old path.now }
        ensures call { IsOneCall (IsFaultAt self.old path.now) self.old.calls self.new.calls }
        ensures most { self.new.most ≡ self.old.most }
    {
        if self.calls.fails() {
            return Err(OutStop::Failed);
        }
        let Some(file) = find(&self.files, path) else {
            self.calls.rise();
            return Err(OutStop::Failed);
        };
        add_opened(&self.files, &mut self.opened, file)
    }

    fn read(&mut self, file: FileNo, into: &mut [u8]) -> Result<usize, Failed>
        requires { file.0 < length self.old.left }
        ensures bound { ReadsAtMost result into.new }
        ensures bytes { ReadConsumes (rest_told self.old file.0) (rest_told self.new file.0) result into.new }
        ensures others { (n : ℕ) → n ≢ file.0 → rest_told self.new n ≡ rest_told self.old n }
        ensures still_open { length self.new.left ≡ length self.old.left }
        ensures content { bytes_told self.new ≡ bytes_told self.old }
        ensures count { self.old.calls.faults ≤ self.new.calls.faults }
        ensures limit { self.new.calls.faults ≤ greatest_count }
        ensures failed { OnErr result (HasRisen self.old.calls.faults self.new.calls.faults) }

        // Exactly the numbered calls fail, no other call is a fault, and a read gives as much as it may.
        ensures fails { IsErr result ↔ FailsNext self.old.calls }
        ensures call { IsOneCall (FailsNext self.old.calls) self.old.calls self.new.calls }
        ensures gives { IfSome (rest_told self.old file.0) (λ rest. IfOk result (λ n. n ≡ min self.old.most (min (length into.old) (length rest)))) }
        ensures most { self.new.most ≡ self.old.most }
    {
        if self.calls.fails() {
            return Err(Failed);
        }
        let number = file.0 as usize;
        Ok(read_number(&self.files, &mut self.opened, number, self.most, into))
    }
}
