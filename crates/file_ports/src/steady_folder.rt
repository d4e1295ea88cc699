// A folder of two texts in memory, which never fails.
ghost use Rattle.std.specs.Prelude.{◌≡◌, ◌≢◌, ◌↔◌, ◌<◌, ◌≤◌, ◌+◌, ◌-◌, List, [], ℕ, length, min, take, drop, Ok, Some, None, IfOk, IfSome, IsOk, IsErrOf};
ghost use Rattle.std.specs.Prelude.{OnErr};
ghost use Rattle.std.specs.Io.{ReadsAtMost};
ghost use Rattle.std.specs.Io.KnownBytes.{Consumes, ReadConsumes};
ghost use Rattle.file_ports.specs.Faults.{greatest_count, HasRisen};

use crate::pieces::read_on;
use crate::{Failed, FileNo, Folder, OutStop};
use std::marker::Model;

const PROBLEM: FileNo = FileNo(0);

const PROOF: FileNo = FileNo(1);

/// A folder of two texts: the path `problem` gives the first, and every other path gives the second.
///
/// Each text has one number for good, and opening it again starts it anew. No call fails or takes memory.
#[derive(Drop)]
pub struct SteadyFolder {
    problem: Text,
    proof: Text,
}

// A text, and the place up to which it was read.
#[derive(Drop)]
struct Text {
    bytes: Vec<u8>,
    place: usize,
}

impl Model for SteadyFolder {
    ghost use Rattle.std.specs.Prelude.{◌≤◌, length, drop};
    ghost use Rattle.file_ports.specs.InMemory.{SteadyFolderState};

    ghost Value = { SteadyFolderState };

    ghost view = { λ s. record {
      problem = s.problem.bytes.items;
      proof = s.proof.bytes.items;
      problem_left = drop s.problem.place s.problem.bytes.items;
      proof_left = drop s.proof.place s.proof.bytes.items;
    } };

    ghost invariant = { λ s. (s.problem.place ≤ length s.problem.bytes.items) × (s.proof.place ≤ length s.proof.bytes.items) };
}

impl SteadyFolder {
    /// Both texts stand at their beginning. It takes no memory.
    pub fn new(problem: Vec<u8>, proof: Vec<u8>) -> Self
        ensures { result ≡ record {
          problem = problem.items;
          proof = proof.items;
          problem_left = problem.items;
          proof_left = proof.items;
        } }
    {
        SteadyFolder {
            problem: Text {
                bytes: problem,
                place: 0,
            },
            proof: Text {
                bytes: proof,
                place: 0,
            },
        }
    }
}

impl Text {
    ghost use Rattle.file_ports.specs.Text.{left_in};

    // Reads on, into the front of a piece.
    fn read(&mut self, into: &mut [u8]) -> usize
        requires { self.old.place ≤ length self.old.bytes.items }
        ensures count { result ≡ min (length into.old) (length (left_in self.old)) }
        ensures bytes { Consumes (Some (left_in self.old)) (Some (left_in self.new)) (take result into.new) }
        ensures end { result ≡ 0 → 0 < length into.new → left_in self.new ≡ [] }
        ensures after { self.new ≡ record self.old { place = self.old.place + result } }
    {
        read_on(&self.bytes, &mut self.place, into.len(), into)
    }
}

impl Folder for SteadyFolder {
    ghost use Rattle.std.specs.Prelude.{⊤};
    ghost use Rattle.file_ports.specs.InMemory.{text_at, text_told, number_at, left_of};

    ghost content = { text_told };

    ghost left = { left_of };

    ghost is_open = { λ s number. number < 2 };

    ghost may_ask = { λ s path. ⊤ };

    ghost faults = { λ s. 0 };

    fn open(&mut self, path: &str) -> Result<FileNo, OutStop>
        ensures left { IfOk result (λ file. left_of self.new file.0 ≡ Some (text_at self.old path.now)) }
        ensures opened { IfOk result (λ file. file.0 < 2) }
        ensures others { (n : ℕ) → IfOk result (λ file. n ≢ file.0) → left_of self.new n ≡ left_of self.old n }
        ensures content { text_told self.new ≡ text_told self.old }
        ensures failed { IsErrOf result OutStop.Failed → HasRisen 0 0 }

        // It always opens, and the text has the same number each time.
        ensures number { IfOk result (λ file. file.0 ≡ number_at path.now) }
        ensures opens { IsOk result }
    {
        if path == "problem" {
            self.problem.place = 0;
            Ok(PROBLEM)
        } else {
            self.proof.place = 0;
            Ok(PROOF)
        }
    }

    fn read(&mut self, file: FileNo, into: &mut [u8]) -> Result<usize, Failed>
        requires { file.0 < 2 }
        ensures bound { ReadsAtMost result into.new }
        ensures bytes { ReadConsumes (left_of self.old file.0) (left_of self.new file.0) result into.new }
        ensures others { (n : ℕ) → n ≢ file.0 → left_of self.new n ≡ left_of self.old n }
        ensures content { text_told self.new ≡ text_told self.old }
        ensures failed { OnErr result (HasRisen 0 0) }

        // It never fails, and gives as much as the piece has room for and is left.
        ensures reads { IsOk result }
        ensures gives { IfSome (left_of self.old file.0) (λ rest. IfOk result (λ n. n ≡ min (length into.old) (length rest))) }
    {
        if file.0 == 0 {
            Ok(self.problem.read(into))
        } else {
            Ok(self.proof.read(into))
        }
    }
}
