//! The outside of the checker: where it asks for files, where it writes, and where it passes from one chunk of work to
//! the next.
//!
//! - `ports`: the traits `Folder`, `Sink` and `Gate`, and what their calls return.
//! - `whole`: reading a whole file of any folder, and writing a whole text to any sink.
//! - `memory_folder`, `steady_folder`, `memory_sink`: objects in memory, which tell their bytes. They stand on `pieces`
//!   (reading bytes piece by piece) and `schedule` (which calls are told to fail).
//! - `real`: the files of the system and the standard output, which tell no bytes.
//! - `open_gate`: the gate that does nothing.
//! - `laws`: what it means that a count of faults rose.
#![tactic(auto)]

mod laws;
mod memory_folder;
mod memory_sink;
mod open_gate;
mod pieces;
mod ports;
mod real;
mod schedule;
mod steady_folder;
mod whole;

pub use laws::{a_risen_count_is_greater_or_at_its_end, a_risen_count_stays_risen};
pub use memory_folder::MemoryFolder;
pub use memory_sink::MemorySink;
pub use open_gate::OpenGate;
pub use ports::{Failed, FileNo, Folder, Gate, OutStop, Sink};
pub use real::{RealFolder, RealSink};
pub use steady_folder::SteadyFolder;
pub use whole::{MOST_BYTES, PIECE_BYTES, ReadStop, read_whole, write_whole};

#[cfg(test)]
mod tests;
