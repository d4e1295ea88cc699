//! What never changes while a proof is read.

use term_reader::Flags;

/// What never changes while a proof is read.
#[derive(Clone, Copy)]
pub struct SessionSettings {
    /// How it is read: in a strict proof the arguments of resolution are its pivots.
    pub flags: Flags,
    /// Whether the commands stand in one list.
    pub in_list: bool,
}
