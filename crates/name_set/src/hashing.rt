//! The hash of a key, by which names that differ in their last byte alone lie side by side.
ghost use Rattle.std.specs.Prelude.{◌≡◌, ◌+◌, ◌<◌, ◌≤◌, length};
ghost use Rattle.name_set.specs.Hashing.{half_at, folded_product, key_hash};

use std::hash::Hasher;

/// Hashes the keys of names, which are numbers of sixteen bytes. The highest byte of a key's low half is the last byte of a
/// short name. It takes no part in the choice of the group of the table, but for its lowest bit, which chooses between a
/// group and the one beside it: ids that follow one another are so looked for in the same memory.
#[derive(Clone, Copy)]
pub(crate) struct NameHasher {
    state: u64,
}

impl Default for NameHasher {
    ghost is_default = { λ h. h.state ≡ 0 };

    fn default() -> NameHasher {
        NameHasher { state: 0 }
    }
}

impl Hasher for NameHasher {
    ghost use Rattle.name_set.specs.Hashing.{after_write};

    ghost write = { after_write };

    ghost finish = { λ h. h.state };

    #[inline(always)]
    fn finish(&self) -> u64 {
        self.state
    }

    // Only the sixteen bytes of a key are hashed: with any other length the state stays as it is.
    #[inline(always)]
    fn write(&mut self, bytes: &[u8]) {
        if bytes.len() == 16 {
            self.state = key_hash(half_at(bytes, 0), half_at(bytes, 8));
        }
    }
}

// The eight bytes from a place on, the lowest first.
#[inline(always)]
fn half_at(bytes: &[u8], start: usize) -> u64
    requires { start + 8 ≤ length bytes.now }
    ensures { result ≡ half_at start bytes.now }
{
    let later = start + 4;
    u64::from_le_bytes([
        bytes[start],
        bytes[start + 1],
        bytes[start + 2],
        bytes[start + 3],
        bytes[later],
        bytes[later + 1],
        bytes[later + 2],
        bytes[later + 3],
    ])
}

// The hash of the key with these halves: that of all but the last byte, with two changes. Eight bits above the lowest 24,
// which choose the tag, are changed by the last byte, so that the names in a group are told apart by their tags; and the
// lowest bit, which chooses between two groups, where the last byte is odd. By xor nothing is carried on to other bits.
#[inline(always)]
fn key_hash(low: u64, high: u64) -> u64
    ensures { result ≡ key_hash low high }
{
    let last = low / LAST_BYTE;
    let others = low % LAST_BYTE;
    let shared = folded_product(others + LOW_ADDEND, high.wrapping_add(HIGH_ADDEND));
    shared ^ (last * TAG_PLACE + last % 2)
}

// The two halves of the 128 bits of the product, joined by xor.
#[inline(always)]
fn folded_product(a: u64, b: u64) -> u64
    ensures { result ≡ folded_product a b }
{
    let product = a as u128 * b as u128;
    (product % HIGH_HALF) as u64 ^ (product / HIGH_HALF) as u64
}

/// What the highest byte of a half counts.
const LAST_BYTE: u64 = 1 << 56;

/// What the lowest bit of the tag counts in a hash: the table takes a tag of eight bits behind the lowest 24.
const TAG_PLACE: u64 = 1 << 24;

/// What the high half of a number of sixteen bytes counts.
const HIGH_HALF: u128 = 1 << 64;

/// What is added to the halves. No half of a key becomes zero by it, which would hide the other one in the product: the
/// highest byte of a high half that did is no length of a short name, nor that of a longer name's key.
const LOW_ADDEND: u64 = 0x243f_6a88_85a3_08d3;

const HIGH_ADDEND: u64 = 0x9e37_79b9_7f4a_7c15;
