//! Short names as numbers.
ghost use Rattle.std.specs.Prelude.{◌≡◌, ◌+◌, ◌*◌, ◌^◌, ◌<◌, ◌≤◌, length};
ghost use Rattle.std.specs.Int.{from_le_bytes, w64};
ghost use Rattle.name_set.specs.Packing.{low_bytes, high_bytes, packed};

/// The most bytes of a name that is packed.
pub(crate) const MOST_PACKED: usize = 15;

// The number of a short name. Its low half is read from eight bytes of the name, of which the highest is the last byte of
// the name, and its high half from seven and the length: the two readings may overlap, so that no byte is left out and
// there is no loop.
pub(crate) fn packed(name: &[u8]) -> u128
    requires { length name.now ≤ 15 }
    ensures { result ≡ packed name.now }
{
    let low = low_half(name);
    let high = high_half(name);
    high as u128 * 0x1_0000_0000_0000_0000 + low as u128
}

fn low_half(name: &[u8]) -> u64
    requires { length name.now ≤ 15 }
    ensures { result ≡ from_le_bytes w64 (low_bytes (length name.now) name.now) }
{
    if name.len() >= 8 {
        last_eight(name)
    } else if name.len() >= 4 {
        first_and_last_four(name)
    } else {
        first_middle_last(name)
    }
}

// The last eight bytes.
fn last_eight(name: &[u8]) -> u64
    requires { 8 ≤ length name.now }
    ensures { result ≡ from_le_bytes w64 (low_bytes (length name.now) name.now) }
{
    let first = name.len() - 8;
    let later = name.len() - 4;
    u64::from_le_bytes([
        name[first],
        name[first + 1],
        name[first + 2],
        name[first + 3],
        name[later],
        name[later + 1],
        name[later + 2],
        name[later + 3],
    ])
}

// The first four bytes and the last four, which overlap where there are fewer than eight.
fn first_and_last_four(name: &[u8]) -> u64
    requires at_least { 4 ≤ length name.now }
    requires fewer { length name.now < 8 }
    ensures { result ≡ from_le_bytes w64 (low_bytes (length name.now) name.now) }
{
    let last = name.len() - 4;
    u64::from_le_bytes([
        name[0],
        name[1],
        name[2],
        name[3],
        name[last],
        name[last + 1],
        name[last + 2],
        name[last + 3],
    ])
}

// The first byte, the middle one and, behind zeros, the last one: all bytes of a name of up to three.
fn first_middle_last(name: &[u8]) -> u64
    requires { length name.now < 4 }
    ensures { result ≡ from_le_bytes w64 (low_bytes (length name.now) name.now) }
{
    let len = name.len();
    if len == 0 {
        return 0;
    }
    u64::from_le_bytes([name[0], name[len / 2], 0, 0, 0, 0, 0, name[len - 1]])
}

fn high_half(name: &[u8]) -> u64
    requires { length name.now ≤ 15 }
    ensures { result ≡ from_le_bytes w64 (high_bytes (length name.now) name.now) }
{
    let len = name.len();
    if len < 8 {
        return u64::from_le_bytes([0, 0, 0, 0, 0, 0, 0, len as u8]);
    }
    first_seven(name)
}

// The first seven bytes and the length, which takes the place of the eighth byte. So eight bytes are read that stand in a
// row, in fewer steps than seven bytes one by one.
fn first_seven(name: &[u8]) -> u64
    requires at_least { 8 ≤ length name.now }
    requires at_most { length name.now ≤ 15 }
    ensures { result ≡ from_le_bytes w64 (high_bytes (length name.now) name.now) }
{
    let first_eight = u64::from_le_bytes([
        name[0], name[1], name[2], name[3], name[4], name[5], name[6], name[7],
    ]);
    first_eight % LENGTH_PLACE + name.len() as u64 * LENGTH_PLACE
}

/// What the highest byte of a half counts.
const LENGTH_PLACE: u64 = 1 << 56;
