// Reading bytes in memory piece by piece.
ghost use Rattle.std.specs.Prelude.{◌≡◌, ◌+◌, ◌-◌, ◌≤◌, ◌<◌, [], length, min, take, drop, Some};
ghost use Rattle.std.specs.Io.KnownBytes.{Consumes};

/// Reads on from a place: copies what stands there into the front of `into`, as far as both go and `most` allows, and
/// moves the place behind it. Answers how many bytes that is.
pub fn read_on(bytes: &[u8], place: &mut usize, most: usize, into: &mut [u8]) -> usize
    requires { place.old ≤ length bytes.now }
    ensures count { result ≡ min most (min (length into.old) (length bytes.now - place.old)) }
    ensures bytes { Consumes (Some (drop place.old bytes.now)) (Some (drop place.new bytes.now)) (take result into.new) }
    ensures moved { place.new ≡ place.old + result }
{
    let n = copy_front(&bytes[*place..], most, into);
    *place += n;
    n
}

// Copies the beginning of `rest` into the front of `into`, as far as both go and `most` allows.
fn copy_front(rest: &[u8], most: usize, into: &mut [u8]) -> usize
    ensures count { result ≡ min most (min (length into.old) (length rest.now)) }
    ensures bytes { take result into.new ≡ take result rest.now }
{
    let n = most.min(into.len().min(rest.len()));
    into[..n].copy_from_slice(&rest[..n]);
    n
}
