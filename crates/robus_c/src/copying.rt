//! Bytes at the front of others.
ghost use Rattle.std.specs.Prelude.{◌≡◌, length, take, drop, min};

/// Writes as many of the bytes as fit to the front of `into`, and leaves the rest as it was. Gives
/// how many.
pub fn put(bytes: &[u8], into: &mut [u8]) -> usize
    ensures amount { result ≡ min (length bytes.now) (length into.old) }
    ensures front { take result into.new ≡ take result bytes.now }
    ensures rest { drop result into.new ≡ drop result into.old }
{
    let n = bytes.len().min(into.len());
    into[..n].copy_from_slice(&bytes[..n]);
    n
}
