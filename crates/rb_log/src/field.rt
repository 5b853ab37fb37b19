//! The fields of a log.
ghost use Rattle.std.specs.Prelude.{◌≡◌, ◌≤◌, ◌<◌, ◌+◌, ◌^◌, length, IfOk, OnOk};
ghost use Rattle.rb_log.specs.Fields.{field};

use crate::refusal::LogRefusal;
use byteorder::{BigEndian, ByteOrder};

/// The number of the field of one to four bytes at a place. It is refused if the bytes end before
/// it is whole, or if the number is out of bounds.
#[tactic(auto, unfolding(crate::specs::Fields::field, crate::specs::Fields::number_at))]
pub(crate) fn field(
    bytes: &[u8],
    place: usize,
    size: usize,
    low: u64,
    high: u64,
) -> Result<u64, LogRefusal>
    requires some { 1 ≤ size }
    requires most { size ≤ 4 }
    requires place { place < 2 ^ 63 }
    ensures value { result ≡ field bytes.now place size low high }
    ensures low { IfOk result (λ n. low ≤ n) }
    ensures high { IfOk result (λ n. n ≤ high) }
    ensures inside { OnOk result (place + size ≤ length bytes.now) }
{
    if place + size <= bytes.len() {
        let number = BigEndian::read_uint(&bytes[place..], size);
        if low <= number && number <= high {
            Ok(number)
        } else {
            Err(LogRefusal::BadField(place as u64))
        }
    } else {
        Err(LogRefusal::Truncated(bytes.len() as u64))
    }
}
