//! The message that the bytes of an arrival spell, read from the two numbers that they are kept as.
ghost use Rattle.std.specs.Prelude.{◌≡◌, ◌≤◌, ◌++◌, ◌*◌, ◌/◌, ◌%◌, ◌+◌, ◌==◌, ◌&&◌};
ghost use Rattle.std.specs.Int.{to_le_bytes, w32, w64};
ghost use Rattle.rb_rules.specs.Spelling.{check_of, has_form, message_in};
ghost use Rattle.rb_frame.specs.Spellings.{spelled};

use rb_frame::spelling::check;
use rb_frame::{Message, Version, message_with, tag_in};

// Whether the bus's number and the check are at the end.
fn has_end(bus: u8, low: u64, high: u32) -> bool
    ensures { result
        ≡ ((high / 65536 % 256 == bus)
        && (check_of (to_le_bytes w64 low ++ to_le_bytes w32 high) == 0)) }
{
    (high >> 16) % 256 == u32::from(bus) && check(low, high) == 0
}

/// Whether there are as many bytes as the version has, with the check at the end and the bus's
/// number if it has one. The check is right if the exclusive or of all bytes is 0.
pub(crate) fn has_form(version: Version, low: u64, high: u32, len: u64) -> bool
    requires { len ≤ 12 }
    ensures { result ≡ has_form version (spelled low high len) }
{
    match version {
        Version::One => len == 11 && check(low, high % 0x100_0000) == 0,
        Version::Two { bus } => len == 12 && has_end(bus, low, high),
    }
}

// The frame's number.
fn frame_in(low: u64) -> u16
    ensures { result ≡ low / 256 % 256 * 256 + low / 65536 % 256 }
{
    (((low >> 8) % 0x1_0000) as u16).swap_bytes()
}

// The slot.
fn slot_in(low: u64) -> u16
    ensures { result ≡ low / 16777216 % 256 * 256 + low / 4294967296 % 256 }
{
    (((low >> 24) % 0x1_0000) as u16).swap_bytes()
}

/// The value.
pub(crate) fn value_in(low: u64, high: u32) -> u32
    ensures { result ≡ low / 281474976710656 % 256 * 16777216
        + low / 72057594037927936 % 256 * 65536 + high % 256 * 256 + high / 256 % 256 }
{
    ((low >> 48) as u32 + (high % 0x1_0000) * 0x1_0000).swap_bytes()
}

/// The message that the first `len` bytes spell, if there is one.
#[inline(always)]
pub(crate) fn message_in(version: Version, low: u64, high: u32, len: u64) -> Option<Message>
    requires { len ≤ 12 }
    ensures { result ≡ message_in version (spelled low high len) }
{
    if !has_form(version, low, high, len) {
        return None;
    }
    message_with(
        tag_in((low % 256) as u8),
        frame_in(low),
        slot_in(low),
        ((low >> 40) % 256) as u8,
        value_in(low, high),
    )
}
