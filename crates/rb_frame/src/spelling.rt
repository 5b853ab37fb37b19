//! What comes over a link, kept as numbers.
ghost use Rattle.std.specs.Prelude.{List, [], ◌∷◌, ◌≡◌, ◌≤◌, ◌<◌, ◌+◌, ◌*◌, ◌++◌, ◌^◌, ℕ, drop, length, slice_index, take};
ghost use Rattle.std.specs.Int.{from_le_bytes, to_be_bytes, to_le_bytes, w16, w32, w64};
ghost use Rattle.rb_rules.specs.Spelling.{IsZeroUnlessWord, Spells, check_of, spelling_of};
ghost use Rattle.rb_frame.specs.Spellings.{filled, high_of, len_of, low_in, spelled, tail_in};

use crate::tag_byte;
use arrayvec::ArrayVec;
use byteorder::{ByteOrder, LittleEndian};
use rb_rules::{Message, Version};
use std::marker::Model;

/// The bytes of what comes over a link, at most 32: kept as numbers, so that a message is made,
/// moved, compared and read without a look at single bytes.
#[derive(Clone, Copy, Debug, PartialEq, Eq)]
pub struct Spelling {
    // The first eight bytes, the lowest first, filled up with zeros.
    low: u64,
    // The next four, and above these how many bytes there are in all.
    tail: u64,
    // The others.
    rest: [u8; 20],
}

impl Model for Spelling {
    ghost use Rattle.std.specs.Prelude.{ℕ, List};
    ghost use Rattle.rb_frame.specs.Spellings.{IsFilled, bytes_in, low_in, rest_in, tail_in};

    ghost Value = { List ℕ };

    ghost view = { λ s. bytes_in s.low s.tail s.rest };

    ghost invariant = { λ s. IsFilled s.low s.tail s.rest };

    ghost inverse = { λ bytes. record {
      low = low_in bytes;
      tail = tail_in bytes;
      rest = rest_in bytes;
    } };

    ghost inverse_ok = { λ s h i. record {
      low = h.low_is i;
      tail = h.tail_is i;
      rest = h.rest_is i;
    } };
}

// The bytes, filled up with zeros.
fn filled(bytes: &[u8]) -> [u8; 32]
    requires { length bytes.now ≤ 32 }
    ensures filled { result ≡ filled bytes.now }
    ensures len { length result ≡ 32 }
    ensures small { (i : ℕ) → slice_index result i < 256 }
{
    let mut all = [0; 32];
    all[..bytes.len()].copy_from_slice(bytes);
    all
}

/// The first eight bytes as a number.
#[inline(always)]
pub fn low_of(all: &[u8]) -> u64
    requires { 8 ≤ length all.now }
    ensures { result ≡ from_le_bytes w64 (take 8 all.now) }
{
    LittleEndian::read_u64(&all[..8])
}

/// The next four.
#[inline(always)]
pub fn high_of(all: &[u8]) -> u32
    requires { 12 ≤ length all.now }
    ensures { result ≡ from_le_bytes w32 (take 4 (drop 8 all.now)) }
{
    LittleEndian::read_u32(&all[8..12])
}

/// Four bytes as a number, and above them how many bytes there are.
#[inline(always)]
pub fn tail_of(high: u32, len: usize) -> u64
    requires { len ≤ 32 }
    ensures { result ≡ high + len * 4294967296 }
{
    u64::from(high) + len as u64 * 0x1_0000_0000
}

// The 32 bytes that the numbers and the others make.
fn all_of(low: u64, high: u32, rest: &[u8; 20]) -> [u8; 32]
    ensures { result ≡ to_le_bytes w64 low ++ to_le_bytes w32 high ++ rest.now }
{
    let mut all = [0; 32];
    LittleEndian::write_u64(&mut all[..8], low);
    LittleEndian::write_u32(&mut all[8..12], high);
    all[12..].copy_from_slice(rest);
    all
}

// The others.
fn rest_of(all: &[u8; 32]) -> [u8; 20]
    ensures { result ≡ drop 12 all.now }
{
    let mut rest = [0; 20];
    rest.copy_from_slice(&all[12..]);
    rest
}

// The first eight bytes of a message.
#[inline(always)]
fn first_word(tag: u8, frame: u16, slot: u16, stage: u8, value: u32) -> u64
    ensures bytes { to_le_bytes w64 result
        ≡ tag ∷ to_be_bytes w16 frame ++ to_be_bytes w16 slot
        ++ stage ∷ take 2 (to_be_bytes w32 value) }
    ensures frame { frame < 2 ^ 16 }
    ensures slot { slot < 2 ^ 16 }
    ensures value { value < 2 ^ 32 }
{
    u64::from(tag)
        + u64::from(frame.swap_bytes()) * 0x100
        + u64::from(slot.swap_bytes()) * 0x100_0000
        + u64::from(stage) * 0x100_0000_0000
        + u64::from(value.swap_bytes() % 0x1_0000) * 0x1_0000_0000_0000
}

// The next two.
#[inline(always)]
fn next_two(value: u32) -> u32
    ensures bytes { to_le_bytes w32 result ≡ drop 2 (to_be_bytes w32 value) ++ 0 ∷ 0 ∷ [] }
    ensures small { result < 65536 }
{
    value.swap_bytes() >> 16
}

// The exclusive or of the four bytes of a number.
#[inline(always)]
fn check_of_four(word: u32) -> u8
    ensures { result ≡ check_of (to_le_bytes w32 word) }
{
    let half = word ^ (word >> 16);
    ((half ^ (half >> 8)) % 256) as u8
}

/// The exclusive or of twelve bytes.
#[inline(always)]
pub fn check(low: u64, high: u32) -> u8
    ensures { result ≡ check_of (to_le_bytes w64 low ++ to_le_bytes w32 high) }
{
    let first = (low % 0x1_0000_0000) as u32;
    let second = (low >> 32) as u32;
    check_of_four(first ^ second ^ high)
}

// Ten bytes and their check.
#[inline(always)]
fn eleven(low: u64, high: u32) -> Spelling
    requires { high < 65536 }
    ensures { result ≡ spelled low high 10 ++ check_of (spelled low high 10) ∷ [] }
{
    let check = check(low, high);
    Spelling {
        low,
        tail: u64::from(high) + u64::from(check) * 0x1_0000 + 11 * 0x1_0000_0000,
        rest: [0; 20],
    }
}

// Ten bytes, the number of the bus and their check.
#[inline(always)]
fn twelve(low: u64, high: u32, bus: u8) -> Spelling
    requires { high < 65536 }
    ensures { result
        ≡ (spelled low high 10 ++ bus ∷ []) ++ check_of (spelled low high 10 ++ bus ∷ []) ∷ [] }
{
    let high = high + u32::from(bus) * 0x1_0000;
    let check = check(low, high);
    Spelling {
        low,
        tail: u64::from(high) + u64::from(check) * 0x100_0000 + 12 * 0x1_0000_0000,
        rest: [0; 20],
    }
}

impl Spelling {
    /// The bytes that spell the message in this version, as `encode` gives them. They are made from
    /// the message's fields at once.
    #[inline(always)]
    pub fn of_message(version: Version, message: &Message) -> Spelling
        requires some_stage { 1 ≤ message.now.stage }
        requires most_stages { message.now.stage ≤ 3 }
        requires value { IsZeroUnlessWord message.now.tag message.now.value }
        ensures value { result ≡ spelling_of version message.now }
        ensures spelled { Spells version result message.now }
        ensures only { (bytes : List ℕ) → Spells version bytes message.now → bytes ≡ result }
    {
        let Message {
            tag,
            frame,
            slot,
            stage,
            value,
        } = *message;
        let low = first_word(tag_byte(tag), frame, slot, stage, value);
        let high = next_two(value);
        match version {
            Version::One => eleven(low, high),
            Version::Two { bus } => twelve(low, high, bus),
        }
    }

    /// The spelling with these bytes, of which there are at most 32.
    pub fn of(bytes: &[u8]) -> Spelling
        requires few { length bytes.now ≤ 32 }
        ensures { result ≡ bytes.now }
    {
        let all = filled(bytes);
        Spelling {
            low: low_of(&all),
            tail: tail_of(high_of(&all), bytes.len()),
            rest: rest_of(&all),
        }
    }

    /// The two numbers that bytes are kept as. The first has the first eight bytes, the lowest
    /// first. The second has the next four, and above these, from bit 32 on, how many bytes there
    /// are in all. Both are filled up with zeros. So bytes that are at most 12 are compared and
    /// read by them alone.
    #[inline(always)]
    pub fn words(&self) -> (u64, u64)
        ensures low { result.0 ≡ low_in self.now }
        ensures tail { result.1 ≡ tail_in self.now }
        ensures len { len_of result.1 ≡ length self.now }
        ensures short { length self.now ≤ 12
            → self.now ≡ spelled result.0 (high_of result.1) (len_of result.1) }
    {
        (self.low, self.tail)
    }

    /// The bytes, in the form in which an event holds them.
    pub fn held(&self) -> ArrayVec<u8, 32>
        ensures { result.items ≡ self.now }
    {
        let high = (self.tail % 0x1_0000_0000) as u32;
        let mut held = ArrayVec::from(all_of(self.low, high, &self.rest));
        held.truncate((self.tail >> 32) as usize);
        held
    }
}
