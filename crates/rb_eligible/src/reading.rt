//! What the bytes of an arrival say, in a window.
ghost use Rattle.std.specs.Prelude.{◌≡◌, ◌≤◌, ◌+◌, ◌*◌, ◌/◌, ◌%◌, ◌^◌, ℕ, IfSome, IsTrue, Some, ◌<◌, drop, length, slice_index, take, true};
ghost use Rattle.std.specs.Int.{from_le_bytes, w32, w64};
ghost use Rattle.rb_rules.specs.Sense.{is_one, sense_of_one, suits, tag_suits, value_in, value_of};
ghost use Rattle.rb_rules.specs.Spelling.{message_in};
ghost use Rattle.rb_base.specs.declared.values.Heard.{Heard};
ghost use Rattle.rb_frame.specs.Spellings.{high_of as high_in, len_of, spelled};
ghost use Rattle.rb_eligible.specs.Readings.{Says, StartsAsWord, bytes_of};

use crate::words::{has_form, message_in, value_in as value_at};
use rb_base::Heard;
use rb_frame::spelling::{high_of, low_of, tail_of};
use rb_frame::{Message, Tag};
use rb_rules::{Expect, Sense};

// The bytes of the longest message.
pub(crate) const MOST_BYTES: usize = 12;

/// What is kept of an arrival that is no longer than any message: its stamp, and its bytes as two
/// numbers, the lowest byte first: `low` has the first eight, `tail` the other four, both filled up
/// with zeros, and above these how many bytes there are.
#[derive(Clone, Copy, Debug, PartialEq, Eq)]
pub struct Sole {
    pub at: u64,
    pub low: u64,
    pub tail: u64,
}

/// Whether bytes are exactly one message that is meant for the window, and its value.
#[derive(Clone, Copy, Debug, PartialEq, Eq)]
pub(crate) struct Said {
    pub one: bool,
    pub value: Option<Heard>,
}

// Whether an arrival is one message that is meant for the window, and its value.
#[inline(never)]
#[tactic(auto, using(crate::proofs::Sensed::says_sense))]
fn words_of(sole: &Sole, expect: &Expect) -> Said
    requires { len_of sole.now.tail ≤ 12 }
    ensures { Says expect.now (bytes_of sole.now) result.one result.value }
{
    let sense = sense_of_sole(sole, expect);
    Said {
        one: is_one(&sense),
        value: value_in(&sense),
    }
}

// The first six bytes of a word that is meant for a window, the first byte lowest: the tag, the
// frame, the slot and the stage.
#[inline(always)]
fn word_start(frame: u16, slot: u16, stage: u8) -> u64
    ensures bytes { result
        ≡ 1 + frame / 256 * 256 + frame % 256 * 65536 + slot / 256 * 16777216
        + slot % 256 * 4294967296 + stage * 1099511627776 }
    ensures frame { frame < 2 ^ 16 }
    ensures slot { slot < 2 ^ 16 }
    ensures stage { stage < 2 ^ 8 }
{
    let place = u32::from(frame) * 0x1_0000 + u32::from(slot);
    1 + u64::from(place.swap_bytes()) * 0x100 + u64::from(stage) * 0x100_0000_0000
}

// Whether bytes begin as a word does that is meant for the window.
#[inline(always)]
fn starts_as_word(low: u64, expect: &Expect) -> bool
    ensures { IsTrue result → StartsAsWord expect.now low }
{
    low % 0x1_0000_0000_0000 == word_start(expect.frame, expect.slot, expect.stage)
        && 1 <= expect.stage
        && expect.stage <= 3
        && !expect.sync
}

/// The word that the bytes are which are kept as these two numbers, if they are one that is meant
/// for the window. None also if they are another message that is meant for it.
#[inline(always)]
pub(crate) fn word_of(low: u64, tail: u64, expect: &Expect) -> Option<u32>
    requires { len_of tail ≤ 12 }
    ensures { IfSome result (λ word. Says expect.now (spelled low (high_in tail) (len_of tail)) true (Some (Heard.Word word))) }
{
    let len = tail >> 32;
    let high = (tail % 0x1_0000_0000) as u32;
    if starts_as_word(low, expect) && has_form(expect.version, low, high, len) {
        Some(value_at(low, high))
    } else {
        None
    }
}

/// Whether an arrival is one message that is meant for the window, and its value. Most are words.
#[inline(always)]
pub(crate) fn said_of(sole: &Sole, expect: &Expect) -> Said
    requires { len_of sole.now.tail ≤ 12 }
    ensures { Says expect.now (bytes_of sole.now) result.one result.value }
{
    match word_of(sole.low, sole.tail, expect) {
        Some(word) => Said {
            one: true,
            value: Some(Heard::Word(word)),
        },
        None => words_of(sole, expect),
    }
}

// Whether exactly one message came that is meant for the window.
fn is_one(sense: &Sense) -> bool
    ensures { result ≡ is_one sense.now }
{
    match sense {
        Sense::Silent => false,
        Sense::One { .. } => true,
        Sense::Bad => false,
    }
}

// The value that a message carries.
fn value_of(tag: Tag, value: u32) -> Option<Heard>
    ensures { result ≡ value_of tag value }
{
    match tag {
        Tag::Word => Some(Heard::Word(value)),
        Tag::Fault => Some(Heard::Fault),
        Tag::Sync => None,
    }
}

// The value that came.
fn value_in(sense: &Sense) -> Option<Heard>
    ensures { result ≡ value_in sense.now }
{
    match sense {
        Sense::Silent => None,
        Sense::One { message, .. } => value_of(message.tag, message.value),
        Sense::Bad => None,
    }
}

/// The sense of an arrival that is the only one of its source.
#[inline(always)]
pub(crate) fn sense_of_sole(sole: &Sole, expect: &Expect) -> Sense
    requires { len_of sole.now.tail ≤ 12 }
    ensures { result
        ≡ sense_of_one expect.now sole.now.at (message_in expect.now.version (bytes_of sole.now)) }
{
    let len = sole.tail >> 32;
    let high = (sole.tail % 0x1_0000_0000) as u32;
    sense_of_one(
        expect,
        sole.at,
        message_in(expect.version, sole.low, high, len),
    )
}

// The sense of a sole arrival, by the message that it is.
fn sense_of_one(expect: &Expect, at: u64, message: Option<Message>) -> Sense
    ensures sense { result ≡ sense_of_one expect.now at message }
{
    match message {
        Some(message) => {
            if suits(expect, message) {
                Sense::One { at, message }
            } else {
                Sense::Bad
            }
        }
        None => Sense::Bad,
    }
}

// Whether the message is meant for the window.
fn suits(expect: &Expect, message: Message) -> bool
    ensures { result ≡ suits expect.now message }
{
    message.frame == expect.frame
        && message.slot == expect.slot
        && message.stage == expect.stage
        && tag_suits(expect.sync, message.tag)
}

// Whether the tag belongs in the sync slot, or in the others.
fn tag_suits(in_sync: bool, tag: Tag) -> bool
    ensures { result ≡ tag_suits in_sync tag }
{
    match tag {
        Tag::Word => !in_sync,
        Tag::Fault => !in_sync,
        Tag::Sync => in_sync,
    }
}

// Room that begins with the bytes.
fn room_with(bytes: &[u8]) -> [u8; 12]
    requires { length bytes.now ≤ 12 }
    ensures begins { take (length bytes.now) result ≡ bytes.now }
    ensures len { length result ≡ 12 }
    ensures small { (i : ℕ) → slice_index result i < 256 }
{
    let mut room = [0; 12];
    room[..bytes.len()].copy_from_slice(bytes);
    room
}

/// What is kept of an arrival that is no longer than any message.
pub(crate) fn sole_of(at: u64, bytes: &[u8]) -> Sole
    requires { length bytes.now ≤ 12 }
    ensures at { result.at ≡ at }
    ensures len { len_of result.tail ≤ 12 }
    ensures bytes { bytes_of result ≡ bytes.now }
{
    let room = room_with(bytes);
    Sole {
        at,
        low: low_of(&room),
        tail: tail_of(high_of(&room), bytes.len()),
    }
}
