//! Messages as bytes on a link.
//!
//! A message is 11 bytes in version `One`: its tag (1 Word, 2 Fault, 3 Sync), the frame's number
//! and the slot in two bytes each, the stage, the value in four bytes, and the exclusive or of
//! these ten. Version `Two` has the number of the bus before the check, which covers it, and so 12
//! bytes. All numbers have the most significant byte first.
#![tactic(auto)]

ghost use Rattle.std.specs.Prelude.{◌≡◌, ◌≤◌, ◌<◌, ◌^◌, ◌++◌, ℕ, List, [], ◌∷◌, length, IfSome, IfNone, IsTrue};
ghost use Rattle.rb_rules.specs.declared.message.Message.{Message};
ghost use Rattle.rb_rules.specs.Spelling.{IsZeroUnlessWord, Spells, check_of, fields_of, has_form, may_have, message_in, message_with, tag_byte, tag_in};

use arrayvec::ArrayVec;
use byteorder::{BigEndian, ByteOrder};
pub use rb_rules::{Message, Tag, Version};
pub use spelling::Spelling;

pub mod spelling;

// The exclusive or of the bytes.
fn check(bytes: &[u8]) -> u8
    ensures { result ≡ check_of bytes.now }
{
    bytes.iter().fold(0, |check, byte| check ^ byte)
}

// The byte of a tag.
#[inline(always)]
fn tag_byte(tag: Tag) -> u8
    ensures { result ≡ tag_byte tag }
{
    match tag {
        Tag::Word => 1,
        Tag::Fault => 2,
        Tag::Sync => 3,
    }
}

// The ten bytes that both versions begin with, and room for two more.
fn fields(message: &Message) -> [u8; 12]
    ensures bytes { result ≡ fields_of message.now ++ 0 ∷ 0 ∷ [] }
    ensures frame { message.now.frame < 2 ^ 16 }
    ensures slot { message.now.slot < 2 ^ 16 }
    ensures value { message.now.value < 2 ^ 32 }
{
    let Message {
        tag,
        frame,
        slot,
        stage,
        value,
    } = *message;
    let mut bytes = [0; 12];
    bytes[0] = tag_byte(tag);
    BigEndian::write_u16(&mut bytes[1..3], frame);
    BigEndian::write_u16(&mut bytes[3..5], slot);
    bytes[5] = stage;
    BigEndian::write_u32(&mut bytes[6..10], value);
    bytes
}

/// The bytes that spell the message in this version, 11 or 12. No other bytes spell it there.
#[tactic(auto, using(crate::proofs::Bytes::encoding))]
pub fn encode(version: Version, message: &Message) -> ArrayVec<u8, 12>
    requires some_stage { 1 ≤ message.now.stage }
    requires most_stages { message.now.stage ≤ 3 }
    requires value { IsZeroUnlessWord message.now.tag message.now.value }
    ensures spelled { Spells version result.items message.now }
    ensures only { (bytes : List ℕ) → Spells version bytes message.now → bytes ≡ result.items }
{
    let mut bytes = fields(message);
    match version {
        Version::One => {
            bytes[10] = check(&bytes[..10]);
            let mut spelling = ArrayVec::from(bytes);
            spelling.truncate(11);
            spelling
        }
        Version::Two { bus } => {
            bytes[10] = bus;
            bytes[11] = check(&bytes[..11]);
            ArrayVec::from(bytes)
        }
    }
}

// Whether there are as many bytes as the version has, with the check at the end and the bus's
// number if it has one.
fn has_form(version: Version, bytes: &[u8]) -> bool
    ensures value { result ≡ has_form version bytes.now }
    ensures enough { IsTrue result → 11 ≤ length bytes.now }
{
    match version {
        Version::One => bytes.len() == 11 && bytes[10] == check(&bytes[..10]),
        Version::Two { bus } => {
            bytes.len() == 12 && bytes[10] == bus && bytes[11] == check(&bytes[..11])
        }
    }
}

/// The tag with this byte: 1 is Word, 2 Fault and 3 Sync. None for every other byte.
pub fn tag_in(byte: u8) -> Option<Tag>
    ensures { result ≡ tag_in byte }
{
    match byte {
        1 => Some(Tag::Word),
        2 => Some(Tag::Fault),
        3 => Some(Tag::Sync),
        _ => None,
    }
}

// Whether a message with the tag may have the value.
fn may_have(tag: Tag, value: u32) -> bool
    ensures { result ≡ may_have tag value }
{
    match tag {
        Tag::Word => true,
        Tag::Fault => value == 0,
        Tag::Sync => value == 0,
    }
}

/// The message with these fields. `None` if and only if there is none: no tag, a stage that is not
/// 1 to 3, or a value other than 0 beside a tag that is not Word.
pub fn message_with(
    tag: Option<Tag>,
    frame: u16,
    slot: u16,
    stage: u8,
    value: u32,
) -> Option<Message>
    ensures { result ≡ message_with tag frame slot stage value }
{
    let tag = tag?;
    if 1 <= stage && stage <= 3 && may_have(tag, value) {
        Some(Message {
            tag,
            frame,
            slot,
            stage,
            value,
        })
    } else {
        None
    }
}

// The message that the bytes spell, read field by field.
#[tactic(auto, using(crate::proofs::Bytes::reading), unfolding(rb_rules::specs::Spelling::message_in))]
fn message_in(version: Version, bytes: &[u8]) -> Option<Message>
    ensures { result ≡ message_in version bytes.now }
{
    if !has_form(version, bytes) {
        return None;
    }
    message_with(
        tag_in(bytes[0]),
        BigEndian::read_u16(&bytes[1..3]),
        BigEndian::read_u16(&bytes[3..5]),
        bytes[5],
        BigEndian::read_u32(&bytes[6..10]),
    )
}

/// The message that the bytes spell in this version. `None` if and only if they spell none: the
/// number of bytes, the tag, the stage, the value beside its tag, the bus's number or the check is
/// not one of a message. Whether a message suits the window in which it arrives is not asked here.
#[tactic(auto, using(crate::proofs::Bytes::decoding))]
pub fn decode(version: Version, bytes: &[u8]) -> Option<Message>
    ensures spelled { IfSome result (Spells version bytes.now) }
    ensures none { IfNone result ((m : Message) → ¬ Spells version bytes.now m) }
    ensures value { result ≡ message_in version bytes.now }
{
    message_in(version, bytes)
}
