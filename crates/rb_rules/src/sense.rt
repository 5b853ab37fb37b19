//! What a node makes of the arrivals of one source in a window.
use crate::message::{Message, Version};

/// What a message must have to be meant for a window: the frame's number modulo 65536, the slot and
/// the stage. In the sync slot it must be a call to resynchronize, in every other slot a word or a
/// fault.
#[derive(Clone, Copy, Debug, PartialEq, Eq)]
pub struct Expect {
    pub frame: u16,
    pub slot: u16,
    pub stage: u8,
    pub sync: bool,
    pub version: Version,
}

/// Nothing came, one message came that is meant for the window, `at` being its stamp in ticks, or
/// anything else.
#[derive(Clone, Copy, Debug, PartialEq, Eq)]
pub enum Sense {
    Silent,
    One { at: u64, message: Message },
    Bad,
}
