//! What travels on a link.

/// What a message carries: a word, the mark that there is none, or a call to resynchronize.
#[derive(Clone, Copy, Debug, PartialEq, Eq)]
pub enum Tag {
    Word,
    Fault,
    Sync,
}

/// A message, with the window that it is meant for: the frame's number modulo 65536, the slot and
/// its stage, 1 to 3. The value is 0 unless the tag is `Word`.
#[derive(Clone, Copy, Debug, PartialEq, Eq)]
pub struct Message {
    pub tag: Tag,
    pub frame: u16,
    pub slot: u16,
    pub stage: u8,
    pub value: u32,
}

/// How messages are spelled. Those of version `Two` carry the number of their bus.
#[derive(Clone, Copy, Debug, PartialEq, Eq)]
pub enum Version {
    One,
    Two { bus: u8 },
}
