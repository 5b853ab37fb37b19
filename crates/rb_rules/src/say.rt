//! What faulty nodes say.
use crate::link::Pattern;
use arrayvec::ArrayVec;
use rb_base::NodeName;

/// What one entry says: a message with the header of the window in which it comes, or 1 to 32 bytes
/// as they are.
#[derive(Clone, Debug, PartialEq, Eq, Drop)]
pub enum Content {
    Word(u32),
    Fault,
    Sync,
    Raw(ArrayVec<u8, 32>),
}

/// What a node that is not good says to each good receiver, in each window of the ranges; both ends
/// belong to a range. It comes at the time of the tick with this offset in the receiver's window,
/// `early` reference units before it.
#[derive(Clone, Debug, PartialEq, Eq, Drop)]
pub struct Say {
    pub from: NodeName,
    pub to: Pattern,
    pub frames: (u32, u32),
    pub slots: (u16, u16),
    pub stages: (u8, u8),
    pub offset: u32,
    pub early: u32,
    pub content: Content,
}
