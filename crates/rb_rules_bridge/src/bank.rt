//! The two ends of a bridge.

/// One of the two buses of a bridge.
#[derive(Clone, Copy, Debug, PartialEq, Eq)]
pub enum Bank {
    Left,
    Right,
}

/// A BIU of the left bus and one of the right, to which one processor is attached.
#[derive(Clone, Copy, Debug, PartialEq, Eq, Default)]
pub struct Pair {
    pub left: u8,
    pub right: u8,
}
