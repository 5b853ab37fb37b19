//! What is told of the start of a frame and of deliveries.
use rb_base::{Heard, NodeName};

/// What a node tells of a frame that it begins: its number, its first tick, and the convicted nodes
/// of both kinds as the node holds them, as masks.
#[derive(Clone, Copy, Debug, PartialEq, Eq)]
pub struct Epoch {
    pub frame: u32,
    pub tick: u64,
    pub biu: u16,
    pub rmu: u16,
}

/// A node at the start of a frame: the first tick and its reference time, and the convicted nodes
/// of both kinds as the node holds them, as masks.
#[derive(Clone, Copy, Debug, PartialEq, Eq, Default)]
pub struct NodeLine {
    pub node: NodeName,
    pub tick: u64,
    pub time: u64,
    pub biu: u16,
    pub rmu: u16,
}

/// The port of a BIU at the start of a frame: its application's state, and how many of its last 64
/// deliveries were Fault.
#[derive(Clone, Copy, Debug, PartialEq, Eq, Default)]
pub struct PortLine {
    pub biu: u8,
    pub state: u64,
    pub losses: u8,
}

/// What BIU `receiver` delivered in a slot of BIU `sender`.
#[derive(Clone, Copy, Debug, PartialEq, Eq, Default)]
pub struct SlotLine {
    pub receiver: u8,
    pub sender: u8,
    pub value: Heard,
}
