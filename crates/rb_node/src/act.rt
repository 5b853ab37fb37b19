//! What a node gives at a tick, and what it wants for one.
use arrayvec::ArrayVec;
use rb_base::{Delivery, Place};
use rb_rules::{Closed, Epoch, Message};

/// What a node wants to be handed for a tick: nothing, its request in its own schedule slot, or its
/// word in a data slot.
#[derive(Clone, Copy, Debug, PartialEq, Eq)]
pub enum Want {
    Nothing,
    Request,
    Data { slot: u16 },
}

/// What a node gives at a tick: the message that it sends as bytes, what it delivers, the window
/// that it closes, and the frame that it begins.
#[derive(Clone, Debug, PartialEq, Eq, Drop)]
pub struct Act {
    pub send: Option<ArrayVec<u8, 12>>,
    pub delivered: Option<Delivery>,
    pub closed: Option<Closed>,
    pub epoch: Option<Epoch>,
}

/// The small form of an act: the frame that starts, the message that is sent, and whether a window
/// was closed. What was seen in the window stays with the node.
#[derive(Clone, Copy, Debug, PartialEq, Eq)]
pub struct Step {
    pub epoch: Option<Epoch>,
    pub message: Option<Message>,
    pub closed: bool,
}

/// A window as a node goes through it: its place, and its first and its last tick.
#[derive(Clone, Copy, Debug, PartialEq, Eq)]
pub struct Span {
    pub place: Place,
    pub first: u64,
    pub last: u64,
}
