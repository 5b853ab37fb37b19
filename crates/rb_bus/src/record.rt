//! A record of a run as plain numbers, for a host in another language.
ghost use Rattle.std.specs.Prelude.{◌≡◌};
ghost use Rattle.rb_bus.specs.Shown.{cause_number, delivery_shown, node_shown, port_shown};

use rb_base::{Heard, NodeName};
use rb_rules::{Cause, NodeLine, PortLine, SlotLine};

/// A good node as a frame begins: its kind, 0 for a BIU and 1 for an RMU; its number; the nodes
/// that it holds convicted, as two masks; its first tick of the frame by its own clock; and the
/// time of that tick, in reference units.
#[repr(C)]
#[derive(Clone, Copy, Debug, PartialEq, Eq)]
pub struct HostNode {
    pub kind: u8,
    pub index: u8,
    pub convicted_bius: u16,
    pub convicted_rmus: u16,
    pub tick: u64,
    pub time: u64,
}

/// The port of a good BIU as a frame begins: how many of its last 64 deliveries were none, and the
/// state of its application.
#[repr(C)]
#[derive(Clone, Copy, Debug, PartialEq, Eq)]
pub struct HostPort {
    pub biu: u8,
    pub losses: u8,
    pub state: u64,
}

/// What a good BIU delivered in a slot: the BIU that owns the slot, and its word. If the delivery
/// is none, `none` is true and `word` is 0.
#[repr(C)]
#[derive(Clone, Copy, Debug, PartialEq, Eq)]
pub struct HostDelivery {
    pub receiver: u8,
    pub sender: u8,
    pub none: bool,
    pub word: u32,
}

/// A record of a run. `what` is 1 for the record of a frame, which has `frame`, the first
/// `node_count` of `nodes` and the first `port_count` of `ports`. It is 2 for the record of a slot,
/// which has `frame`, `slot` and the first `delivery_count` of `deliveries`. It is 3 for the end.
/// It is 4 for a breach, which has `frame`, `slot`, `stage` and `cause`, 1 to 3.
#[repr(C)]
#[derive(Clone, Copy, Debug, PartialEq, Eq)]
pub struct HostRecord {
    pub what: u8,
    pub cause: u8,
    pub stage: u8,
    pub node_count: u8,
    pub port_count: u8,
    pub delivery_count: u8,
    pub slot: u16,
    pub frame: u32,
    pub nodes: [HostNode; 32],
    pub ports: [HostPort; 16],
    pub deliveries: [HostDelivery; 16],
}

// A node's line as plain numbers.
pub(crate) fn node_shown(line: &NodeLine) -> HostNode
    ensures { result ≡ node_shown line.now }
{
    let (kind, index) = match line.node {
        NodeName::Biu(index) => (0, index),
        NodeName::Rmu(index) => (1, index),
    };
    HostNode {
        kind,
        index,
        convicted_bius: line.biu,
        convicted_rmus: line.rmu,
        tick: line.tick,
        time: line.time,
    }
}

// A port's line as plain numbers.
pub(crate) fn port_shown(line: &PortLine) -> HostPort
    ensures { result ≡ port_shown line.now }
{
    HostPort {
        biu: line.biu,
        losses: line.losses,
        state: line.state,
    }
}

// A delivery's line as plain numbers.
pub(crate) fn delivery_shown(line: &SlotLine) -> HostDelivery
    ensures { result ≡ delivery_shown line.now }
{
    let (none, word) = match line.value {
        Heard::Word(word) => (false, word),
        Heard::Fault => (true, 0),
    };
    HostDelivery {
        receiver: line.receiver,
        sender: line.sender,
        none,
        word,
    }
}

// The number of a breach's cause.
pub(crate) fn cause_number(cause: Cause) -> u8
    ensures { result ≡ cause_number cause }
{
    match cause {
        Cause::FewGoodBiu => 1,
        Cause::FewGoodRmu => 2,
        Cause::TwoSided => 3,
    }
}
