//! What happens to one node.
use crate::NodeName;
use arrayvec::ArrayVec;

/// How many ticks a node can have: those below 2^31.
pub const MOST_TICKS: u64 = 2_147_483_648;

/// One event at a node. Before it the node had `quiet` ticks at which it had nothing to do.
#[derive(Clone, Debug, PartialEq, Eq, Drop)]
pub struct Event {
    pub node: NodeName,
    pub quiet: u32,
    pub kind: EventKind,
}

/// What kind of event it is.
#[derive(Clone, Debug, PartialEq, Eq, Drop)]
pub enum EventKind {
    /// A tick of the node's clock. `wanted` says whether the node asks for a word at this tick, and
    /// `word` is that word, or 0 if none is wanted.
    Tick { word: u32, wanted: bool },
    /// The arrival of a message of at most 32 bytes from node `from` of the other kind.
    Arrive { from: u8, bytes: ArrayVec<u8, 32> },
}
