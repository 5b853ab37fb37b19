//! The timing plan of a bus, and the windows of a frame.
use crate::message::Version;

/// The numbers that all nodes of a bus agree on. Times are in reference units, lengths of windows
/// in ticks.
#[derive(Clone, Copy, Debug, PartialEq, Eq)]
pub struct Plan {
    /// The nominal length of a tick, and by how much a tick may be longer or shorter.
    pub u: u32,
    pub r: u32,
    /// The least and the greatest delay of a good node's message.
    pub dmin: u32,
    pub dmax: u32,
    /// The ticks of a window below the sync slot, and the tick in it at which its message is sent.
    pub l: u32,
    pub h: u32,
    /// The ticks of the windows of the sync slot's stages 2 and 3.
    pub v: u32,
    pub z: u32,
    /// A BIU's next frame begins `z + c` ticks after its own last call, an RMU's `z` ticks after
    /// the middle stamp of those calls.
    pub c: u32,
    /// The bound on the skew of the nodes' epochs.
    pub p: u32,
    /// How messages are spelled.
    pub version: Version,
    /// After how many frames without new evidence a direct accusation lapses; 0 for never.
    pub probation: u16,
}

/// A window of a frame: its slot, its stage, and its first and last offset in ticks from the
/// frame's first tick.
#[derive(Clone, Copy, Debug, PartialEq, Eq)]
pub struct Window {
    pub slot: u16,
    pub stage: u8,
    pub first: u64,
    pub last: u64,
}
