//! What a call of a run gives.
use arrayvec::ArrayVec;
use rb_base::Place;
use rb_rules::{Cause, NodeLine, PortLine, SlotLine};

/// What a call of a run gives: nothing, the record of a frame or of a slot, the end of the run, or
/// the first stage at which the fault premise fails, with the cause.
#[derive(Clone, Debug, PartialEq, Eq, Drop)]
pub enum Turn {
    Quiet,
    Frame(FrameRecord),
    Slot(SlotRecord),
    Ended,
    Breach(Place, Cause),
}

/// A frame at its start: a line for each good node, BIUs before RMUs, and the ports of the good
/// BIUs.
#[derive(Clone, Debug, PartialEq, Eq, Drop)]
pub struct FrameRecord {
    pub frame: u32,
    pub nodes: ArrayVec<NodeLine, 32>,
    pub ports: ArrayVec<PortLine, 16>,
}

/// A slot below the sync slot at its end: what the good BIUs delivered in it, in their order.
#[derive(Clone, Debug, PartialEq, Eq, Drop)]
pub struct SlotRecord {
    pub frame: u32,
    pub slot: u16,
    pub lines: ArrayVec<SlotLine, 16>,
}
