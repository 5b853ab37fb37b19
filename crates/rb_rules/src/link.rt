//! How long messages are on their way.
use rb_base::NodeName;

/// One node, or all nodes of a kind.
#[derive(Clone, Copy, Debug, PartialEq, Eq)]
pub enum Pattern {
    One(NodeName),
    AllBiu,
    AllRmu,
}

/// The delay, in reference units, of the messages between these nodes whose header has a frame, a
/// slot and a stage in these ranges. Both ends belong to a range.
#[derive(Clone, Copy, Debug, PartialEq, Eq)]
pub struct Rule {
    pub from: Pattern,
    pub to: Pattern,
    pub frames: (u32, u32),
    pub slots: (u16, u16),
    pub stages: (u8, u8),
    pub delay: u32,
}
