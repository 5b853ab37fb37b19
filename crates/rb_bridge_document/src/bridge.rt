//! What the document of a bridge says.
use arrayvec::ArrayVec;
use rb_rules_bridge::Pair;
use rb_scenario::Scenario;

/// Two buses, and what joins them: the pairs of BIUs to which one processor is attached, and which
/// data slot of each bus is carried over, counted from 0.
#[derive(Drop)]
pub struct Bridge {
    pub left: Scenario,
    pub right: Scenario,
    pub pairs: ArrayVec<Pair, 16>,
    pub left_slot: u16,
    pub right_slot: u16,
}
