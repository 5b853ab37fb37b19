//! What the nodes of a run have told, and what is settled by it.
#![tactic(auto)]

pub mod book;
mod group;
pub mod milestone;
mod told;
pub mod turn;
mod walks;

pub use book::Book;
pub use milestone::{Milestone, Way};
pub use rb_rules::{Cause, NodeLine, PortLine, SlotLine};
pub use turn::{FrameRecord, SlotRecord, Turn};
