//! One node of a bus, fed event by event: ticks of its clock and arrivals with any bytes.
#![tactic(auto)]

pub use act::{Act, Span, Step, Want};
pub use node::{Node, events_come_in_parts};
pub use rb_base::{Event, EventKind};
pub use rb_rules::{Closed, Epoch, Message};
pub use rb_slot::Shown;

pub mod act;
pub mod ahead;
pub mod node;
pub mod parts;
