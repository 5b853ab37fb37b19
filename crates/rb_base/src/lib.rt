//! The words that every part of the bus speaks in.
#![tactic(auto)]

pub mod event;
pub mod kind;
pub mod memory;
pub mod node;
pub mod node_set;
pub mod shape;
pub mod values;

pub use event::{Event, EventKind, MOST_TICKS};
pub use kind::{Biu, Kind, Rmu};
pub use memory::OutOfMemory;
pub use node::{NodeId, NodeName};
pub use node_set::NodeSet;
pub use shape::Shape;
pub use values::{Delivery, Heard, Place, See};
