//! What comes to the nodes of a bus: the messages of good nodes, and what the others say.
#![tactic(auto)]

mod arriving;
mod entries;
pub mod saying;
pub mod sending;

pub use saying::{Sayings, Span};
pub use sending::{Departure, send};
