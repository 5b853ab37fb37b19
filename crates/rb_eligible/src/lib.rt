//! Whom a node trusts and accuses, and what it makes of what came in a window.
#![tactic(auto)]

pub use inbox::Inbox;
pub use rb_rules::{Expect, Sense};
pub use standing::{Standing, with_node_if};
pub use taking::{Taking, is_quiet, take_with_evidence};

pub mod inbox;
pub mod reading;
pub mod standing;
pub mod taking;
mod words;
