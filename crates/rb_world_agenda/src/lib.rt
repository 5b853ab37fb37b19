//! What is due at the nodes of a bus: the pending events of all nodes, beside the least time of
//! each node in a flat array.
#![tactic(auto)]

pub mod agenda;
mod run_lanes;
mod scan;
mod tick_marks;

pub use agenda::Agenda;
