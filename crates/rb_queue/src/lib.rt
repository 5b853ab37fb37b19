//! Pending events, kept by node: what comes next at each node, and what may be taken there.
#![tactic(auto)]

pub mod arrival;
mod beside;
pub mod lane;
pub mod lanes;
mod pending;
mod queue;
mod scan;

pub use arrival::Arrival;
pub use lane::Lane;
pub use lanes::Lanes;
