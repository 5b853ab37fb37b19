//! One node of a bus in a host: a handle over memory that only the calls here reach.
#![tactic(auto)]

pub mod act;
pub mod any_node;
pub mod calls;
pub mod handle;
pub mod held;
mod quiet;
pub mod seat;
