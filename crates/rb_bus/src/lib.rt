//! A bus in a host's hands: a run that gives the host one record after another, and takes from the
//! host the words that the BIUs offer. The host's own software is then what controls the bus.
#![tactic(auto)]

pub mod access;
pub mod bus;
pub mod calls;
pub mod filling;
pub mod handle;
pub mod held;
pub mod record;
