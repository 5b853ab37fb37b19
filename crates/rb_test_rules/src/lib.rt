//! Cases that are computed from the definitions of the bus alone: each is an equation on a function
//! that does nothing, proved by computing. No code is run, and no crate uses this one.
#![tactic(auto)]

pub mod abstract_bus;
pub mod accusing;
pub mod agreement;
pub mod cores;
pub mod events;
pub mod frames;
pub mod judged;
pub mod lawful;
pub mod lies;
pub mod messages;
pub mod ordinary;
pub mod parts;
pub mod premises;
pub mod resynchronisation;
pub mod steps;
pub mod timely;
pub mod timing;
pub mod values;
