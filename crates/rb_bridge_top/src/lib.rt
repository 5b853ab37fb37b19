//! The top call of a bridge: words, input and output of the program as values.
#![tactic(auto)]

pub mod form;
mod pages;
mod reading;
mod running;
pub mod top;

pub use rb_program::Status;
pub use top::run_bridge;
