//! The letters that the ports of a bus receive in a run, written as they are received whole.
#![tactic(auto)]

pub use hearing::Receivers;
pub use letters::Letters;
pub use spelling::write_spelling;

pub mod hearing;
pub mod letters;
mod spelling;
