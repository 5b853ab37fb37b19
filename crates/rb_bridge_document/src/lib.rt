//! Bridges of two buses, read from a TOML document that has the texts of two scenarios.
#![tactic(auto)]

pub mod bridge;
mod forms;
mod ranges;
mod reading;
pub mod refusal;

pub use bridge::Bridge;
pub use reading::read_bridge;
pub use refusal::BridgeRefusal;
