//! Scenarios: a bus and what happens to it, read from a TOML document.
#![tactic(auto)]

pub mod document;
mod hosts;
mod reading;
mod rules;
pub mod scenario;

pub use document::read;
pub use rb_rules::{Content, Say};
pub use rb_scenario_entries::Refusal;
pub use scenario::{ClockList, DelayList, SayList, Scenario};
