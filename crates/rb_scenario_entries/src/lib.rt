//! What a document says entry by entry: of clocks, links, faults, and what faulty nodes say; and of
//! the bus that they are for.
#![tactic(auto)]

pub mod bus;
pub mod clocks;
mod entries;
pub mod faults;
pub mod links;
pub mod refusal;
pub mod says;

pub use bus::{Bus, bus_in};
pub use clocks::{clocks_of, has_clocks};
pub use faults::{has_faults, onsets_of};
pub use links::{IsLink, rules_in};
pub use refusal::Refusal;
pub use says::{IsSay, says_in};
