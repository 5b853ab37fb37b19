//! What a run says of a group of replicas, told as its frames are complete.
#![tactic(auto)]

pub use asked::{Asked, Query, Scope, has_members};
pub use ports::{Ports, advance, first_ports};
pub use run::GroupReport;
pub use scope::scope_of;

pub mod asked;
pub mod ports;
mod report;
pub mod run;
mod scope;
