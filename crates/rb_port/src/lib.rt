//! What is behind a BIU: its application, and the port that hands words over. Both are this
//! project's own.
#![tactic(auto)]

pub mod apps;
pub mod port;

pub use apps::{App, Apps, Learn, Offer};
pub use port::Port;
