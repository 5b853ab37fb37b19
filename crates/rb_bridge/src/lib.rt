//! A bridge of two buses: some processors are attached to a BIU of each, and carry one word a
//! frame. Both buses are taken frame by frame to their end, with what is handed over and what is
//! written.
#![tactic(auto)]

pub use crossing::cross;
pub use lines::{bridge_refused_line, cross_line, side_breach_line};
pub use members::members_on;
pub use side::{Side, open_side};
pub use telling::Breach;

mod crossing;
mod exchanging;
mod fields;
mod frame;
mod handing;
mod lines;
mod members;
pub mod passing;
mod receivers;
pub mod side;
pub mod telling;
mod values;
