//! What the programs that run a bus share: how they answer, how they read an input within a limit,
//! and how they write a text or refuse with a line.
#![tactic(auto)]

mod reading;
pub mod status;
mod writing;

pub use reading::read_within;
pub use status::{Status, status_of};
pub use writing::{refuse_with, write_text};
