//! The top call: words, input and output of the program as values; and each of its commands as a
//! call of its own.
#![tactic(auto)]

mod checking;
pub mod commands;
pub mod form;
pub mod generating;
mod listening;
mod pages;
mod reading;
mod recording;
mod replaying;
pub mod running;
mod serving;
pub mod spelling;
pub mod top;

pub use commands::{check, group, letters, listen, record, replay, run};
pub use generating::generate;
pub use rb_program::Status;
pub use running::stress;
pub use spelling::spell;
pub use top::run_robus;
