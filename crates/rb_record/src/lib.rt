//! What one node is given in a run, written as a log.
#![tactic(auto)]

mod buffer;
mod counted;
mod laws;
mod recorder;
mod recording;

pub use laws::{one_log, recorded_is_read};
pub use rb_run::Ending;
pub use recording::record;
