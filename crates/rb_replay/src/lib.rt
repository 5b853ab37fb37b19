//! A log that is given to its node once more, or that of a BIU to a listener: what either tells is
//! written as text.
#![tactic(auto)]

mod lines;
mod overhearing;
mod replaying;

pub use overhearing::{is_biu, listen};
pub use replaying::replay;
