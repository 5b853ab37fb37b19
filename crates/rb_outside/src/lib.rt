//! The outside: where bytes come from and where they go. Every failure of it is counted.
#![tactic(auto)]

mod faults;
mod script;
mod sink;
mod source;
mod standard;
mod traits;
mod whole;

pub use sink::{MemSink, ShortSink};
pub use source::{MemSource, PlainSource, ShortSource};
pub use standard::{StdSink, StdSource};
pub use traits::{Failed, Sink, Source};
pub use whole::{Unread, read_all, write_all, write_line};
