//! Logs of what one node was given.
//!
//! A log is a header, records and an end. The header has the sizes and the plan of the bus and the
//! name of the node. A record is one tick and its word, a number of ticks with word 0, or the
//! arrival of a message. All numbers have the most significant byte first. A log may come from
//! anywhere: a reader looks at all of it before it gives the first event.
#![tactic(auto)]

mod cursor;
mod entry;
mod field;
mod headers;
mod heading;
mod laws;
mod reader;
mod refusal;
mod writer;

pub use headers::header;
pub use laws::{read_is_spelled, written_is_read};
pub use reader::{LogEvent, LogReader};
pub use refusal::LogRefusal;
pub use writer::LogWriter;
