//! Why bytes are no log.
use thiserror::Error;

/// Why bytes are no log: the first fault from the front. All but the first have a place, in bytes
/// from the front.
#[derive(Clone, Copy, Debug, PartialEq, Eq, Error)]
pub enum LogRefusal {
    /// The first four bytes are those of no log.
    #[error("these are not the first bytes of a log")]
    BadMagic,
    /// The field that starts there has a number that it may not have.
    #[error("the field at byte {0} may not have this number")]
    BadField(u64),
    /// The bytes end there inside the header, inside a record or where a record must begin.
    #[error("the log is cut short at byte {0}")]
    Truncated(u64),
    /// This byte follows the end.
    #[error("byte {0} follows the end of the log")]
    AfterEnd(u64),
}
