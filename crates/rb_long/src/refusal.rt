//! Why a letter is not taken.
use thiserror::Error;

/// Why a letter is not taken to be sent.
#[derive(Clone, Copy, Debug, PartialEq, Eq, Error)]
pub enum LongRefusal {
    /// The letter has no byte, or more than 255.
    #[error("a letter has 1 to 255 bytes")]
    Length,
    /// Eight letters are not wholly sent.
    #[error("eight letters wait to be sent")]
    Full,
}
