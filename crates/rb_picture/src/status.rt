//! How the top call ends.

/// How the top call ends, with the number that the program ends with.
#[derive(Clone, Copy, Debug, PartialEq, Eq)]
pub enum Status {
    /// The picture is written, or what a flag asks for.
    Done = 0,
    /// The words are of no form that is known.
    Usage = 2,
    /// The input is no report, and a line says where and why.
    Refused = 3,
    /// The input is longer than it may be.
    TooLong = 4,
    /// The source failed.
    ReadFault = 5,
    /// The sink failed.
    WriteFault = 6,
    /// An allocation failed.
    OutOfMemory = 7,
}
