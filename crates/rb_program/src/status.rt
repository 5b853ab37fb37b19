//! How a program ends.
ghost use Rattle.std.specs.Prelude.{◌≡◌};
ghost use Rattle.rb_program.specs.Statuses.{number_of, status_of};

use rb_run::Ending;

/// How a top call ends, with the number that the program ends with.
#[derive(Clone, Copy, Debug, PartialEq, Eq)]
pub enum Status {
    /// All is written.
    Done = 0,
    /// A bus ended with a breach of the fault premise.
    Breach = 1,
    /// The words are of no form that is known.
    Usage = 2,
    /// The input is refused, and a line says why.
    Refused = 3,
    /// The input is longer than it may be.
    TooLong = 4,
    /// The source failed.
    ReadFault = 5,
    /// The sink failed.
    WriteFault = 6,
    /// An allocation failed.
    OutOfMemory = 7,
}

impl Status {
    /// The number that the program ends with.
    pub fn number(self) -> u8
        ensures { result ≡ number_of self }
    {
        self as u8
    }
}

/// The answer if a run, or a bridge, ends so and all is written.
pub fn status_of(ending: Ending) -> Status
    ensures { result ≡ status_of ending }
{
    match ending {
        Ending::Ended => Status::Done,
        Ending::Breach => Status::Breach,
    }
}
