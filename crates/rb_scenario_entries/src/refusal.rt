//! Why a document is refused.
use std::alloc::AllocError;
use thiserror::Error;

/// Why a document is refused: the first rule that it breaks anywhere.
#[derive(Clone, Copy, Debug, PartialEq, Eq, Error)]
pub enum Refusal {
    /// The bytes are not the text of a TOML document.
    #[error("the text is not TOML")]
    NotToml,
    /// A key that must be there is not, or a say entry says nothing.
    #[error("a key is missing")]
    MissingKey,
    /// A table has a key that is not known for it.
    #[error("a key is not known")]
    UnknownKey,
    /// A value is of another form than is asked for.
    #[error("a value is of another form")]
    WrongType,
    /// A number, a name, a pair, a length or an offset is out of its range, or a node has two
    /// entries.
    #[error("a value is out of range")]
    OutOfRange,
    /// The plan is not feasible: this inequality, from 1 to 7, is the first that fails.
    #[error("the plan fails at inequality {0}")]
    PlanFails(u8),
    /// A clock's ticks do not begin at 0, do not rise, or have a length outside the plan's bounds.
    #[error("a clock is out of bounds")]
    ClockBounds,
    /// A delay is outside the plan's bounds.
    #[error("a delay is out of bounds")]
    DelayBounds,
    /// The clocks start further apart than the plan's skew.
    #[error("the clocks start too far apart")]
    StartApart,
    /// A node that is good at the entry's first place says something.
    #[error("a good node says something")]
    SayOfGood,
    /// There are more than 1024 say entries, 4096 link entries, or 4096 segments of all clocks.
    #[error("there are too many entries")]
    TooMany,
    /// The scenario has no such node. No reading of a document answers this.
    #[error("there is no such node")]
    NoSuchNode,
    /// An allocation failed.
    #[error("there is not enough memory")]
    OutOfMemory,
}

impl Refusal {
    ghost use Rattle.std.specs.Prelude.{◌≡◌};
    ghost use Rattle.rb_scenario_entries.specs.Codes.{code_of, detail_of};

    /// The code by which the refusal is printed. `None` if and only if memory ran out.
    pub fn code(&self) -> Option<u8>
        ensures { result ≡ code_of self.now }
    {
        match self {
            Refusal::NotToml => Some(1),
            Refusal::MissingKey => Some(2),
            Refusal::UnknownKey => Some(3),
            Refusal::WrongType => Some(4),
            Refusal::OutOfRange => Some(5),
            Refusal::PlanFails(_) => Some(6),
            Refusal::ClockBounds => Some(7),
            Refusal::DelayBounds => Some(8),
            Refusal::StartApart => Some(9),
            Refusal::SayOfGood => Some(10),
            Refusal::TooMany => Some(11),
            Refusal::NoSuchNode => Some(12),
            Refusal::OutOfMemory => None,
        }
    }

    /// The number that is printed after the name: that of the inequality that fails, and none for
    /// every other refusal.
    pub fn detail(&self) -> Option<u64>
        ensures { result ≡ detail_of self.now }
    {
        match self {
            Refusal::PlanFails(n) => Some(u64::from(*n)),
            _ => None,
        }
    }
}

impl From<AllocError> for Refusal {
    ghost use Rattle.std.specs.Prelude.{◌≡◌};
    ghost use Rattle.rb_scenario_entries.specs.declared.refusal.Refusal.TheVariants.{OutOfMemory};

    ghost from_gives = { λ _ e. e ≡ OutOfMemory };

    fn from(_error: AllocError) -> Refusal {
        Refusal::OutOfMemory
    }
}
