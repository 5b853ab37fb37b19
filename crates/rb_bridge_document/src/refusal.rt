//! Why a bridge is refused.
use rb_scenario_entries::Refusal;
use std::alloc::AllocError;
use thiserror::Error;

/// Why the document of a bridge is refused: the first rule that it breaks.
#[derive(Clone, Copy, Debug, PartialEq, Eq, Error)]
pub enum BridgeRefusal {
    /// The bytes are not the text of a TOML document.
    #[error("the text is not TOML")]
    BridgeToml,
    /// A key is missing or not known, a value is of another form than is asked for, or there is no
    /// pair or more than 16.
    #[error("the bridge is of another form")]
    BridgeForm,
    /// The scenario of the left bus is refused.
    #[error("the left bus is refused: {0}")]
    LeftRefused(Refusal),
    /// The scenario of the right bus is refused.
    #[error("the right bus is refused: {0}")]
    RightRefused(Refusal),
    /// A number is no BIU of its bus, two pairs share a BIU, a bus has no such data slot, the
    /// application at a BIU of the bridge is no table, or the buses' numbers of frames differ.
    #[error("a value is out of range")]
    BridgeRange,
    /// An allocation failed.
    #[error("there is not enough memory")]
    OutOfMemory,
}

impl BridgeRefusal {
    ghost use Rattle.std.specs.Prelude.{◌≡◌};
    ghost use Rattle.rb_bridge_document.specs.Codes.{code_of, detail_of};

    /// The code by which the refusal is printed, 21 to 25. `None` if and only if memory ran out.
    pub fn code(&self) -> Option<u8>
        ensures { result ≡ code_of self.now }
    {
        match self {
            BridgeRefusal::BridgeToml => Some(21),
            BridgeRefusal::BridgeForm => Some(22),
            BridgeRefusal::LeftRefused(_) => Some(23),
            BridgeRefusal::RightRefused(_) => Some(24),
            BridgeRefusal::BridgeRange => Some(25),
            BridgeRefusal::OutOfMemory => None,
        }
    }

    /// The number that is printed after the name: the code of the rule that a scenario breaks, and
    /// none for every other refusal.
    pub fn detail(&self) -> Option<u64>
        ensures { result ≡ detail_of self.now }
    {
        match self {
            BridgeRefusal::LeftRefused(why) => why.code().map(u64::from),
            BridgeRefusal::RightRefused(why) => why.code().map(u64::from),
            _ => None,
        }
    }
}

impl From<AllocError> for BridgeRefusal {
    ghost use Rattle.std.specs.Prelude.{◌≡◌};
    ghost use Rattle.rb_bridge_document.specs.declared.refusal.BridgeRefusal.TheVariants.{OutOfMemory};

    ghost from_gives = { λ _ e. e ≡ OutOfMemory };

    fn from(_error: AllocError) -> BridgeRefusal {
        BridgeRefusal::OutOfMemory
    }
}
