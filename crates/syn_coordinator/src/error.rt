//! Why a session does not start.
ghost use Rattle.std.specs.Prelude.{◌≡◌, Some};
ghost use Rattle.syn_model.specs.Refusal.{number, name_of};
ghost use Rattle.syn_refusal.specs.Refusals.{cause_of};
ghost use Rattle.syn_coordinator.specs.Refusals.{refusal_of};

use std::alloc::{AllocError, AllocFailed};
use std::fmt;
use syn_refusal::Refusal;
use thiserror::Error;

/// Why a session does not start.
#[derive(Clone, Copy, Debug, PartialEq, Eq, Error)]
pub enum StartError {
    /// 7: the last session has the greatest number.
    Full,
    /// 8: the record of a session does not fit in the current half of the archive's journal.
    JournalFull,
    /// 9: a device call failed.
    Device,
    /// 10: a device call failed earlier, and the archive was not opened again since.
    Halted,
    /// 11: memory was refused.
    Memory,
    /// 12: a session is running.
    Busy,
}

impl StartError {
    /// Which refusal it is.
    pub fn refusal(&self) -> Refusal
        ensures { cause_of result ≡ refusal_of self.now }
    {
        match self {
            StartError::Full => Refusal::Full,
            StartError::JournalFull => Refusal::JournalFull,
            StartError::Device => Refusal::Device,
            StartError::Halted => Refusal::Halted,
            StartError::Memory => Refusal::Memory,
            StartError::Busy => Refusal::Busy,
        }
    }

    /// The number of the refusal.
    pub fn number(&self) -> u8
        ensures { result ≡ number (refusal_of self.now) }
    {
        self.refusal().number()
    }
}

/// The name of the refusal.
impl fmt::Display for StartError {
    ghost output = { λ error. Some (name_of (refusal_of error)) };

    fn fmt<W: fmt::Write>(&self, f: &mut fmt::Formatter<W>) -> fmt::Result {
        write!(f, "{}", self.refusal())
    }
}

impl From<AllocError> for StartError {
    ghost use Rattle.syn_coordinator.specs.declared.error.StartError.TheVariants.{Memory};

    ghost from_gives = { λ _ e. e ≡ Memory };

    fn from(_error: AllocError) -> StartError {
        StartError::Memory
    }
}

impl<T: Drop> From<AllocFailed<T>> for StartError {
    ghost use Rattle.syn_coordinator.specs.declared.error.StartError.TheVariants.{Memory};

    ghost from_gives = { λ _ e. e ≡ Memory };

    fn from(_error: AllocFailed<T>) -> StartError {
        StartError::Memory
    }
}
