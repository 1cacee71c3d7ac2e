//! Why a call of the journal is refused.
ghost use Rattle.std.specs.Prelude.{◌≡◌, Some};
ghost use Rattle.syn_model.specs.Refusal.{name_of};
ghost use Rattle.syn_refusal.specs.Refusals.{cause_of};
ghost use Rattle.syn_journal.specs.Refusals.{refusal_of, number_of};
ghost use Rattle.syn_journal.specs.declared.error.JournalError.TheVariants.{Device, Memory};

use std::alloc::{AllocError, AllocFailed};
use std::fmt;
use syn_disk::DeviceFailed;
use syn_refusal::Refusal;
use thiserror::Error;

/// Why a call of the journal is refused.
#[derive(Clone, Copy, Debug, PartialEq, Eq, Error)]
pub enum JournalError {
    /// 7: the image is too long, or the generation is the greatest.
    Full,
    /// 8: the record does not fit in the current half.
    JournalFull,
    /// 9: a device call failed during this call.
    Device,
    /// 10: the journal is halted, and was not opened again since.
    Halted,
    /// 11: memory was refused.
    Memory,
    /// 18: neither half of the disk is open.
    NoImage,
    /// 19: both halves are open and of one generation, or the current one breaks the layout.
    Damaged,
}

impl JournalError {
    /// Which refusal it is.
    pub fn refusal(&self) -> Refusal
        ensures { cause_of result ≡ refusal_of self.now }
    {
        match self {
            JournalError::Full => Refusal::Full,
            JournalError::JournalFull => Refusal::JournalFull,
            JournalError::Device => Refusal::Device,
            JournalError::Halted => Refusal::Halted,
            JournalError::Memory => Refusal::Memory,
            JournalError::NoImage => Refusal::NoImage,
            JournalError::Damaged => Refusal::Damaged,
        }
    }

    /// The number of the refusal.
    pub fn number(&self) -> u8
        ensures { result ≡ number_of self.now }
    {
        self.refusal().number()
    }
}

/// The name of the refusal.
impl fmt::Display for JournalError {
    ghost output = { λ error. Some (name_of (refusal_of error)) };

    fn fmt<W: fmt::Write>(&self, f: &mut fmt::Formatter<W>) -> fmt::Result {
        write!(f, "{}", self.refusal())
    }
}

impl From<DeviceFailed> for JournalError {
    ghost from_gives = { λ _ e. e ≡ Device };

    fn from(_: DeviceFailed) -> Self {
        JournalError::Device
    }
}

impl From<AllocError> for JournalError {
    ghost from_gives = { λ _ e. e ≡ Memory };

    fn from(_: AllocError) -> Self {
        JournalError::Memory
    }
}

impl<T: Drop> From<AllocFailed<T>> for JournalError {
    ghost from_gives = { λ _ e. e ≡ Memory };

    fn from(_: AllocFailed<T>) -> Self {
        JournalError::Memory
    }
}
