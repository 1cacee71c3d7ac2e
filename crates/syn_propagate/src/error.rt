//! Why a transfer goes no further.
ghost use Rattle.std.specs.Prelude.{◌≡◌, Some};
ghost use Rattle.syn_model.specs.Refusal.{number, name_of};
ghost use Rattle.syn_refusal.specs.Refusals.{cause_of};
ghost use Rattle.syn_propagate.specs.Refusals.{refusal_of};

use std::alloc::AllocError;
use std::fmt;
use syn_refusal::Refusal;
use thiserror::Error;

/// Why a transfer goes no further. It is over then, unless memory was refused.
#[derive(Clone, Copy, Debug, PartialEq, Eq, Error)]
pub enum TransferError {
    /// 23: the answer does not belong to what was asked.
    BadMessage,
    /// 11: memory was refused.
    Memory,
}

impl TransferError {
    /// Which refusal it is.
    pub fn refusal(&self) -> Refusal
        ensures { cause_of result ≡ refusal_of self.now }
    {
        match self {
            TransferError::BadMessage => Refusal::BadMessage,
            TransferError::Memory => Refusal::Memory,
        }
    }

    /// The number of the refusal.
    pub fn number(&self) -> u8
        ensures { result ≡ number (refusal_of self.now) }
    {
        self.refusal().number()
    }
}

/// The name of the refusal.
impl fmt::Display for TransferError {
    ghost output = { λ error. Some (name_of (refusal_of error)) };

    fn fmt<W: fmt::Write>(&self, f: &mut fmt::Formatter<W>) -> fmt::Result {
        write!(f, "{}", self.refusal())
    }
}

impl From<AllocError> for TransferError {
    ghost use Rattle.syn_propagate.specs.declared.error.TransferError.TheVariants.{Memory};

    ghost from_gives = { λ _ e. e ≡ Memory };

    fn from(_error: AllocError) -> TransferError {
        TransferError::Memory
    }
}
