//! Why a call is refused.
ghost use Rattle.std.specs.Prelude.{◌≡◌, Some};
ghost use Rattle.syn_model.specs.Refusal.{number, name_of};
ghost use Rattle.syn_refusal.specs.Refusals.{cause_of};
ghost use Rattle.syn_dirty.specs.Refusals.{refusal_of};

use std::alloc::{AllocError, AllocFailed};
use std::fmt;
use syn_refusal::Refusal;
use thiserror::Error;

/// Why a call is refused.
#[derive(Clone, Copy, Debug, PartialEq, Eq, Error)]
pub enum DirtyError {
    /// 11: memory was refused.
    Memory,
}

impl DirtyError {
    /// Which refusal it is.
    pub fn refusal(&self) -> Refusal
        ensures { cause_of result ≡ refusal_of self.now }
    {
        match self {
            DirtyError::Memory => Refusal::Memory,
        }
    }

    /// The number of the refusal.
    pub fn number(&self) -> u8
        ensures { result ≡ number (refusal_of self.now) }
    {
        self.refusal().number()
    }
}

/// The name of the refusal.
impl fmt::Display for DirtyError {
    ghost output = { λ error. Some (name_of (refusal_of error)) };

    fn fmt<W: fmt::Write>(&self, f: &mut fmt::Formatter<W>) -> fmt::Result {
        write!(f, "{}", self.refusal())
    }
}

impl From<AllocError> for DirtyError {
    ghost use Rattle.syn_dirty.specs.declared.error.DirtyError.TheVariants.{Memory};

    ghost from_gives = { λ _ e. e ≡ Memory };

    fn from(_error: AllocError) -> DirtyError {
        DirtyError::Memory
    }
}

impl<T: Drop> From<AllocFailed<T>> for DirtyError {
    ghost use Rattle.syn_dirty.specs.declared.error.DirtyError.TheVariants.{Memory};

    ghost from_gives = { λ _ e. e ≡ Memory };

    fn from(_error: AllocFailed<T>) -> DirtyError {
        DirtyError::Memory
    }
}
