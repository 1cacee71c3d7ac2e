//! Why a frame is neither read nor written.
ghost use Rattle.std.specs.Prelude.{◌≡◌, Some};
ghost use Rattle.syn_model.specs.Refusal.{number, name_of};
ghost use Rattle.syn_refusal.specs.Refusals.{cause_of};
ghost use Rattle.syn_link.specs.Refusals.{refusal_of};

use std::alloc::{AllocError, AllocFailed};
use std::fmt;
use syn_refusal::Refusal;
use thiserror::Error;

/// Why a frame is neither read nor written.
#[derive(Clone, Copy, Debug, PartialEq, Eq, Error)]
pub enum LinkError {
    /// 21: a length of 0.
    BadFrame,
    /// 22: a length above `LONGEST_BODY`.
    TooLarge,
    /// 9: a read or a write failed.
    Device,
    /// 11: memory was refused.
    Memory,
}

impl LinkError {
    /// Which refusal it is.
    pub fn refusal(&self) -> Refusal
        ensures { cause_of result ≡ refusal_of self.now }
    {
        match self {
            LinkError::BadFrame => Refusal::BadFrame,
            LinkError::TooLarge => Refusal::TooLarge,
            LinkError::Device => Refusal::Device,
            LinkError::Memory => Refusal::Memory,
        }
    }

    /// The number of the refusal.
    pub fn number(&self) -> u8
        ensures { result ≡ number (refusal_of self.now) }
    {
        self.refusal().number()
    }
}

/// The name of the refusal.
impl fmt::Display for LinkError {
    ghost output = { λ error. Some (name_of (refusal_of error)) };

    fn fmt<W: fmt::Write>(&self, f: &mut fmt::Formatter<W>) -> fmt::Result {
        write!(f, "{}", self.refusal())
    }
}

impl From<AllocError> for LinkError {
    ghost use Rattle.std.specs.Prelude.{◌≡◌};
    ghost use Rattle.syn_link.specs.declared.error.LinkError.TheVariants.{Memory};

    ghost from_gives = { λ _ e. e ≡ Memory };

    fn from(_error: AllocError) -> LinkError {
        LinkError::Memory
    }
}

impl<T: Drop> From<AllocFailed<T>> for LinkError {
    ghost use Rattle.std.specs.Prelude.{◌≡◌};
    ghost use Rattle.syn_link.specs.declared.error.LinkError.TheVariants.{Memory};

    ghost from_gives = { λ _ e. e ≡ Memory };

    fn from(_error: AllocFailed<T>) -> LinkError {
        LinkError::Memory
    }
}
