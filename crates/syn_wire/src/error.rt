//! Why nothing is written or read.
ghost use Rattle.std.specs.Prelude.{◌≡◌, Some};
ghost use Rattle.syn_model.specs.Refusal.{number, name_of};
ghost use Rattle.syn_refusal.specs.Refusals.{cause_of};
ghost use Rattle.syn_wire.specs.Refusals.{refusal_of};

use std::alloc::{AllocError, AllocFailed};
use std::fmt;
use syn_path::PathError;
use syn_refusal::Refusal;
use thiserror::Error;

/// Why nothing is written or read.
#[derive(Clone, Copy, Debug, PartialEq, Eq, Error)]
pub enum WireError {
    /// Memory was refused.
    Memory,
}

impl WireError {
    /// Which refusal it is.
    pub fn refusal(&self) -> Refusal
        ensures { cause_of result ≡ refusal_of self.now }
    {
        match self {
            WireError::Memory => Refusal::Memory,
        }
    }

    /// The number of the refusal.
    pub fn number(&self) -> u8
        ensures { result ≡ number (refusal_of self.now) }
    {
        self.refusal().number()
    }
}

/// The name of the refusal.
impl fmt::Display for WireError {
    ghost output = { λ error. Some (name_of (refusal_of error)) };

    fn fmt<W: fmt::Write>(&self, f: &mut fmt::Formatter<W>) -> fmt::Result {
        write!(f, "{}", self.refusal())
    }
}

impl From<AllocError> for WireError {
    ghost use Rattle.syn_wire.specs.declared.error.WireError.TheVariants.{Memory};

    ghost from_gives = { λ _ e. e ≡ Memory };

    fn from(_error: AllocError) -> WireError {
        WireError::Memory
    }
}

impl<T: Drop> From<AllocFailed<T>> for WireError {
    ghost use Rattle.syn_wire.specs.declared.error.WireError.TheVariants.{Memory};

    ghost from_gives = { λ _ e. e ≡ Memory };

    fn from(_error: AllocFailed<T>) -> WireError {
        WireError::Memory
    }
}

/// Why a reader gives no value.
#[derive(Clone, Copy, Debug, PartialEq, Eq, Error)]
pub enum ReadError {
    /// No front of the bytes is the spelling of such a value.
    #[error("malformed")]
    Malformed,
    /// Memory was refused.
    #[error("out of memory")]
    Memory,
}

impl From<AllocError> for ReadError {
    ghost use Rattle.syn_wire.specs.declared.error.ReadError.TheVariants.{Memory};

    ghost from_gives = { λ _ e. e ≡ Memory };

    fn from(_error: AllocError) -> ReadError {
        ReadError::Memory
    }
}

impl<T: Drop> From<AllocFailed<T>> for ReadError {
    ghost use Rattle.syn_wire.specs.declared.error.ReadError.TheVariants.{Memory};

    ghost from_gives = { λ _ e. e ≡ Memory };

    fn from(_error: AllocFailed<T>) -> ReadError {
        ReadError::Memory
    }
}

/// Bytes that are no name or no path are malformed.
impl From<PathError> for ReadError {
    ghost use Rattle.syn_path.specs.declared.error.PathError.TheVariants.{BadPath};
    ghost use Rattle.syn_wire.specs.declared.error.ReadError.TheVariants.{Malformed};

    ghost from_gives = { λ error e. e ≡ Malformed → error ≡ BadPath };

    fn from(error: PathError) -> ReadError {
        match error {
            PathError::BadPath => ReadError::Malformed,
            PathError::Memory => ReadError::Memory,
        }
    }
}
