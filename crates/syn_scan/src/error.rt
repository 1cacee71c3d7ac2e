//! Why a call of a scanner is refused.
ghost use Rattle.std.specs.Prelude.{◌≡◌, Some};
ghost use Rattle.syn_model.specs.Refusal.{number, name_of};
ghost use Rattle.syn_refusal.specs.Refusals.{cause_of};
ghost use Rattle.syn_scan.specs.Refusals.{refusal_of};

use std::alloc::{AllocError, AllocFailed};
use std::fmt;
use syn_path::PathError;
use syn_refusal::Refusal;
use syn_tree::TreeError;
use thiserror::Error;

/// Why a call of a scanner is refused.
#[derive(Clone, Copy, Debug, PartialEq, Eq, Error)]
pub enum ScanError {
    /// 11: memory was refused.
    Memory,
    /// 22: the scan would have more than 4,096 nodes.
    TooLarge,
    /// 23: the answer does not belong.
    BadMessage,
}

impl ScanError {
    /// Which refusal it is.
    pub fn refusal(&self) -> Refusal
        ensures { cause_of result ≡ refusal_of self.now }
    {
        match self {
            ScanError::Memory => Refusal::Memory,
            ScanError::TooLarge => Refusal::TooLarge,
            ScanError::BadMessage => Refusal::BadMessage,
        }
    }

    /// The number of the refusal.
    pub fn number(&self) -> u8
        ensures { result ≡ number (refusal_of self.now) }
    {
        self.refusal().number()
    }
}

/// The name of the refusal.
impl fmt::Display for ScanError {
    ghost output = { λ error. Some (name_of (refusal_of error)) };

    fn fmt<W: fmt::Write>(&self, f: &mut fmt::Formatter<W>) -> fmt::Result {
        write!(f, "{}", self.refusal())
    }
}

/// A path beyond the limits does not belong to a scan.
impl From<PathError> for ScanError {
    ghost use Rattle.syn_scan.specs.Refusals.{of_path};

    ghost from_gives = { λ refused e. e ≡ of_path refused };

    fn from(error: PathError) -> ScanError {
        match error {
            PathError::BadPath => ScanError::BadMessage,
            PathError::Memory => ScanError::Memory,
        }
    }
}

/// What marks refuse does not belong to a scan.
impl From<TreeError> for ScanError {
    ghost use Rattle.syn_scan.specs.Refusals.{of_tree};

    ghost from_gives = { λ refused e. e ≡ of_tree refused };

    fn from(error: TreeError) -> ScanError {
        match error {
            TreeError::Memory => ScanError::Memory,
            _ => ScanError::BadMessage,
        }
    }
}

impl From<AllocError> for ScanError {
    ghost use Rattle.syn_scan.specs.declared.error.ScanError.TheVariants.{Memory};

    ghost from_gives = { λ _ e. e ≡ Memory };

    fn from(_error: AllocError) -> ScanError {
        ScanError::Memory
    }
}

impl<T: Drop> From<AllocFailed<T>> for ScanError {
    ghost use Rattle.syn_scan.specs.declared.error.ScanError.TheVariants.{Memory};

    ghost from_gives = { λ _ e. e ≡ Memory };

    fn from(_error: AllocFailed<T>) -> ScanError {
        ScanError::Memory
    }
}
