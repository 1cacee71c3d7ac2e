//! Why a call of a tree is refused.
ghost use Rattle.std.specs.Prelude.{◌≡◌, Some};
ghost use Rattle.syn_model.specs.Refusal.{number, name_of};
ghost use Rattle.syn_refusal.specs.Refusals.{cause_of};
ghost use Rattle.syn_tree.specs.Refusals.{refusal_of};

use std::alloc::{AllocError, AllocFailed};
use std::fmt;
use syn_path::PathError;
use syn_refusal::Refusal;
use thiserror::Error;

/// Why a call of a tree is refused.
#[derive(Clone, Copy, Debug, PartialEq, Eq, Error)]
pub enum TreeError {
    /// 2: the parent is not a directory.
    NoParent,
    /// 3: a file was to be put onto a directory, or a directory's mode was to change.
    IsDirectory,
    /// 4: a directory was to be made where something is.
    Exists,
    /// 5: nothing is there, or no directory where one is listed.
    Absent,
    /// 6: the root cannot be edited or replaced.
    Root,
    /// 7: the result would pass a limit.
    Full,
    /// 11: memory was refused.
    Memory,
}

impl TreeError {
    /// Which refusal it is.
    pub fn refusal(&self) -> Refusal
        ensures { cause_of result ≡ refusal_of self.now }
    {
        match self {
            TreeError::NoParent => Refusal::NoParent,
            TreeError::IsDirectory => Refusal::IsDirectory,
            TreeError::Exists => Refusal::Exists,
            TreeError::Absent => Refusal::Absent,
            TreeError::Root => Refusal::Root,
            TreeError::Full => Refusal::Full,
            TreeError::Memory => Refusal::Memory,
        }
    }

    /// The number of the refusal.
    pub fn number(&self) -> u8
        ensures { result ≡ number (refusal_of self.now) }
    {
        self.refusal().number()
    }
}

/// The name of the refusal.
impl fmt::Display for TreeError {
    ghost output = { λ error. Some (name_of (refusal_of error)) };

    fn fmt<W: fmt::Write>(&self, f: &mut fmt::Formatter<W>) -> fmt::Result {
        write!(f, "{}", self.refusal())
    }
}

/// A path beyond the limits of paths is one more limit that would be passed.
impl From<PathError> for TreeError {
    ghost use Rattle.syn_tree.specs.Refusals.{of_path};

    ghost from_gives = { λ refused e. e ≡ of_path refused };

    fn from(error: PathError) -> TreeError {
        match error {
            PathError::BadPath => TreeError::Full,
            PathError::Memory => TreeError::Memory,
        }
    }
}

impl From<AllocError> for TreeError {
    ghost use Rattle.syn_tree.specs.declared.error.TreeError.TheVariants.{Memory};

    ghost from_gives = { λ _ e. e ≡ Memory };

    fn from(_error: AllocError) -> TreeError {
        TreeError::Memory
    }
}

impl<T: Drop> From<AllocFailed<T>> for TreeError {
    ghost use Rattle.syn_tree.specs.declared.error.TreeError.TheVariants.{Memory};

    ghost from_gives = { λ _ e. e ≡ Memory };

    fn from(_error: AllocFailed<T>) -> TreeError {
        TreeError::Memory
    }
}
