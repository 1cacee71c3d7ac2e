//! Why a folder is not read or written.
ghost use Rattle.std.specs.Prelude.{◌≡◌, Some};
ghost use Rattle.syn_model.specs.Refusal.{number, name_of};
ghost use Rattle.syn_refusal.specs.Refusals.{cause_of};
ghost use Rattle.syn_folder.specs.Refusals.{refusal_in, refusal_of};

use crate::stranger::Stranger;
use std::alloc::{AllocError, AllocFailed};
use std::{fmt, io};
use syn_path::{Path, PathError};
use syn_refusal::Refusal;
use syn_tree::TreeError;
use thiserror::Error;

/// Why a folder is not read or written.
#[derive(Debug, Drop, Error)]
pub enum FolderError {
    /// 1 to 7, or 11: the tree that would come of it is refused so, or memory is. Nothing was
    /// written.
    Tree(TreeError),
    /// 4: the folder is not empty. Nothing was written.
    NotEmpty,
    /// 7: these stand in the folder, or in the way, and can stand in no replica. Nothing was
    /// written.
    Strange(Vec<Stranger>),
    /// 13: these paths in the folder changed while it was read. Nothing was written.
    Changed(Vec<Path>),
    /// 9, or 11 for lack of memory: a call of the system failed, for this reason. A part may be
    /// written.
    System(io::Error),
}

impl FolderError {
    /// Which refusal it is.
    pub fn refusal(&self) -> Refusal
        ensures { cause_of result ≡ refusal_of self.now }
    {
        match self {
            FolderError::Tree(error) => error.refusal(),
            FolderError::NotEmpty => Refusal::Exists,
            FolderError::Strange(_) => Refusal::Full,
            FolderError::Changed(_) => Refusal::Touched,
            FolderError::System(error) => refusal_in(error.kind()),
        }
    }

    /// The number of the refusal.
    pub fn number(&self) -> u8
        ensures { result ≡ number (refusal_of self.now) }
    {
        self.refusal().number()
    }
}

/// The refusal of a call of the system that failed so.
fn refusal_in(kind: io::ErrorKind) -> Refusal
    ensures { cause_of result ≡ refusal_in kind }
{
    match kind {
        io::ErrorKind::OutOfMemory => Refusal::Memory,
        _ => Refusal::Device,
    }
}

/// The name of the refusal.
impl fmt::Display for FolderError {
    ghost output = { λ error. Some (name_of (refusal_of error)) };

    fn fmt<W: fmt::Write>(&self, f: &mut fmt::Formatter<W>) -> fmt::Result {
        write!(f, "{}", self.refusal())
    }
}

impl From<TreeError> for FolderError {
    ghost use Rattle.syn_folder.specs.declared.error.FolderError.TheVariants.{Tree};

    ghost from_gives = { λ error e. e ≡ Tree error };

    fn from(error: TreeError) -> FolderError {
        FolderError::Tree(error)
    }
}

impl From<AllocError> for FolderError {
    ghost use Rattle.syn_folder.specs.Refusals.{no_memory};

    ghost from_gives = { λ _ e. e ≡ no_memory };

    fn from(_error: AllocError) -> FolderError {
        FolderError::Tree(TreeError::Memory)
    }
}

impl<T: Drop> From<AllocFailed<T>> for FolderError {
    ghost use Rattle.syn_folder.specs.Refusals.{no_memory};

    ghost from_gives = { λ _ e. e ≡ no_memory };

    fn from(_error: AllocFailed<T>) -> FolderError {
        FolderError::Tree(TreeError::Memory)
    }
}

impl From<PathError> for FolderError {
    ghost use Rattle.syn_folder.specs.declared.error.FolderError.TheVariants.{Tree};
    ghost use Rattle.syn_tree.specs.Refusals.{of_path};

    ghost from_gives = { λ error e. e ≡ Tree (of_path error) };

    fn from(error: PathError) -> FolderError {
        FolderError::Tree(TreeError::from(error))
    }
}

impl From<io::Error> for FolderError {
    ghost use Rattle.syn_folder.specs.declared.error.FolderError.TheVariants.{System};

    ghost from_gives = { λ error e. e ≡ System error };

    fn from(error: io::Error) -> FolderError {
        FolderError::System(error)
    }
}
