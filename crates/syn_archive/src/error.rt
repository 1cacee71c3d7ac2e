//! Why a call of an archive is refused.
ghost use Rattle.std.specs.Prelude.{◌≡◌, Some};
ghost use Rattle.syn_model.specs.Refusal.{number, name_of};
ghost use Rattle.syn_refusal.specs.Refusals.{cause_of};
ghost use Rattle.syn_archive.specs.Refusals.{refusal_of, of_journal};

use std::alloc::{AllocError, AllocFailed};
use std::fmt;
use syn_journal::JournalError;
use syn_refusal::Refusal;
use syn_tree::TreeError;
use syn_wire::WireError;
use thiserror::Error;

/// Why a call of an archive is refused.
#[derive(Clone, Copy, Debug, PartialEq, Eq, Error)]
pub enum ArchiveError {
    /// 2: the parent is not a directory.
    NoParent,
    /// 6: the root cannot be recorded.
    Root,
    /// 7: the result would pass a limit.
    Full,
    /// 8: the record does not fit in the current half of the journal.
    JournalFull,
    /// 9: a device call failed.
    Device,
    /// 10: a device call failed earlier, and the archive was not opened again since.
    Halted,
    /// 11: memory was refused.
    Memory,
    /// 18: neither half of the disk is open.
    NoImage,
    /// 19: the disk means nothing that an archive holds.
    Damaged,
    /// 20: the disk is of another pair.
    WrongPair,
    /// 26: the image of the disk is of the first version.
    OldVersion,
}

impl ArchiveError {
    /// Which refusal it is.
    pub fn refusal(&self) -> Refusal
        ensures { cause_of result ≡ refusal_of self.now }
    {
        match self {
            ArchiveError::NoParent => Refusal::NoParent,
            ArchiveError::Root => Refusal::Root,
            ArchiveError::Full => Refusal::Full,
            ArchiveError::JournalFull => Refusal::JournalFull,
            ArchiveError::Device => Refusal::Device,
            ArchiveError::Halted => Refusal::Halted,
            ArchiveError::Memory => Refusal::Memory,
            ArchiveError::NoImage => Refusal::NoImage,
            ArchiveError::Damaged => Refusal::Damaged,
            ArchiveError::WrongPair => Refusal::WrongPair,
            ArchiveError::OldVersion => Refusal::OldVersion,
        }
    }

    /// The number of the refusal.
    pub fn number(&self) -> u8
        ensures { result ≡ number (refusal_of self.now) }
    {
        self.refusal().number()
    }
}

/// The name of the refusal.
impl fmt::Display for ArchiveError {
    ghost output = { λ error. Some (name_of (refusal_of error)) };

    fn fmt<W: fmt::Write>(&self, f: &mut fmt::Formatter<W>) -> fmt::Result {
        write!(f, "{}", self.refusal())
    }
}

impl From<JournalError> for ArchiveError {
    ghost use Rattle.std.specs.Prelude.{◌≡◌};
    ghost use Rattle.syn_archive.specs.Refusals.{of_journal};

    ghost from_gives = { λ refused e. e ≡ of_journal refused };

    fn from(error: JournalError) -> ArchiveError {
        match error {
            JournalError::Full => ArchiveError::Full,
            JournalError::JournalFull => ArchiveError::JournalFull,
            JournalError::Device => ArchiveError::Device,
            JournalError::Halted => ArchiveError::Halted,
            JournalError::Memory => ArchiveError::Memory,
            JournalError::NoImage => ArchiveError::NoImage,
            JournalError::Damaged => ArchiveError::Damaged,
        }
    }
}

impl From<TreeError> for ArchiveError {
    ghost use Rattle.std.specs.Prelude.{◌≡◌};
    ghost use Rattle.syn_archive.specs.Refusals.{of_tree};

    ghost from_gives = { λ refused e. e ≡ of_tree refused };

    fn from(error: TreeError) -> ArchiveError {
        match error {
            TreeError::NoParent => ArchiveError::NoParent,
            TreeError::Root => ArchiveError::Root,
            TreeError::Memory => ArchiveError::Memory,
            // marks are refused for no other cause
            TreeError::Full | TreeError::IsDirectory | TreeError::Exists | TreeError::Absent =>
                ArchiveError::Full,
        }
    }
}

impl From<WireError> for ArchiveError {
    ghost use Rattle.std.specs.Prelude.{◌≡◌};
    ghost use Rattle.syn_archive.specs.declared.error.ArchiveError.TheVariants.{Memory};

    ghost from_gives = { λ _ e. e ≡ Memory };

    fn from(_error: WireError) -> ArchiveError {
        ArchiveError::Memory
    }
}

impl From<AllocError> for ArchiveError {
    ghost use Rattle.std.specs.Prelude.{◌≡◌};
    ghost use Rattle.syn_archive.specs.declared.error.ArchiveError.TheVariants.{Memory};

    ghost from_gives = { λ _ e. e ≡ Memory };

    fn from(_error: AllocError) -> ArchiveError {
        ArchiveError::Memory
    }
}

impl<T: Drop> From<AllocFailed<T>> for ArchiveError {
    ghost use Rattle.std.specs.Prelude.{◌≡◌};
    ghost use Rattle.syn_archive.specs.declared.error.ArchiveError.TheVariants.{Memory};

    ghost from_gives = { λ _ e. e ≡ Memory };

    fn from(_error: AllocFailed<T>) -> ArchiveError {
        ArchiveError::Memory
    }
}
