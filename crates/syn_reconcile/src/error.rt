//! Why a folder and a replica are not reconciled.
ghost use Rattle.std.specs.Prelude.{◌≡◌, Some};
ghost use Rattle.syn_model.specs.Refusal.{number, name_of};
ghost use Rattle.syn_refusal.specs.Refusals.{cause_of};
ghost use Rattle.syn_reconcile.specs.Refusals.{refusal_of};

use std::alloc::{AllocError, AllocFailed};
use std::fmt;
use syn_archive::ArchiveError;
use syn_path::Side;
use syn_refusal::Refusal;
use syn_replica::ReplicaError;
use thiserror::Error;

/// Why a folder and a replica are not reconciled, or not any further.
#[derive(Clone, Copy, Debug, PartialEq, Eq, Error)]
pub enum ReconcileError {
    /// 5: this side has nothing, and the marks have something. Nothing was changed.
    Empty(Side),
    /// 7: the folder itself can stand in no replica, since it has more than one may. Nothing was
    /// changed.
    TooMany,
    /// 20: the marks are of another pair than the replica. Nothing was changed.
    OtherPair,
    /// There is no plan: 11, since memory was refused. Nothing was changed.
    Unplanned(Refusal),
    /// What has to be done before the first item is refused. Nothing was changed.
    Unready(Refusal),
    /// The replica refuses edits. What was carried out before stands.
    Replica(ReplicaError),
    /// The archive refuses a record. What was carried out before stands, and so does what was to be
    /// recorded.
    Archive(ArchiveError),
    /// 11: memory was refused. What was carried out before stands.
    Memory,
}

impl ReconcileError {
    /// Which refusal it is.
    pub fn refusal(&self) -> Refusal
        ensures { cause_of result ≡ refusal_of self.now }
    {
        match self {
            ReconcileError::Empty(_) => Refusal::Absent,
            ReconcileError::TooMany => Refusal::Full,
            ReconcileError::OtherPair => Refusal::WrongPair,
            ReconcileError::Unplanned(refusal) | ReconcileError::Unready(refusal) => *refusal,
            ReconcileError::Replica(error) => error.refusal(),
            ReconcileError::Archive(error) => error.refusal(),
            ReconcileError::Memory => Refusal::Memory,
        }
    }

    /// The number of the refusal.
    pub fn number(&self) -> u8
        ensures { result ≡ number (refusal_of self.now) }
    {
        self.refusal().number()
    }
}

/// The name of the refusal.
impl fmt::Display for ReconcileError {
    ghost output = { λ error. Some (name_of (refusal_of error)) };

    fn fmt<W: fmt::Write>(&self, f: &mut fmt::Formatter<W>) -> fmt::Result {
        write!(f, "{}", self.refusal())
    }
}

impl From<ReplicaError> for ReconcileError {
    ghost use Rattle.syn_reconcile.specs.declared.error.ReconcileError.TheVariants.{Replica};

    ghost from_gives = { λ error e. e ≡ Replica error };

    fn from(error: ReplicaError) -> ReconcileError {
        ReconcileError::Replica(error)
    }
}

impl From<ArchiveError> for ReconcileError {
    ghost use Rattle.syn_reconcile.specs.declared.error.ReconcileError.TheVariants.{Archive};

    ghost from_gives = { λ error e. e ≡ Archive error };

    fn from(error: ArchiveError) -> ReconcileError {
        ReconcileError::Archive(error)
    }
}

impl From<AllocError> for ReconcileError {
    ghost use Rattle.syn_reconcile.specs.declared.error.ReconcileError.TheVariants.{Memory};

    ghost from_gives = { λ _ e. e ≡ Memory };

    fn from(_error: AllocError) -> ReconcileError {
        ReconcileError::Memory
    }
}

impl<T: Drop> From<AllocFailed<T>> for ReconcileError {
    ghost use Rattle.syn_reconcile.specs.declared.error.ReconcileError.TheVariants.{Memory};

    ghost from_gives = { λ _ e. e ≡ Memory };

    fn from(_error: AllocFailed<T>) -> ReconcileError {
        ReconcileError::Memory
    }
}
