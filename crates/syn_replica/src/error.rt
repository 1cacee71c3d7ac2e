//! Why a call of a replica is refused.
ghost use Rattle.std.specs.Prelude.{◌≡◌, Some};
ghost use Rattle.syn_model.specs.Refusal.{number, name_of};
ghost use Rattle.syn_refusal.specs.Refusals.{cause_of};
ghost use Rattle.syn_replica.specs.ErrorRefusals.{refusal_of};

use std::alloc::{AllocError, AllocFailed};
use std::fmt;
use syn_history::HistoryError;
use syn_journal::JournalError;
use syn_refusal::Refusal;
use syn_tree::TreeError;
use syn_wire::WireError;
use thiserror::Error;

/// Why a call of a replica is refused.
#[derive(Clone, Copy, Debug, PartialEq, Eq, Error)]
pub enum ReplicaError {
    /// The tree refuses it: 2, 3, 4, 5, 6, 7 or 11.
    Tree(TreeError),
    /// The trail refuses it: 7, 11 or 15.
    History(HistoryError),
    /// The journal refuses it: 7, 8, 9, 10, 11, 18 or 19.
    Journal(JournalError),
    /// 11: memory was refused.
    Memory,
    /// 13: an event touched the path since the given position.
    Touched,
    /// 14: the session is below the last, or the token is not above the last of the last session.
    OldSession,
    /// 19: the disk means nothing that a replica holds, or a reopening gives fewer events than were
    /// remembered.
    Damaged,
    /// 20: the pair is another one.
    WrongPair,
    /// 26: the image is of version 1.
    OldVersion,
}

impl ReplicaError {
    /// Which refusal it is.
    pub fn refusal(&self) -> Refusal
        ensures { cause_of result ≡ refusal_of self.now }
    {
        match self {
            ReplicaError::Tree(error) => error.refusal(),
            ReplicaError::History(error) => error.refusal(),
            ReplicaError::Journal(error) => error.refusal(),
            ReplicaError::Memory => Refusal::Memory,
            ReplicaError::Touched => Refusal::Touched,
            ReplicaError::OldSession => Refusal::OldSession,
            ReplicaError::Damaged => Refusal::Damaged,
            ReplicaError::WrongPair => Refusal::WrongPair,
            ReplicaError::OldVersion => Refusal::OldVersion,
        }
    }

    /// The number of the refusal.
    pub fn number(&self) -> u8
        ensures { result ≡ number (refusal_of self.now) }
    {
        self.refusal().number()
    }
}

/// The name of the refusal.
impl fmt::Display for ReplicaError {
    ghost output = { λ error. Some (name_of (refusal_of error)) };

    fn fmt<W: fmt::Write>(&self, f: &mut fmt::Formatter<W>) -> fmt::Result {
        write!(f, "{}", self.refusal())
    }
}

impl From<JournalError> for ReplicaError {
    ghost use Rattle.syn_replica.specs.declared.error.ReplicaError.TheVariants.{Journal};

    ghost from_gives = { λ refused e. e ≡ Journal refused };

    fn from(error: JournalError) -> ReplicaError {
        ReplicaError::Journal(error)
    }
}

impl From<TreeError> for ReplicaError {
    ghost use Rattle.syn_replica.specs.declared.error.ReplicaError.TheVariants.{Tree};

    ghost from_gives = { λ refused e. e ≡ Tree refused };

    fn from(error: TreeError) -> ReplicaError {
        ReplicaError::Tree(error)
    }
}

impl From<HistoryError> for ReplicaError {
    ghost use Rattle.syn_replica.specs.declared.error.ReplicaError.TheVariants.{History};

    ghost from_gives = { λ refused e. e ≡ History refused };

    fn from(error: HistoryError) -> ReplicaError {
        ReplicaError::History(error)
    }
}

impl From<WireError> for ReplicaError {
    ghost use Rattle.syn_replica.specs.declared.error.ReplicaError.TheVariants.{Memory};

    ghost from_gives = { λ _ e. e ≡ Memory };

    fn from(_error: WireError) -> ReplicaError {
        ReplicaError::Memory
    }
}

impl From<AllocError> for ReplicaError {
    ghost use Rattle.syn_replica.specs.declared.error.ReplicaError.TheVariants.{Memory};

    ghost from_gives = { λ _ e. e ≡ Memory };

    fn from(_error: AllocError) -> ReplicaError {
        ReplicaError::Memory
    }
}

impl<T: Drop> From<AllocFailed<T>> for ReplicaError {
    ghost use Rattle.syn_replica.specs.declared.error.ReplicaError.TheVariants.{Memory};

    ghost from_gives = { λ _ e. e ≡ Memory };

    fn from(_error: AllocFailed<T>) -> ReplicaError {
        ReplicaError::Memory
    }
}
