//! Why a call of a shared replica is refused.
ghost use Rattle.std.specs.Prelude.{◌≡◌, Some};
ghost use Rattle.syn_model.specs.Refusal.{number, name_of};
ghost use Rattle.syn_refusal.specs.Refusals.{cause_of};
ghost use Rattle.syn_shared.specs.Refusals.{refusal_of, answer_in};

use std::fmt;
use syn_refusal::Refusal;
use syn_replica::ReplicaError;
use thiserror::Error;

/// Why a call of a shared replica is refused.
#[derive(Clone, Copy, Debug, PartialEq, Eq, Error)]
pub enum SharedError {
    /// 12: the lock was taken, and the replica was not asked.
    Busy,
    /// The replica refuses it.
    Replica(ReplicaError),
}

impl SharedError {
    /// Which refusal it is.
    pub fn refusal(&self) -> Refusal
        ensures { cause_of result ≡ refusal_of self.now }
    {
        match self {
            SharedError::Busy => Refusal::Busy,
            SharedError::Replica(error) => error.refusal(),
        }
    }

    /// The number of the refusal.
    pub fn number(&self) -> u8
        ensures { result ≡ number (refusal_of self.now) }
    {
        self.refusal().number()
    }
}

/// The name of the refusal.
impl fmt::Display for SharedError {
    ghost output = { λ error. Some (name_of (refusal_of error)) };

    fn fmt<W: fmt::Write>(&self, f: &mut fmt::Formatter<W>) -> fmt::Result {
        write!(f, "{}", self.refusal())
    }
}

/// What the replica answered, as the shared replica's answer.
pub(crate) fn answered<T>(answer: Result<T, ReplicaError>) -> Result<T, SharedError>
    ensures { answer_in result ≡ Some answer }
{
    match answer {
        Ok(value) => Ok(value),
        Err(error) => Err(SharedError::Replica(error)),
    }
}
