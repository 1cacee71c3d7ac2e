//! Why a call of the lock is refused.
ghost use Rattle.std.specs.Prelude.{◌≡◌, Some};
ghost use Rattle.syn_model.specs.Refusal.{number, name_of};
ghost use Rattle.syn_refusal.specs.Refusals.{cause_of};
ghost use Rattle.syn_lock.specs.Refusals.{refusal_of};

use std::fmt;
use syn_refusal::Refusal;
use thiserror::Error;

/// Why a call was refused.
#[derive(Clone, Copy, Debug, Drop, Error, PartialEq)]
pub enum LockError {
    /// A growth of memory was refused.
    Memory,
    /// The lock was taken.
    Busy,
    /// The lock has no pass left.
    NoSeat,
}

impl LockError {
    /// Which refusal it is.
    pub fn refusal(self) -> Refusal
        ensures { cause_of result ≡ refusal_of self }
    {
        match self {
            LockError::Memory => Refusal::Memory,
            LockError::Busy => Refusal::Busy,
            LockError::NoSeat => Refusal::NoSeat,
        }
    }

    /// The number of the refusal.
    pub fn number(self) -> u8
        ensures { result ≡ number (refusal_of self) }
    {
        self.refusal().number()
    }
}

/// The name of the refusal.
impl fmt::Display for LockError {
    ghost use Rattle.std.specs.Prelude.{Some};
    ghost use Rattle.syn_model.specs.Refusal.{name_of};
    ghost use Rattle.syn_refusal.specs.Refusals.{cause_of};
    ghost use Rattle.syn_lock.specs.Refusals.{refusal_of};

    ghost output = { λ error. Some (name_of (refusal_of error)) };

    fn fmt<W: fmt::Write>(&self, f: &mut fmt::Formatter<W>) -> fmt::Result {
        write!(f, "{}", self.refusal())
    }
}

/// A refusal, with what comes back.
#[derive(Debug, Drop)]
pub struct Refused<T> {
    pub error: LockError,
    pub value: T,
}
