//! Why a call of a trail is refused.
ghost use Rattle.std.specs.Prelude.{◌≡◌, Some};
ghost use Rattle.syn_model.specs.Refusal.{number, name_of};
ghost use Rattle.syn_refusal.specs.Refusals.{cause_of};
ghost use Rattle.syn_history.specs.Refusals.{refusal_of};

use std::alloc::AllocError;
use std::fmt;
use syn_refusal::Refusal;
use thiserror::Error;

/// Why a call of a trail is refused.
#[derive(Clone, Copy, Debug, PartialEq, Eq, Error)]
pub enum HistoryError {
    /// 7: the history has as many events as a position can count.
    Full,
    /// 11: memory was refused.
    Memory,
    /// 15: the position is below the floor or above the present one.
    BelowFloor,
}

impl HistoryError {
    /// Which refusal it is.
    pub fn refusal(&self) -> Refusal
        ensures { cause_of result ≡ refusal_of self.now }
    {
        match self {
            HistoryError::Full => Refusal::Full,
            HistoryError::Memory => Refusal::Memory,
            HistoryError::BelowFloor => Refusal::BelowFloor,
        }
    }

    /// The number of the refusal.
    pub fn number(&self) -> u8
        ensures { result ≡ number (refusal_of self.now) }
    {
        self.refusal().number()
    }
}

/// The name of the refusal.
impl fmt::Display for HistoryError {
    ghost output = { λ error. Some (name_of (refusal_of error)) };

    fn fmt<W: fmt::Write>(&self, f: &mut fmt::Formatter<W>) -> fmt::Result {
        write!(f, "{}", self.refusal())
    }
}

impl From<AllocError> for HistoryError {
    ghost use Rattle.syn_history.specs.declared.error.HistoryError.TheVariants.{Memory};

    ghost from_gives = { λ _ e. e ≡ Memory };

    fn from(_error: AllocError) -> HistoryError {
        HistoryError::Memory
    }
}
