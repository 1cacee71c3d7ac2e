//! Why a world is not simulated.
use crate::ScriptError;
use std::alloc::AllocError;
use syn_refusal::Refusal;
use thiserror::Error;

/// Why a world is not simulated.
#[derive(Clone, Copy, Debug, PartialEq, Eq, Error)]
pub enum SimulateError {
    /// The line of the script with this number, counted from 1, says no step.
    #[error("line {0} of the script says no step")]
    Script(u64),
    /// A call of the world was refused with this.
    #[error("{0}")]
    Refused(Refusal),
    /// 11: memory was refused.
    #[error("Memory")]
    Memory,
}

impl From<AllocError> for SimulateError {
    ghost use Rattle.std.specs.Prelude.{◌≡◌};
    ghost use Rattle.syn_simulate.specs.declared.error.SimulateError.TheVariants.{Memory};

    ghost from_gives = { λ _ e. e ≡ Memory };

    fn from(_error: AllocError) -> SimulateError {
        SimulateError::Memory
    }
}

impl From<ScriptError> for SimulateError {
    ghost use Rattle.std.specs.Prelude.{◌≡◌};
    ghost use Rattle.syn_simulate.specs.Faults.{error_of};

    ghost from_gives = { λ error e. e ≡ error_of error };

    fn from(error: ScriptError) -> SimulateError {
        match error {
            ScriptError::Line(number) => SimulateError::Script(number),
            ScriptError::Memory => SimulateError::Memory,
        }
    }
}
