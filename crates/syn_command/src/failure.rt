//! Why a command was not done.
ghost use Rattle.std.specs.Prelude.{◌≡◌};
ghost use Rattle.syn_command.specs.declared.failure.Failure.TheVariants.{Refused};

use crate::error::CommandError;
use std::io;
use syn_print::PrintError;

/// Why a command was not done.
#[derive(Debug, Drop)]
pub enum Failure {
    /// It is refused, with a number.
    Refused(CommandError),
    /// It kept two servers the same, and has stopped, since they and the archive do not belong
    /// together.
    Stopped(CommandError),
    /// The line with this number of a script, counted from 1, says no step. Nothing was done.
    Line(u64),
}

impl From<CommandError> for Failure {
    ghost from_gives = { λ error e. e ≡ Refused error };

    fn from(error: CommandError) -> Failure {
        Failure::Refused(error)
    }
}

impl From<io::Error> for Failure {
    fn from(error: io::Error) -> Failure {
        Failure::Refused(CommandError::from(error))
    }
}

impl From<PrintError> for Failure {
    fn from(error: PrintError) -> Failure {
        Failure::Refused(CommandError::from(error))
    }
}
