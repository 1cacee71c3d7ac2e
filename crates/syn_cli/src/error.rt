//! Why the words are no command.

use crate::value::ValueName;
use thiserror::Error;

/// Why the words are no command.
#[derive(Debug, Drop, Error)]
pub enum WordsError {
    /// `clap` refuses the words, or they ask for the help or the version.
    #[error("{0}")]
    Usage(clap::Error),
    /// The value of this name is not what it has to be.
    #[error("error: invalid value for '<{}>': it has to be {}\n\n\
        For more information, try '--help'.\n", .0.as_str(), .0.wanted())]
    Value(ValueName),
    /// Memory was refused.
    #[error("Memory")]
    Memory,
}

impl From<std::alloc::AllocError> for WordsError {
    ghost use Rattle.std.specs.Prelude.{◌≡◌};
    ghost use Rattle.syn_cli.specs.declared.error.WordsError.TheVariants.{Memory};

    ghost from_gives = { λ _ e. e ≡ Memory };

    fn from(_error: std::alloc::AllocError) -> WordsError {
        WordsError::Memory
    }
}
