//! Why something is not printed.
ghost use Rattle.std.specs.Prelude.{◌≡◌};
ghost use Rattle.syn_refusal.specs.Refusals.{cause_of};
ghost use Rattle.syn_print.specs.Errors.{refusal_of};

use std::alloc::AllocError;
use std::io;
use syn_refusal::Refusal;
use thiserror::Error;

/// Why something is not printed.
#[derive(Debug, Drop, Error)]
pub enum PrintError {
    /// 9: the output cannot be written.
    #[error("Device")]
    Device(io::Error),
    /// 11: memory was refused.
    #[error("Memory")]
    Memory,
}

impl PrintError {
    /// Which refusal it is.
    pub fn refusal(&self) -> Refusal
        ensures { cause_of result ≡ refusal_of self.now }
    {
        match self {
            PrintError::Device(_) => Refusal::Device,
            PrintError::Memory => Refusal::Memory,
        }
    }
}

impl From<io::Error> for PrintError {
    fn from(error: io::Error) -> PrintError {
        match error.kind() {
            io::ErrorKind::OutOfMemory => PrintError::Memory,
            _ => PrintError::Device(error),
        }
    }
}

impl From<AllocError> for PrintError {
    ghost use Rattle.std.specs.Prelude.{◌≡◌};
    ghost use Rattle.syn_print.specs.declared.error.PrintError.TheVariants.{Memory};

    ghost from_gives = { λ _ e. e ≡ Memory };

    fn from(_error: AllocError) -> PrintError {
        PrintError::Memory
    }
}
