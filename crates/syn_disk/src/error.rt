//! Why a disk in a file cannot be opened.
ghost use Rattle.std.specs.Prelude.{◌≡◌, Some};
ghost use Rattle.syn_model.specs.Refusal.{name_of};
ghost use Rattle.syn_refusal.specs.Refusals.{cause_of};
ghost use Rattle.syn_disk.specs.OpenError.{refusal_of, number_of};

use std::alloc::AllocError;
use std::{fmt, io};
use syn_refusal::Refusal;
use thiserror::Error;

/// Why a disk in a file cannot be opened.
#[derive(Debug, Drop, Error)]
pub enum OpenError {
    /// 9: the system does not let the file be opened, locked or read, and says why.
    System(io::Error),
    /// 9: the file is this many bytes long, which a disk is not.
    Length(u64),
    /// 9: the file cannot be synced.
    Sync,
    /// 11: there is no memory for the bytes of the disk.
    Memory,
    /// 12: another process has the file open.
    Busy,
}

impl OpenError {
    /// Which refusal it is.
    pub fn refusal(&self) -> Refusal
        ensures { cause_of result ≡ refusal_of self.now }
    {
        match self {
            OpenError::System(_) | OpenError::Length(_) | OpenError::Sync => Refusal::Device,
            OpenError::Memory => Refusal::Memory,
            OpenError::Busy => Refusal::Busy,
        }
    }

    /// The number of the refusal.
    pub fn number(&self) -> u8
        ensures { result ≡ number_of self.now }
    {
        self.refusal().number()
    }
}

/// The name of the refusal.
impl fmt::Display for OpenError {
    ghost output = { λ error. Some (name_of (refusal_of error)) };

    fn fmt<W: fmt::Write>(&self, f: &mut fmt::Formatter<W>) -> fmt::Result {
        write!(f, "{}", self.refusal())
    }
}

impl From<io::Error> for OpenError {
    fn from(error: io::Error) -> OpenError {
        match error.kind() {
            io::ErrorKind::OutOfMemory => OpenError::Memory,
            _ => OpenError::System(error),
        }
    }
}

impl From<AllocError> for OpenError {
    fn from(_error: AllocError) -> OpenError {
        OpenError::Memory
    }
}
