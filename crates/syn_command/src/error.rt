//! Why a command is refused.
ghost use Rattle.std.specs.Prelude.{◌≡◌, Some};
ghost use Rattle.syn_model.specs.Refusal.{number, name_of};
ghost use Rattle.syn_refusal.specs.Refusals.{cause_of};
ghost use Rattle.syn_command.specs.Errors.{refusal_of};

use std::alloc::{AllocError, AllocFailed};
use std::{fmt, io};
use syn_archive::ArchiveError;
use syn_disk::OpenError;
use syn_folder::FolderError;
use syn_pair::{FolderMismatch, MarksMismatch, Mismatch};
use syn_path::{PathError, Side};
use syn_print::PrintError;
use syn_refusal::Refusal;
use syn_replica::ReplicaError;
use syn_user::UserError;
use thiserror::Error;

/// Why a file beside an image is not to be had.
#[derive(Debug, Drop)]
pub enum BesideError {
    /// The system refuses to read or to write the file of this path.
    System { path: String, error: io::Error },
    /// The file of this path is nothing that `syn` has written.
    Strange { path: String },
}

/// Why a command is refused, by what refused it.
#[derive(Debug, Drop, Error)]
pub enum CommandError {
    /// The text is no path.
    Path(PathError),
    /// The file is no disk, cannot become one, or somebody else has it.
    Open(OpenError),
    /// The replica refuses the call, or the disk has no replica.
    Replica(ReplicaError),
    /// The archive refuses the call, or the disk has no archive.
    Archive(ArchiveError),
    /// A session, a server or a simulated machine is refused this, or nothing is at the path.
    Refused(Refusal),
    /// The server refuses what a user asks, or the connection to it failed.
    User(UserError),
    /// A folder cannot be read or written, or not as it is asked.
    Folder(FolderError),
    /// The sides and the archive do not belong together.
    Apart(Mismatch),
    /// The program that serves this side is of an older version.
    OlderServer(Side),
    /// The marks of a folder are not of the replica.
    Marks(MarksMismatch),
    /// The marks are not of the folder.
    OtherFolder(FolderMismatch),
    /// A file beside an image cannot be read or written, or is somebody else's.
    Beside(BesideError),
    /// Standard input cannot be read, standard output cannot be written, or the file cannot be
    /// made.
    Device(io::Error),
    /// Memory was refused.
    Memory,
}

impl CommandError {
    /// Which refusal it is.
    pub fn refusal(&self) -> Refusal
        ensures { cause_of result ≡ refusal_of self.now }
    {
        match self {
            CommandError::Path(error) => error.refusal(),
            CommandError::Open(error) => error.refusal(),
            CommandError::Replica(error) => error.refusal(),
            CommandError::Archive(error) => error.refusal(),
            CommandError::Refused(refusal) => *refusal,
            CommandError::User(error) => error.refusal(),
            CommandError::Folder(error) => error.refusal(),
            CommandError::Apart(mismatch) => mismatch.refusal(),
            CommandError::OlderServer(_) => Refusal::WrongPair,
            CommandError::Marks(mismatch) => mismatch.refusal(),
            CommandError::OtherFolder(mismatch) => mismatch.refusal(),
            CommandError::Beside(_) => Refusal::Device,
            CommandError::Device(_) => Refusal::Device,
            CommandError::Memory => Refusal::Memory,
        }
    }

    /// The number of the refusal.
    pub fn number(&self) -> u8
        ensures { result ≡ number (refusal_of self.now) }
    {
        self.refusal().number()
    }
}

/// The name of the refusal.
impl fmt::Display for CommandError {
    ghost output = { λ error. Some (name_of (refusal_of error)) };

    fn fmt<W: fmt::Write>(&self, f: &mut fmt::Formatter<W>) -> fmt::Result {
        write!(f, "{}", self.refusal())
    }
}

impl From<Refusal> for CommandError {
    ghost use Rattle.syn_command.specs.declared.error.CommandError.TheVariants.{Refused};

    ghost from_gives = { λ refusal e. e ≡ Refused refusal };

    fn from(refusal: Refusal) -> CommandError {
        CommandError::Refused(refusal)
    }
}

impl From<PathError> for CommandError {
    ghost use Rattle.syn_command.specs.declared.error.CommandError.TheVariants.{Path};

    ghost from_gives = { λ error e. e ≡ Path error };

    fn from(error: PathError) -> CommandError {
        CommandError::Path(error)
    }
}

impl From<OpenError> for CommandError {
    ghost use Rattle.syn_command.specs.declared.error.CommandError.TheVariants.{Open};

    ghost from_gives = { λ error e. e ≡ Open error };

    fn from(error: OpenError) -> CommandError {
        CommandError::Open(error)
    }
}

impl From<ReplicaError> for CommandError {
    ghost use Rattle.syn_command.specs.declared.error.CommandError.TheVariants.{Replica};

    ghost from_gives = { λ error e. e ≡ Replica error };

    fn from(error: ReplicaError) -> CommandError {
        CommandError::Replica(error)
    }
}

impl From<ArchiveError> for CommandError {
    ghost use Rattle.syn_command.specs.declared.error.CommandError.TheVariants.{Archive};

    ghost from_gives = { λ error e. e ≡ Archive error };

    fn from(error: ArchiveError) -> CommandError {
        CommandError::Archive(error)
    }
}

impl From<UserError> for CommandError {
    ghost use Rattle.syn_command.specs.declared.error.CommandError.TheVariants.{User};

    ghost from_gives = { λ error e. e ≡ User error };

    fn from(error: UserError) -> CommandError {
        CommandError::User(error)
    }
}

impl From<FolderError> for CommandError {
    ghost use Rattle.syn_command.specs.declared.error.CommandError.TheVariants.{Folder};

    ghost from_gives = { λ error e. e ≡ Folder error };

    fn from(error: FolderError) -> CommandError {
        CommandError::Folder(error)
    }
}

impl From<BesideError> for CommandError {
    ghost use Rattle.syn_command.specs.declared.error.CommandError.TheVariants.{Beside};

    ghost from_gives = { λ error e. e ≡ Beside error };

    fn from(error: BesideError) -> CommandError {
        CommandError::Beside(error)
    }
}

impl From<io::Error> for CommandError {
    ghost use Rattle.syn_command.specs.Errors.{IsOfStream};

    ghost from_gives = { λ _ e. IsOfStream e };

    fn from(error: io::Error) -> CommandError {
        match error.kind() {
            io::ErrorKind::OutOfMemory => CommandError::Memory,
            _ => CommandError::Device(error),
        }
    }
}

impl From<PrintError> for CommandError {
    ghost use Rattle.syn_command.specs.Errors.{IsOfStream};

    ghost from_gives = { λ _ e. IsOfStream e };

    fn from(error: PrintError) -> CommandError {
        match error {
            PrintError::Device(error) => CommandError::Device(error),
            PrintError::Memory => CommandError::Memory,
        }
    }
}

impl From<AllocError> for CommandError {
    ghost use Rattle.syn_command.specs.declared.error.CommandError.TheVariants.{Memory};

    ghost from_gives = { λ _ e. e ≡ Memory };

    fn from(_error: AllocError) -> CommandError {
        CommandError::Memory
    }
}

impl<T: Drop> From<AllocFailed<T>> for CommandError {
    fn from(_error: AllocFailed<T>) -> CommandError {
        CommandError::Memory
    }
}
