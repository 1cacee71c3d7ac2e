//! The small files that lie beside an image: what a replica's disk is known by, what an archive
//! knows of its sides, and what a folder's marks know of their replica.

use std::alloc::Global;
use std::fs::{Files, OpenFile, OpenOptions};
use std::io::{self, ErrorKind, Read, Write};
use syn_command::{BesideError, CommandError};
use syn_files::Beside;
use syn_history::{IDENTITY_LENGTH, Identity};

/// What the identity of a replica's disk is called, after the name of the disk.
const IDENTITY: &str = ".id";

/// The most bytes of what is kept beside an archive. It has up to two paths, and each of them is
/// shorter than 1,100 bytes.
const MOST_KEPT: usize = 4_096;

/// Random bytes of the system.
const RANDOM: &str = "/dev/urandom";

/// What the replica's disk of that name is known by; none where nothing lies beside it.
///
/// Refused 9 where it cannot be read, or where the file of its name is of another length.
pub fn read_identity<F: Files>(
    alloc: Global,
    files: &F,
    name: &str,
) -> Result<Option<Identity>, CommandError> {
    let path = path_beside(alloc, files, name, IDENTITY)?;
    let Some(bytes) = read_whole(alloc, files, path.as_str(), IDENTITY_LENGTH)? else {
        return Ok(None);
    };
    match identity_in(&bytes) {
        Some(identity) => Ok(Some(identity)),
        None => Err(CommandError::from(BesideError::Strange { path })),
    }
}

/// The identity that these bytes are, where they are as many.
fn identity_in(bytes: &[u8]) -> Option<Identity> {
    let mut identity = [0; IDENTITY_LENGTH];
    if bytes.len() != IDENTITY_LENGTH {
        return None;
    }
    identity.copy_from_slice(bytes);
    Some(Identity(identity))
}

/// Draws what the replica's disk of that name is known by from now on, and keeps it.
///
/// Refused 9 where it cannot be drawn or written.
pub fn draw_identity<F: Files>(
    alloc: Global,
    files: &F,
    name: &str,
) -> Result<Identity, CommandError> {
    let mut drawn = [0; IDENTITY_LENGTH];
    let path = path_beside(alloc, files, name, IDENTITY)?;
    let mut options = OpenOptions::new();
    let mut random = options.read(true).open(files, RANDOM)?;
    random.read_exact(&mut drawn)?;
    write_whole(alloc, files, path, &drawn)?;
    Ok(Identity(drawn))
}

/// What its file is called, after the name of the archive.
fn ending_of(what: Beside) -> &'static str {
    match what {
        Beside::Sides => ".known",
        Beside::Replica => ".replica",
    }
}

/// The first bytes of its file.
fn front_of(what: Beside) -> &'static [u8] {
    match what {
        Beside::Sides => b"SYNK",
        Beside::Replica => b"SYNM",
    }
}

/// What is kept beside the archive of that name; none where nothing is.
///
/// Refused 9 where it cannot be read, or where the file of its name is somebody else's.
pub fn read_beside<F: Files>(
    alloc: Global,
    files: &F,
    name: &str,
    what: Beside,
) -> Result<Option<Vec<u8>>, CommandError> {
    let path = path_beside(alloc, files, name, ending_of(what))?;
    let Some(bytes) = read_whole(alloc, files, path.as_str(), MOST_KEPT)? else {
        return Ok(None);
    };
    if !bytes.starts_with(front_of(what)) {
        return Err(CommandError::from(BesideError::Strange { path }));
    }
    Ok(Some(bytes))
}

/// Keeps the bytes beside the archive of that name. A stop leaves them whole, or what was kept
/// before.
///
/// Refused 9 where they cannot be written.
pub fn write_beside<F: Files>(
    alloc: Global,
    files: &F,
    name: &str,
    what: Beside,
    bytes: &[u8],
) -> Result<(), CommandError> {
    let path = path_beside(alloc, files, name, ending_of(what))?;
    write_whole(alloc, files, path, bytes)
}

/// Takes away what is kept beside the archive of that name.
///
/// Refused 9 where it cannot be removed, or where the file of its name is somebody else's.
pub fn forget_beside<F: Files>(
    alloc: Global,
    files: &F,
    name: &str,
    what: Beside,
) -> Result<(), CommandError> {
    if read_beside(alloc, files, name, what)?.is_none() {
        return Ok(());
    }
    let path = path_beside(alloc, files, name, ending_of(what))?;
    match files.remove_file(path.as_str()) {
        Ok(()) => Ok(()),
        Err(error) => Err(CommandError::from(BesideError::System { path, error })),
    }
}

/// The path of the file with this ending beside the file that the name leads to, or would stand.
fn path_beside<F: Files>(
    alloc: Global,
    files: &F,
    name: &str,
    ending: &str,
) -> Result<String, CommandError> {
    match files.canonicalize(alloc, name) {
        Ok(image) => Ok(format!(in alloc; "{}{ending}", image.as_str())?),
        Err(error) if matches!(error.kind(), ErrorKind::Unsupported | ErrorKind::NotFound) => {
            Ok(format!(in alloc; "{name}{ending}")?)
        }
        Err(error) => Err(CommandError::from(error)),
    }
}

/// The bytes of the file of the path; none where there is none. Of one that is longer than `most`
/// only a byte more than that is read.
fn read_whole<F: Files>(
    alloc: Global,
    files: &F,
    path: &str,
    most: usize,
) -> Result<Option<Vec<u8>>, CommandError> {
    let mut options = OpenOptions::new();
    let mut file = match options.read(true).open(files, path) {
        Ok(file) => file,
        Err(error) if error.kind() == ErrorKind::NotFound => return Ok(None),
        Err(error) => return Err(system_error(alloc, path, error)),
    };
    let mut bytes = Vec::new(alloc);
    match file
        .take((most as u64).saturating_add(1))
        .read_to_end(&mut bytes)
    {
        Ok(_) => Ok(Some(bytes)),
        Err(error) => Err(system_error(alloc, path, error)),
    }
}

/// Gives the file of the path these bytes: a stop leaves it whole, or as it was.
fn write_whole<F: Files>(
    alloc: Global,
    files: &F,
    path: String,
    bytes: &[u8],
) -> Result<(), CommandError> {
    let part = format!(in alloc; "{path}.new")?;
    match replace_with(files, path.as_str(), part.as_str(), bytes) {
        Ok(()) => Ok(()),
        Err(error) => {
            let _ = files.remove_file(part.as_str());
            Err(CommandError::from(BesideError::System { path, error }))
        }
    }
}

/// Writes the bytes into the part, durably, and gives it the name of the path.
fn replace_with<F: Files>(files: &F, path: &str, part: &str, bytes: &[u8]) -> io::Result<()> {
    write_new(files, part, bytes)?;
    files.rename(part, path)?;
    sync_above(files, path)
}

/// Writes the bytes into a file of the path, durably. What was there of an earlier try goes.
fn write_new<F: Files>(files: &F, path: &str, bytes: &[u8]) -> io::Result<()> {
    let mut options = OpenOptions::new();
    options.write(true).create(true).truncate(true);
    let mut file = options.open(files, path)?;
    file.write_all(bytes)?;
    file.sync_all()
}

/// Makes the names durable of the directory that the path is in.
fn sync_above<F: Files>(files: &F, path: &str) -> io::Result<()> {
    let above = match path.rsplit_once('/') {
        Some(("", _)) => "/",
        Some((above, _)) => above,
        None => ".",
    };
    let mut options = OpenOptions::new();
    options.read(true).open(files, above)?.sync_all()
}

/// The refusal of the system to read or write the file of the path.
fn system_error(alloc: Global, path: &str, error: io::Error) -> CommandError {
    match String::from_str(alloc, path) {
        Ok(path) => CommandError::from(BesideError::System { path, error }),
        Err(_) => CommandError::Memory,
    }
}
