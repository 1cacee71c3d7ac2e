//! Makes a file an image.

use crate::beside::{draw_identity, forget_beside, read_beside, read_identity};
use std::alloc::Global;
use std::fs::{Files, OpenFile, OpenOptions};
use std::io;
use syn_archive::Archive;
use syn_cli::ImageKind;
use syn_command::{CommandError, format_image};
use syn_disk::{Access, DISK_SIZE, FileDisk, OpenError, OsFile, take_lock};
use syn_files::Beside;

/// What a file is made.
#[derive(Clone, Copy, Debug, PartialEq, Eq)]
pub enum NewImage {
    /// A replica with no events.
    Replica,
    /// An archive without marks, whose last session has this number.
    Archive { last_session: u64 },
}

impl From<ImageKind> for NewImage {
    fn from(kind: ImageKind) -> NewImage {
        match kind {
            ImageKind::Replica => NewImage::Replica,
            ImageKind::Archive => NewImage::Archive { last_session: 0 },
        }
    }
}

/// Makes the file the image, for the pair. Where that is refused, the file is as long as it was, or
/// missing.
///
/// A file that has bytes, and not as many as an image, is somebody's, and refused unless that is
/// forced. No other process can make it an image meanwhile, for the file is locked before it is
/// looked at.
pub fn format<F: Files>(
    alloc: Global,
    files: &F,
    name: &str,
    image: NewImage,
    pair: u64,
    is_forced: bool,
) -> Result<(), CommandError>
where
    F::File: OsFile,
{
    let (file, is_new) = open_or_make(files, name)?;
    take_lock(&file, Access::Write)?;
    let before = file.metadata()?.len();
    let size = DISK_SIZE as u64;
    if before != 0 && before != size && !is_forced {
        return Err(CommandError::from(OpenError::Length(before)));
    }
    // Keeps the lock until what was refused is undone.
    let held = file.try_clone()?;
    let formatted = match prepare_beside(alloc, files, name, image) {
        Ok(()) => format_file(alloc, file, image, pair),
        Err(error) => Err(error),
    };
    if formatted.is_err() {
        let _ = held.set_len(before);
        if is_new {
            let _ = files.remove_file(name);
        }
    }
    formatted?;
    finish_beside(alloc, files, name, image)
}

/// What is done beside the file before it is made the image. A replica gets its identity before it
/// is one, so that it never opens under the old one.
///
/// Refused 9 where the file beside it cannot be written, or is somebody else's.
fn prepare_beside<F: Files>(
    alloc: Global,
    files: &F,
    name: &str,
    image: NewImage,
) -> Result<(), CommandError> {
    match image {
        NewImage::Replica => {
            read_identity(alloc, files, name)?;
            draw_identity(alloc, files, name)?;
        }
        NewImage::Archive { .. } => {
            read_beside(alloc, files, name, Beside::Sides)?;
        }
    }
    Ok(())
}

/// What is done beside the file once it is the image. What an old archive knew of its sides goes
/// then: until then the old archive keeps it.
fn finish_beside<F: Files>(
    alloc: Global,
    files: &F,
    name: &str,
    image: NewImage,
) -> Result<(), CommandError> {
    match image {
        NewImage::Replica => Ok(()),
        NewImage::Archive { .. } => forget_beside(alloc, files, name, Beside::Sides),
    }
}

/// The file, and whether it was missing and is new.
fn open_or_make<F: Files>(files: &F, name: &str) -> Result<(F::File, bool), CommandError> {
    let mut options = OpenOptions::new();
    options.read(true).write(true);
    match options.open(files, name) {
        Err(error) if error.kind() == io::ErrorKind::NotFound => {
            Ok((options.create_new(true).open(files, name)?, true))
        }
        opened => Ok((opened?, false)),
    }
}

/// Gives a file that is locked the length of a disk, and makes it the image.
fn format_file<H: OsFile>(
    alloc: Global,
    file: H,
    image: NewImage,
    pair: u64,
) -> Result<(), CommandError>
    requires held { H.is_held file Access.Write }
{
    file.set_len(DISK_SIZE as u64)?;
    let disk = FileDisk::of_file(alloc, file, Access::Write)?;
    match image {
        NewImage::Replica => {
            format_image(alloc, disk, ImageKind::Replica, pair)?;
        }
        NewImage::Archive { last_session } => {
            let made = Archive::format_after(alloc, disk, pair, last_session);
            made.map_err(|(error, _)| CommandError::from(error))?;
        }
    }
    Ok(())
}
