//! Looks at what stands in a folder of the system.
ghost use Rattle.std.specs.IoError.{error_kind};
ghost use Rattle.std.specs.Prelude.{◌≡◌, ◌≤◌, ◌↔◌, count_by, false, string_bytes, IfErr, IfOk};
ghost use Rattle.std.specs.Prelude.{IsTrue, Some, None};
ghost use Rattle.syn_folder.specs.Looks.{IsListedAs, IsOfDirectory, IsReadAs, IsShownAs};
ghost use Rattle.syn_folder.specs.Looks.{IsWhyStrange};
ghost use Rattle.syn_folder.specs.Looks.{is_listed, pieces, system_path_of, shown_of};

use crate::error::FolderError;
use crate::stranger::Strangeness;
use crate::system::listing::{count_listed, is_listed};
use crate::system::looks::{Look, Shown};
use crate::system::streams::{all_names, first_bytes};
use std::alloc::{AllocError, Global};
use std::fs::{Files, Metadata, OpenFile, OpenOptions};
use std::io;
use syn_path::{Name, Path, PathError};
use syn_tree::{LONGEST_FILE, MOST_CHILDREN};

/// Looks at the folder itself, which may be a symbolic link to one. Refused where the system
/// refuses it.
pub(super) fn look_at_folder<F: Files>(
    alloc: Global,
    files: &F,
    root: &str,
) -> Result<Shown, FolderError>
    ensures { IfOk result IsOfDirectory }
{
    let there = files.metadata(root)?;
    // After the slash the system follows a symbolic link, which only the folder itself may be.
    let mut system_path = String::from_str(alloc, root)?;
    system_path.push('/')?;
    let listing = read_names(alloc, files, system_path.as_str())?;
    list(alloc, files, root, &there, listing)
}

/// Looks at what stands at the path. A directory that lies on another file system than the folder,
/// where that is told, is not looked into. Where there are too many files already, the bytes of one
/// are not read.
///
/// Refused 9 where the system refuses it otherwise than for what is gone or may not be read, and 11
/// where memory is refused.
pub(super) fn look_at<F: Files>(
    alloc: Global,
    files: &F,
    root: &str,
    folder: Option<Look>,
    path: &Path,
    are_enough: bool,
) -> Result<Shown, FolderError> {
    let system_path = system_path_of(alloc, root, path.names())?;
    match files.symlink_metadata(system_path.as_str()) {
        Ok(there) if there.is_dir() && lies_elsewhere(Look::of(&there), folder) => {
            Ok(Shown::Strange(Strangeness::Elsewhere))
        }
        Ok(there) => show(alloc, files, system_path.as_str(), &there, are_enough),
        Err(error) => unseen(error),
    }
}

/// What looks so lies on another file system than the folder, where that is told.
fn lies_elsewhere(look: Look, folder: Option<Look>) -> bool {
    match folder {
        Some(folder) => !look.lies_with(&folder),
        None => false,
    }
}

/// Looks closer at what stands at the system's path, and looked so.
fn show<F: Files>(
    alloc: Global,
    files: &F,
    system_path: &str,
    there: &Metadata,
    are_enough: bool,
) -> Result<Shown, FolderError>
    ensures { IfOk result (IsShownAs there.now) }
{
    if let Some(why) = strangeness_of(there) {
        return Ok(Shown::Strange(why));
    }
    if there.is_dir() {
        match read_names(alloc, files, system_path) {
            Ok(listing) => list(alloc, files, system_path, there, listing),
            Err(error) => unseen(error),
        }
    } else if are_enough {
        Ok(Shown::Unread)
    } else {
        read(alloc, files, system_path, there)
    }
}

/// Reads the file at the system's path, which looked so.
fn read<F: Files>(
    alloc: Global,
    files: &F,
    system_path: &str,
    there: &Metadata,
) -> Result<Shown, FolderError>
    ensures { IfOk result (IsReadAs there.now) }
{
    let mut options = OpenOptions::new();
    let file = match options.read(true).open(files, system_path) {
        Ok(file) => file,
        Err(error) => return unseen(error),
    };
    let look = Look::of(there);
    if Look::of(&file.metadata()?) != look {
        return Ok(Shown::Changed);
    }
    Ok(Shown::File(look, first_bytes(alloc, file)?))
}

/// The directory at the system's path, which looked so, with these names.
fn list<F: Files>(
    alloc: Global,
    files: &F,
    system_path: &str,
    there: &Metadata,
    listing: Vec<u8>,
) -> Result<Shown, FolderError>
    ensures { IfOk result (IsListedAs there.now listing.items) }
{
    if is_crowded(alloc, files, system_path, &listing)? {
        Ok(Shown::Crowded(listing))
    } else {
        Ok(Shown::Directory(Look::of(there), listing))
    }
}

/// The directory at the system's path has more files and directories that a replica can have than
/// one of a replica may have. Where there are few names they are not looked at.
fn is_crowded<F: Files>(
    alloc: Global,
    files: &F,
    system_path: &str,
    listing: &[u8],
) -> Result<bool, FolderError>
    ensures { IfOk result (λ crowded. count_by is_listed (pieces listing.now) ≤ MOST_CHILDREN
        → crowded ≡ false) }
{
    if count_listed(listing) <= MOST_CHILDREN {
        return Ok(false);
    }
    let mut count: usize = 0;
    for name in listing.split(|byte| *byte == 0) {
        if is_listed(name) && is_known(alloc, files, system_path, name)? {
            count = count.saturating_add(1);
        }
    }
    Ok(count > MOST_CHILDREN)
}

/// What has the name in the directory at the system's path is a file or a directory that a replica
/// can have.
fn is_known<F: Files>(
    alloc: Global,
    files: &F,
    system_path: &str,
    name: &[u8],
) -> Result<bool, FolderError> {
    let name = match Name::from_bytes(alloc, name) {
        Ok(name) => name,
        Err(PathError::BadPath) => return Ok(false),
        Err(error) => return Err(FolderError::from(error)),
    };
    let mut system_path = String::from_str(alloc, system_path)?;
    system_path.push('/')?;
    system_path.push_str(name.as_str())?;
    match files.symlink_metadata(system_path.as_str()) {
        Ok(there) => Ok(strangeness_of(&there).is_none()),
        Err(_) => Ok(false),
    }
}

/// Why what looks so can stand in no replica; none where it can.
fn strangeness_of(there: &Metadata) -> Option<Strangeness>
    ensures { IsWhyStrange there.now result }
{
    if there.is_dir() {
        None
    } else if !there.is_file() {
        Some(Strangeness::Kind)
    } else if there.len() > LONGEST_FILE as u64 {
        Some(Strangeness::Size)
    } else {
        None
    }
}

/// What the system does not show for this reason: it is gone, or may not be read. Any other is
/// refused.
fn unseen(error: io::Error) -> Result<Shown, FolderError>
    ensures shown { IfOk result (λ shown. shown_of (error_kind error) ≡ Some shown) }
    ensures refused { IfErr result (λ e. (e ≡ FolderError.System error)
        × (shown_of (error_kind error) ≡ None)) }
{
    match error.kind() {
        io::ErrorKind::NotFound | io::ErrorKind::NotADirectory => Ok(Shown::Changed),
        io::ErrorKind::PermissionDenied => Ok(Shown::Strange(Strangeness::Locked)),
        _ => Err(FolderError::System(error)),
    }
}

/// Nothing is there any more, or what was a directory above it is none.
pub(super) fn is_gone(error: &io::Error) -> bool
    ensures { IsTrue result ↔ (shown_of (error_kind error.now) ≡ Some Shown.Changed) }
{
    matches!(
        error.kind(),
        io::ErrorKind::NotFound | io::ErrorKind::NotADirectory
    )
}

/// The names in the directory at the system's path, each with a zero byte after it.
pub(super) fn read_names<F: Files>(
    alloc: Global,
    files: &F,
    system_path: &str,
) -> io::Result<Vec<u8>> {
    all_names(alloc, files.open_dir(system_path)?)
}

/// The path of the system to what has these names in the folder.
pub(super) fn system_path_of(
    alloc: Global,
    root: &str,
    names: &[Name],
) -> Result<String, AllocError>
    ensures { IfOk result (λ system_path. string_bytes system_path ≡ system_path_of root.now
        names.now) }
{
    let mut system_path = String::from_str(alloc, root)?;
    for name in names {
        system_path.push('/')?;
        system_path.push_str(name.as_str())?;
    }
    Ok(system_path)
}
