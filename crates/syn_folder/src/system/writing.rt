//! Edits of a folder of the system.
ghost use Rattle.std.specs.Prelude.{◌≡◌};
ghost use Rattle.syn_model.specs.Path.{parent};

use crate::system::editing::has_own;
use crate::system::listing::PART;
use crate::system::looking::system_path_of;
use std::alloc::Global;
use std::fs::{Files, OpenFile, OpenOptions, Permissions};
use std::io::{self, Write};
use std::os::unix::fs::PermissionsExt;
use std::thread::{Threads, map_chunks};
use syn_path::{Name, Path};
use syn_tree::checking::mode_after_put;
use syn_tree::{Edit, Found, Mode, Tree};

/// So many files are open at a time to be synced.
const MOST_OPEN: usize = 128;

/// So many threads sync them.
const MOST_THREADS: usize = 32;

/// A file that lies beside its place, which it gets once it is synced.
#[derive(Drop)]
pub(super) struct Part {
    path: Path,
    mode: Mode,
    /// Where it lies.
    beside: String,
}

/// Makes the edit in the folder, which holds the tree once each of the parts has its place. What is
/// put is a part more. What has a name `.syn` in its path is left alone.
pub(super) fn make<F: Files>(
    alloc: Global,
    files: &F,
    root: &str,
    tree: &Tree,
    edit: &Edit,
    parts: &mut Vec<Part>,
) -> io::Result<()> {
    if has_own(path_of(edit).names()) {
        return Ok(());
    }
    make_named(alloc, files, root, tree, edit, parts)
}

/// The path that is edited.
fn path_of(edit: &Edit) -> &Path {
    match edit {
        Edit::Put(path, _) | Edit::Chmod(path, _) => path,
        Edit::MakeDir(path) | Edit::Remove(path) => path,
    }
}

/// Makes the edit, at whatever path.
fn make_named<F: Files>(
    alloc: Global,
    files: &F,
    root: &str,
    tree: &Tree,
    edit: &Edit,
    parts: &mut Vec<Part>,
) -> io::Result<()> {
    match edit {
        Edit::Put(path, bytes) => {
            let mode = mode_after_put(tree, path);
            put(alloc, files, root, path, mode, bytes, parts)
        }
        Edit::MakeDir(path) => {
            check_above(alloc, files, root, path)?;
            files.create_dir(system_path_of(alloc, root, path.names())?.as_str())
        }
        Edit::Remove(path) => {
            for pair in tree.below(path).rev() {
                let below = pair.path(alloc)?;
                remove(alloc, files, root, &below, pair.found().is_directory())?;
            }
            let is_directory = match tree.get(path) {
                Some(found) => found.is_directory(),
                None => false,
            };
            remove(alloc, files, root, path, is_directory)
        }
        Edit::Chmod(path, mode) => {
            let Some(Found::File(_, bytes)) = tree.get(path) else {
                return Err(io::Error::from(io::ErrorKind::NotFound));
            };
            put(alloc, files, root, path, *mode, bytes, parts)
        }
    }
}

/// Writes the bytes into a file beside the path, which is a part more, or takes the place of the
/// one that lies there for the path.
fn put<F: Files>(
    alloc: Global,
    files: &F,
    root: &str,
    path: &Path,
    mode: Mode,
    bytes: &[u8],
    parts: &mut Vec<Part>,
) -> io::Result<()> {
    check_above(alloc, files, root, path)?;
    // A file that no part tells of would stay there after a refusal.
    parts.reserve(1)?;
    let part = Part {
        path: path.copy(alloc)?,
        mode,
        beside: place_beside(alloc, root, path)?,
    };
    // A part of an export that was cut off goes. It is no file of anybody's: see its name.
    let _ = files.remove_file(part.beside.as_str());
    let written = new_file(files, part.beside.as_str(), bytes);
    if written.is_err() {
        let _ = files.remove_file(part.beside.as_str());
    }
    drop(written?);
    if let Some(earlier) = parts.iter().position(|other| other.path == part.path) {
        parts.swap_remove(earlier);
    }
    parts.push_reserved(part);
    Ok(())
}

/// Where the part that is for the path lies: beside it, with its name behind that of a part.
fn place_beside(alloc: Global, root: &str, path: &Path) -> io::Result<String> {
    let mut beside = system_path_of(alloc, root, above(path))?;
    beside.push('/')?;
    beside.push_str(PART)?;
    if let Some(name) = path.names().last() {
        beside.push('-')?;
        beside.push_str(name.as_str())?;
    }
    Ok(beside)
}

/// Syncs the parts, many at a time side by side, and gives each its place then. So a file is there
/// whole, with its mode whatever the process masks, or is what it was, and no symbolic link is
/// followed.
pub(super) fn put_in_place<H: Threads + Sync, F: Files>(
    rt: &H,
    alloc: Global,
    files: &F,
    root: &str,
    parts: &[Part],
) -> io::Result<()>
where
    F::File: Sync,
{
    for some in parts.chunks(MOST_OPEN) {
        sync(rt, alloc, &opened(alloc, files, some)?)?;
        for part in some {
            check_above(alloc, files, root, &part.path)?;
            let system_path = system_path_of(alloc, root, part.path.names())?;
            files.rename(part.beside.as_str(), system_path.as_str())?;
        }
    }
    Ok(())
}

/// The files of the parts, each with its mode. They are open, since that may let nobody open them.
fn opened<F: Files>(alloc: Global, files: &F, parts: &[Part]) -> io::Result<Vec<F::File>> {
    let mut open = Vec::new(alloc);
    for part in parts {
        let mut options = OpenOptions::new();
        let file = options.read(true).open(files, part.beside.as_str())?;
        file.set_permissions(Permissions::from_mode(part.mode.bits() as u32))?;
        open.push(file)?;
    }
    Ok(open)
}

/// Syncs the files, by threads side by side.
fn sync<H: Threads + Sync, O: OpenFile + Sync>(
    rt: &H,
    alloc: Global,
    files: &[O],
) -> io::Result<()> {
    let size = files.len().div_ceil(MOST_THREADS).max(1);
    let synced = map_chunks(rt, alloc, files, size, &|_, files| sync_each(files))?;
    for one in synced {
        one?;
    }
    Ok(())
}

/// Syncs each of the files.
fn sync_each<O: OpenFile>(files: &[O]) -> io::Result<()> {
    for file in files {
        file.sync_data()?;
    }
    Ok(())
}

/// Removes the parts, each of which lies beside its place.
pub(super) fn give_up<F: Files>(files: &F, parts: &[Part]) {
    for part in parts {
        let _ = files.remove_file(part.beside.as_str());
    }
}

/// Each directory above the path is one, and no symbolic link to one: else something would be
/// written outside of the folder.
pub(super) fn check_above<F: Files>(
    alloc: Global,
    files: &F,
    root: &str,
    path: &Path,
) -> io::Result<()> {
    let names = path.names();
    for count in 1..names.len() {
        let above = system_path_of(alloc, root, &names[..count])?;
        if !files.symlink_metadata(above.as_str())?.is_dir() {
            return Err(io::Error::from(io::ErrorKind::NotADirectory));
        }
    }
    Ok(())
}

/// The names of the directory that the path is in.
pub(super) fn above(path: &Path) -> &[Name]
    ensures { result.now ≡ parent path.now }
{
    match path.names() {
        [] => path.names(),
        [above @ .., _] => above,
    }
}

/// Writes the bytes into a file that is new, with the mode whatever the process masks, and syncs
/// it.
pub(super) fn write_new<F: Files>(
    files: &F,
    system_path: &str,
    mode: Mode,
    bytes: &[u8],
) -> io::Result<()> {
    let file = new_file(files, system_path, bytes)?;
    file.set_permissions(Permissions::from_mode(mode.bits() as u32))?;
    file.sync_data()
}

/// A new file with the bytes, so that no symbolic link is followed.
fn new_file<F: Files>(files: &F, system_path: &str, bytes: &[u8]) -> io::Result<F::File> {
    let mut file = OpenOptions::new()
        .write(true)
        .create_new(true)
        .open(files, system_path)?;
    file.write_all(bytes)?;
    Ok(file)
}

/// Removes a file, or a directory that is empty. What nobody has read stays, and is refused.
fn remove<F: Files>(
    alloc: Global,
    files: &F,
    root: &str,
    path: &Path,
    is_directory: bool,
) -> io::Result<()> {
    check_above(alloc, files, root, path)?;
    let system_path = system_path_of(alloc, root, path.names())?;
    if is_directory {
        files.remove_dir(system_path.as_str())
    } else {
        files.remove_file(system_path.as_str())
    }
}
