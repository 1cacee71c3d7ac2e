//! The directory `.syn` of a folder: what is being written, notes of it, and what was taken away.

use crate::system::listing::OWN;
use crate::system::open_dir::{OpenDir, is_none_there};
use std::alloc::Global;
use std::fs::Files;
use std::io;

/// The directories that are open in the `.syn` of a folder.
#[derive(Drop)]
pub(super) struct OwnDirs {
    /// What is being written, and the note of an item under way.
    pub(super) new: OpenDir,
    /// What was taken away from the folder.
    pub(super) kept: OpenDir,
}

impl OwnDirs {
    /// Opens those of the folder whose directory is open; none where it has no `.syn`.
    pub(super) fn open(top: &OpenDir) -> io::Result<Option<OwnDirs>> {
        let own = match top.open_in(OWN) {
            Ok(own) => own,
            Err(error) if is_none_there(&error) => return Ok(None),
            Err(error) => return Err(error),
        };
        match (own.open_in("new"), own.open_in("kept")) {
            (Ok(new), Ok(kept)) => Ok(Some(OwnDirs { new, kept })),
            (Err(error), _) | (_, Err(error)) if is_none_there(&error) => Ok(None),
            (Err(error), _) | (_, Err(error)) => Err(error),
        }
    }

    /// The same, where each that is missing is made. Nobody but the folder's owner may look into
    /// them.
    pub(super) fn open_or_make<F: Files>(
        alloc: Global,
        files: &F,
        top: &OpenDir,
    ) -> io::Result<OwnDirs> {
        if let Some(dirs) = OwnDirs::open(top)? {
            return Ok(dirs);
        }
        let own = made_in(alloc, files, top, OWN)?;
        let kept = made_in(alloc, files, &own, "kept")?;
        let new = made_in(alloc, files, &own, "new")?;
        own.sync(alloc, files)?;
        top.sync(alloc, files)?;
        Ok(OwnDirs { new, kept })
    }
}

/// The directory of this name in the open one, which is made if it is missing.
pub(super) fn made_in<F: Files>(
    alloc: Global,
    files: &F,
    dir: &OpenDir,
    name: &str,
) -> io::Result<OpenDir> {
    let place = dir.place(alloc, name)?;
    match make_private(files, place.as_str()) {
        Err(error) if error.kind() != io::ErrorKind::AlreadyExists => Err(error),
        _ => dir.open_in(name),
    }
}

/// Makes a directory that nobody else may look into, as far as the system can make one.
fn make_private<F: Files>(files: &F, system_path: &str) -> io::Result<()> {
    match files.create_dir_with_mode(system_path, 0o700) {
        Err(error) if error.kind() == io::ErrorKind::Unsupported => files.create_dir(system_path),
        made => made,
    }
}
