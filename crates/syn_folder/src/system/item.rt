//! What is wanted at a path, written in `.syn/new` before it gets its place.

use crate::system::looking::system_path_of;
use crate::system::open_dir::OpenDir;
use crate::system::writing::write_new;
use std::alloc::Global;
use std::fs::{Files, OpenFile, OpenOptions};
use std::io;
use syn_tree::{Entries, Found, Node};

/// The name of what is wanted.
pub(super) const ITEM: &str = "item";

/// Writes the file or the directory, with what is below it, each file with its mode, and syncs all
/// of it. What an earlier run left there goes.
pub(super) fn write_item<F: Files>(
    alloc: Global,
    files: &F,
    new: &OpenDir,
    node: &Node,
) -> io::Result<()> {
    remove_item(alloc, files, new)?;
    let item = new.place(alloc, ITEM)?;
    match node {
        Node::File(mode, bytes) => write_new(files, item.as_str(), *mode, bytes),
        Node::Dir(entries) => write_directory(alloc, files, item.as_str(), entries),
    }
}

/// Makes the directory at the system's path with these entries, and syncs them.
fn write_directory<F: Files>(
    alloc: Global,
    files: &F,
    item: &str,
    entries: &Entries,
) -> io::Result<()> {
    files.create_dir(item)?;
    for pair in entries.iter() {
        let below = system_path_of(alloc, item, pair.path(alloc)?.names())?;
        match pair.found() {
            Found::Dir => files.create_dir(below.as_str())?,
            Found::File(mode, bytes) => write_new(files, below.as_str(), mode, bytes)?,
        }
    }
    sync_directories(alloc, files, item, entries)
}

/// Syncs the names of the directory at the system's path, and of those in it.
fn sync_directories<F: Files>(
    alloc: Global,
    files: &F,
    item: &str,
    entries: &Entries,
) -> io::Result<()> {
    for pair in entries.iter() {
        if pair.found().is_directory() {
            let below = system_path_of(alloc, item, pair.path(alloc)?.names())?;
            sync_directory(files, below.as_str())?;
        }
    }
    sync_directory(files, item)
}

/// Syncs the names of the directory at the system's path.
fn sync_directory<F: Files>(files: &F, system_path: &str) -> io::Result<()> {
    let mut options = OpenOptions::new();
    options.read(true).open(files, system_path)?.sync_all()
}

/// Removes what an earlier replacement left in `.syn/new`. It stands in the folder, too, or never
/// stood there.
pub(super) fn remove_item<F: Files>(alloc: Global, files: &F, new: &OpenDir) -> io::Result<()> {
    let item = new.place(alloc, ITEM)?;
    match files.symlink_metadata(item.as_str()) {
        Ok(there) if there.is_dir() => files.remove_dir_all(alloc, item.as_str()),
        Ok(_) => files.remove_file(item.as_str()),
        Err(error) if error.kind() == io::ErrorKind::NotFound => Ok(()),
        Err(error) => Err(error),
    }
}
