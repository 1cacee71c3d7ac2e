//! The note of a replacement under way, which stands in `.syn/new` from before the first rename
//! until all is done.

use crate::system::open_dir::OpenDir;
use crate::system::own::OwnDirs;
use std::alloc::Global;
use std::fs::{Files, OpenFile, OpenOptions};
use std::io::{self, Read, Write};
use std::os::unix::fs::MetadataExt;
use std::str;
use syn_path::Path;

/// The name of the note.
const NOTE: &str = "note";

/// The name of a note that is being written.
const NOTE_PART: &str = "note.part";

/// The longest note: a path takes fewer bytes.
const LONGEST_NOTE: u64 = 65_536;

/// So many things that are taken away within a second get names of their own.
const MOST_NAMES: u32 = 1_000_000;

/// What is told of a replacement under way.
#[derive(Drop)]
pub(super) struct Note {
    /// The directory in `.syn/kept` in which what stood at the path is to lie, under its path.
    pub(super) number: String,
    /// Something is to stand at the path.
    pub(super) is_wanted: bool,
    pub(super) path: Path,
}

/// Makes a directory in `.syn/kept` that did not exist before, and answers its name, which has the
/// second of the system's clock and a number.
pub(super) fn make_numbered<F: Files>(
    alloc: Global,
    files: &F,
    own: &OwnDirs,
) -> io::Result<String> {
    let moment = new_part(alloc, files, &own.new)?.metadata()?.mtime();
    for number in 0..MOST_NAMES {
        let name = format!(in alloc; "{moment}-{number}")?;
        match files.create_dir(own.kept.place(alloc, name.as_str())?.as_str()) {
            Ok(()) => return Ok(name),
            Err(error) if error.kind() == io::ErrorKind::AlreadyExists => {}
            Err(error) => return Err(error),
        }
    }
    Err(io::Error::from(io::ErrorKind::AlreadyExists))
}

/// A note that is being written.
fn new_part<F: Files>(alloc: Global, files: &F, new: &OpenDir) -> io::Result<F::File> {
    let part = new.place(alloc, NOTE_PART)?;
    // One that was cut off told of nothing yet.
    let _ = files.remove_file(part.as_str());
    let mut options = OpenOptions::new();
    options
        .write(true)
        .create_new(true)
        .open(files, part.as_str())
}

/// Writes the note and syncs it. Where that fails, none stands.
pub(super) fn write_note<F: Files>(
    alloc: Global,
    files: &F,
    new: &OpenDir,
    note: &Note,
) -> io::Result<()> {
    let Note {
        number,
        is_wanted,
        path,
    } = note;
    let word = if *is_wanted { "replace" } else { "remove" };
    let mut text = format!(in alloc; "{number} {word}\n")?;
    for (count, name) in path.names().iter().enumerate() {
        if count > 0 {
            text.push('/')?;
        }
        text.push_str(name.as_str())?;
    }
    let (part, whole) = (new.place(alloc, NOTE_PART)?, new.place(alloc, NOTE)?);
    let mut file = new_part(alloc, files, new)?;
    file.write_all(text.as_str().as_bytes())?;
    file.sync_data()?;
    files.rename(part.as_str(), whole.as_str())?;
    let synced = new.sync(alloc, files);
    if synced.is_err() {
        let _ = files.remove_file(whole.as_str());
    }
    synced
}

/// The note that stands, if one does. One that is none is an error.
pub(super) fn read_note<F: Files>(
    alloc: Global,
    files: &F,
    new: &OpenDir,
) -> io::Result<Option<Note>> {
    let mut options = OpenOptions::new();
    let file = match options
        .read(true)
        .open(files, new.place(alloc, NOTE)?.as_str())
    {
        Ok(file) => file,
        Err(error) if error.kind() == io::ErrorKind::NotFound => return Ok(None),
        Err(error) => return Err(error),
    };
    let mut bytes = Vec::new(alloc);
    file.take(LONGEST_NOTE).read_to_end(&mut bytes)?;
    match note_of(alloc, &bytes)? {
        Some(note) => Ok(Some(note)),
        None => Err(io::Error::from(io::ErrorKind::InvalidData)),
    }
}

/// The note that the bytes are, if they are one.
fn note_of(alloc: Global, bytes: &[u8]) -> io::Result<Option<Note>> {
    let Ok(text) = str::from_utf8(bytes) else {
        return Ok(None);
    };
    let Some((first, path)) = text.split_once('\n') else {
        return Ok(None);
    };
    let Some((number, word)) = first.split_once(' ') else {
        return Ok(None);
    };
    let Ok(path) = Path::parse(alloc, path) else {
        return Ok(None);
    };
    if !number
        .bytes()
        .all(|byte| byte == b'-' || byte.is_ascii_digit())
    {
        return Ok(None);
    }
    Ok(Some(Note {
        number: String::from_str(alloc, number)?,
        is_wanted: word == "replace",
        path,
    }))
}

/// Removes the note, if one stands.
pub(super) fn remove_note<F: Files>(alloc: Global, files: &F, new: &OpenDir) -> io::Result<()> {
    match files.remove_file(new.place(alloc, NOTE)?.as_str()) {
        Err(error) if error.kind() != io::ErrorKind::NotFound => Err(error),
        _ => Ok(()),
    }
}
