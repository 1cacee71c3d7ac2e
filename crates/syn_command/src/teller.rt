//! What is told of a command's work as it goes on.

use std::alloc::{AllocError, Global};
use std::io::Write;
use syn_tree::Edit;

/// What a terminal takes for: back to the beginning of the line, and nothing in it.
pub(crate) const CLEARED: &str = "\r\x1b[K";

/// How much is told of the edits of an import, or of the items of a session or of a folder.
#[derive(Clone, Copy, Debug, PartialEq, Eq)]
pub struct Verbosity {
    /// Each edit or item has a line, once it is made or settled.
    pub each: bool,
    /// A last line says how many of all are. It is written again in its place, so it wants a
    /// terminal.
    pub counts: bool,
}

/// Tells of a command's work as it goes on. What cannot be written is left out.
#[derive(Drop)]
pub struct Teller<'e, E> {
    pub verbosity: Verbosity,
    /// Where it is told, with what else a command has to say.
    pub errors: &'e mut E,
}

impl<E: Write> Teller<'_, E> {
    /// Tells that one more was done, by its line, and how many of all were done now: `of_what` says
    /// what they are.
    pub fn tell(&mut self, line: &str, count: usize, all: usize, of_what: &str) {
        if self.verbosity.counts {
            let _ = self.errors.write_all(CLEARED.as_bytes());
        }
        if self.verbosity.each {
            let _ = self.errors.write_all(line.as_bytes());
        }
        if self.verbosity.counts {
            let _ = write!(self.errors, "{count} of {all} {of_what}");
            let _ = self.errors.flush();
        }
    }

    /// Takes the line of the counts away.
    pub fn end(&mut self) {
        if self.verbosity.counts {
            let _ = self.errors.write_all(CLEARED.as_bytes());
            let _ = self.errors.flush();
        }
    }
}

/// What is told of the edit.
pub(crate) fn edit_line(alloc: Global, edit: &Edit) -> Result<String, AllocError> {
    match edit {
        Edit::Put(path, _) => format!(in alloc; "put {path}\n"),
        Edit::MakeDir(path) => format!(in alloc; "mkdir {path}\n"),
        Edit::Remove(path) => format!(in alloc; "rm {path}\n"),
        Edit::Chmod(path, mode) => format!(in alloc; "chmod {mode} {path}\n"),
    }
}

/// What is told of edits that are made at once: nothing where none is told.
pub(crate) fn lines_of(
    alloc: Global,
    edits: &[Edit],
    verbosity: Verbosity,
) -> Result<String, AllocError> {
    let mut lines = String::new(alloc);
    if verbosity.each {
        for edit in edits {
            lines.push_str(&edit_line(alloc, edit)?)?;
        }
    }
    Ok(lines)
}
