//! The lines of a log.
ghost use Rattle.std.specs.Prelude.{◌≡◌, ◌-◌, IfOk, OnOk, drop, length, reverse};
ghost use Rattle.std.specs.Io.KnownBytes.{Appends};
ghost use Rattle.std.specs.String.{string_bytes};
ghost use Rattle.syn_print.specs.Events.{edit_line, event_line, lines_of, logged_line, node_shown};
ghost use Rattle.syn_print.specs.Events.{touched_line, replaced_line};

use crate::error::PrintError;
use crate::log::{Logged, What};
use std::alloc::{AllocError, Global};
use std::io::Write;
use syn_history::{Event, Token};
use syn_path::Path;
use syn_tree::{Edit, Node};

/// Prints a line for each of the last events, so many at most, the newest first.
///
/// Refused 9 where the output cannot be written, and 11 where memory is refused.
pub fn show_log<W: Write>(
    alloc: Global,
    logged: &[Logged],
    most: usize,
    output: &mut W,
) -> Result<(), PrintError>
    ensures { OnOk result (Appends (W.contents output.old) (W.contents output.new)
        (lines_of (reverse (drop (length logged.now - most) logged.now)))) }
{
    let first = logged.len().saturating_sub(most);
    for index in (first..logged.len()).rev() {
        let line = logged_line(alloc, &logged[index])?;
        output.write_all(line.as_bytes())?;
    }
    Ok(())
}

/// The line of an event.
fn logged_line(alloc: Global, logged: &Logged) -> Result<String, AllocError>
    ensures { IfOk result (λ line. string_bytes line ≡ logged_line logged.now) }
{
    match &logged.what {
        What::Touched(path) => touched_line(alloc, logged.position, path),
        What::Whole(event) => event_line(alloc, logged.position, event),
    }
}

/// The line of an event of which the path alone is known.
fn touched_line(alloc: Global, position: u64, path: &Path) -> Result<String, AllocError>
    ensures { IfOk result (λ line. string_bytes line ≡ touched_line position path.now) }
{
    format!(in alloc; "{position} touch {path}\n")
}

/// The line of a whole event.
fn event_line(alloc: Global, position: u64, event: &Event) -> Result<String, AllocError>
    ensures { IfOk result (λ line. string_bytes line ≡ event_line position event.now) }
{
    match event {
        Event::Edited { user, edit } => edit_line(alloc, position, *user, edit),
        Event::Began { session } => format!(in alloc; "{position} session {session}\n"),
        Event::Replaced {
            token,
            path,
            since: _,
            new,
        } => replaced_line(alloc, position, *token, path, new),
    }
}

/// The line of an edit.
fn edit_line(alloc: Global, position: u64, user: u32, edit: &Edit) -> Result<String, AllocError>
    ensures { IfOk result (λ line. string_bytes line ≡ edit_line position user edit.now) }
{
    match edit {
        Edit::Put(path, bytes) => {
            let length = bytes.len();
            format!(in alloc; "{position} put user {user} length {length} {path}\n")
        }
        Edit::MakeDir(path) => format!(in alloc; "{position} mkdir user {user} {path}\n"),
        Edit::Remove(path) => format!(in alloc; "{position} rm user {user} {path}\n"),
        Edit::Chmod(path, mode) => {
            format!(in alloc; "{position} chmod user {user} mode {mode} {path}\n")
        }
    }
}

/// The line of a replacement.
fn replaced_line(
    alloc: Global,
    position: u64,
    token: Token,
    path: &Path,
    new: &Option<Node>,
) -> Result<String, AllocError>
    ensures { IfOk result (λ line. string_bytes line
        ≡ replaced_line position token path.now new.now) }
{
    let session = token.session;
    let item = token.item;
    let shown = node_shown(alloc, new)?;
    format!(in alloc; "{position} replace session {session} item {item} {shown} {path}\n")
}

/// What was put in the place of what stood there: nothing, a directory, or a file of so many bytes.
fn node_shown(alloc: Global, new: &Option<Node>) -> Result<String, AllocError>
    ensures { IfOk result (λ shown. string_bytes shown ≡ node_shown new.now) }
{
    match new {
        None => String::from_str(alloc, "-"),
        Some(Node::Dir(_)) => String::from_str(alloc, "d"),
        Some(Node::File(_, bytes)) => {
            let length = bytes.len();
            format!(in alloc; "f {length}")
        }
    }
}
