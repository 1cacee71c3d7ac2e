//! What a chart says of the lines of a script.

use crate::Line;
use std::alloc::{AllocError, Global};
use syn_path::Side;
use syn_tree::Edit;
use syn_world::Machine;

/// What a chart says of a line that makes one step at one machine.
#[derive(Drop)]
pub(crate) struct Row {
    pub(crate) at: Machine,
    pub(crate) text: String,
    /// Whether the step opens the machine's disk.
    pub(crate) is_opening: bool,
}

/// The rows of the lines, in order. A line that delivers messages has none: each message that
/// comes has one.
pub(crate) fn rows_of(alloc: Global, lines: &[Line]) -> Result<Vec<Row>, AllocError> {
    let mut rows = Vec::new(alloc);
    for line in lines {
        if let Some(row) = row_of(alloc, line)? {
            rows.push(row)?;
        }
    }
    Ok(rows)
}

fn row_of(alloc: Global, line: &Line) -> Result<Option<Row>, AllocError> {
    let (at, text) = match line {
        Line::Edit(side, user, edit) => (
            Machine::Side(*side),
            format!(in alloc; "user {user}: {}", edit_text(alloc, edit)?)?,
        ),
        Line::Start(preference) => (Machine::Coordinator, start_text(alloc, *preference)?),
        Line::Tick => (Machine::Coordinator, format!(in alloc; "tick")?),
        Line::Deliver(_, _) | Line::Drain => return Ok(None),
        Line::Checkpoint(at) => (*at, format!(in alloc; "checkpoint")?),
        Line::Fail(at, call) => (*at, format!(in alloc; "device call {call} is to fail")?),
        Line::Stop(at, calls, _) => (*at, format!(in alloc; "to stop after call {calls}")?),
        Line::Open(at) => (*at, format!(in alloc; "open")?),
        Line::Reopen(at) => (*at, format!(in alloc; "reopen")?),
    };
    Ok(Some(Row {
        at,
        text,
        is_opening: matches!(line, Line::Open(_) | Line::Reopen(_)),
    }))
}

fn start_text(alloc: Global, preference: Option<Side>) -> Result<String, AllocError> {
    match preference {
        None => format!(in alloc; "start"),
        Some(Side::Left) => format!(in alloc; "start prefer left"),
        Some(Side::Right) => format!(in alloc; "start prefer right"),
    }
}

fn edit_text(alloc: Global, edit: &Edit) -> Result<String, AllocError> {
    match edit {
        Edit::Put(path, bytes) => format!(in alloc; "put {path} of {}", bytes.len()),
        Edit::MakeDir(path) => format!(in alloc; "mkdir {path}"),
        Edit::Remove(path) => format!(in alloc; "rm {path}"),
        Edit::Chmod(path, mode) => format!(in alloc; "chmod {path} {mode}"),
    }
}
