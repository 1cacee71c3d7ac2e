//! The lines that tell how a session goes.
ghost use Rattle.std.specs.Prelude.{◌≡◌, IfOk};
ghost use Rattle.std.specs.String.{string_bytes};
ghost use Rattle.syn_refusal.specs.Refusals.{cause_of};
ghost use Rattle.syn_command.specs.SettledLines.{carried_line, marked_line};
ghost use Rattle.syn_command.specs.inner.SessionLines.{conflict_line, count_line, refused_line};

use std::alloc::{AllocError, Global};
use syn_path::Path;
use syn_refusal::Refusal;

/// The line of an item that was carried: its path. Refused 11 where memory is refused.
pub fn carried_line(alloc: Global, path: &Path) -> Result<String, AllocError>
    ensures { IfOk result (λ line. string_bytes line ≡ carried_line path.now) }
{
    format!(in alloc; "carried {path}\n")
}

/// The line of an item on which both sides agreed already. Refused 11 where memory is refused.
pub fn marked_line(alloc: Global, path: &Path) -> Result<String, AllocError>
    ensures { IfOk result (λ line. string_bytes line ≡ marked_line path.now) }
{
    format!(in alloc; "marked {path}\n")
}

/// The line of an item that both sides changed.
pub(crate) fn conflict_line(alloc: Global, path: &Path) -> Result<String, AllocError>
    ensures { IfOk result (λ line. string_bytes line ≡ conflict_line path.now) }
{
    format!(in alloc; "conflict {path}\n")
}

/// The line of an item that was refused: the number of the refusal, and the path.
pub(crate) fn refused_line(alloc: Global, why: Refusal, path: &Path) -> Result<String, AllocError>
    ensures { IfOk result (λ line. string_bytes line ≡ refused_line (cause_of why) path.now) }
{
    let number = why.number();
    format!(in alloc; "refused {number} {path}\n")
}

/// The line of the counts, with no end, since the next takes its place.
pub(crate) fn count_line(
    alloc: Global,
    settled: u64,
    planned: usize,
    fetched: u64,
) -> Result<String, AllocError>
    ensures { IfOk result (λ line. string_bytes line ≡ count_line settled planned fetched) }
{
    format!(in alloc; "{settled} of {planned} items, {fetched} bytes")
}
