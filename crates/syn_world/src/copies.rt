//! Equal values of their own.
ghost use Rattle.std.specs.Prelude.{◌≡◌, IfOk, map};
ghost use Rattle.syn_session.specs.Reports.{report_model};
ghost use Rattle.syn_image.specs.Archives.{kept_of};

use std::alloc::{AllocError, Global};
use syn_image::Kept;
use syn_path::Path;
use syn_refusal::Refusal;
use syn_session::Report;
use syn_wire::WireError;

/// The same records. Refused 11 where memory is refused.
pub(crate) fn copy_kept(alloc: Global, source: &[Kept]) -> Result<Vec<Kept>, WireError>
    ensures { IfOk result (λ copies. map kept_of copies.items ≡ map kept_of source.now) }
{
    let mut copies = Vec::with_capacity(alloc, source.len())?;
    for kept in source {
        copies.push(kept.copy(alloc)?)?;
    }
    Ok(copies)
}

/// The same report. Refused 11 where memory is refused.
pub(crate) fn copy_report(alloc: Global, source: &Report) -> Result<Report, AllocError>
    ensures { IfOk result (λ copy. report_model copy ≡ report_model source.now) }
{
    let conflicts = copy_paths(alloc, source.conflicts.as_slice())?;
    let refused = copy_refused(alloc, source.refused.as_slice())?;
    Ok(Report {
        session: source.session,
        end: source.end,
        ended: source.ended,
        done: source.done,
        marked: source.marked,
        conflicts,
        refused,
    })
}

/// Equal paths. Refused 11 where memory is refused.
fn copy_paths(alloc: Global, source: &[Path]) -> Result<Vec<Path>, AllocError>
    ensures { IfOk result (λ copies. copies.items ≡ source.now) }
{
    let mut copies = Vec::with_capacity(alloc, source.len())?;
    for path in source {
        copies.push(path.copy(alloc)?)?;
    }
    Ok(copies)
}

/// The same items with their refusals. Refused 11 where memory is refused.
fn copy_refused(
    alloc: Global,
    source: &[(Refusal, Path)],
) -> Result<Vec<(Refusal, Path)>, AllocError>
    ensures { IfOk result (λ copies. copies.items ≡ source.now) }
{
    let mut copies = Vec::with_capacity(alloc, source.len())?;
    for (why, path) in source {
        copies.push((*why, path.copy(alloc)?))?;
    }
    Ok(copies)
}
