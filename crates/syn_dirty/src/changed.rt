//! Which paths differ from the archive, or have an unstable path at or below them.
ghost use Rattle.std.specs.Prelude.{◌≡◌, IfOk, IfErr, reverse};
ghost use Rattle.syn_model.specs.Dirty.{dirty};
ghost use Rattle.syn_scan.specs.Found.{scan_of};
ghost use Rattle.syn_dirty.specs.Paths.{AreInOrder, paths_at};
ghost use Rattle.syn_dirty.specs.inner.Rows.{changed, rows_at, begins_first};

use crate::compared::{Row, rows_of};
use crate::error::DirtyError;
use std::alloc::Global;
use syn_mark::MarkTree;
use syn_path::Path;
use syn_scan::Scan;

/// The marks at and below the path are others than the archive's, or a path there is unstable. It
/// takes no memory.
///
/// A path that is not dirty has what the archive has, and with a path each above it is dirty
/// (Balasubramaniam and Pierce, "What is a File Synchronizer?").
pub fn dirty(scan: &Scan, archive: &MarkTree, path: &Path) -> bool
    ensures { result ≡ dirty (scan_of scan.now) archive.now path.now }
{
    !scan.tree().is_same_at(archive, path) || scan.unstable(path)
}

/// The dirty paths, in path order. Each node is compared once.
///
/// Refused 11 where memory is refused, and for no other cause.
pub fn dirty_set<'a>(
    alloc: Global,
    scan: &'a Scan,
    archive: &'a MarkTree,
) -> Result<Vec<&'a Path>, DirtyError>
    ensures ok { IfOk result (λ paths. AreInOrder (dirty (scan_of scan.now) archive.now)
        (paths_at paths.items)) }
    ensures memory { IfErr result (λ e. e ≡ DirtyError.Memory) }
{
    let rows = rows_of(alloc, scan, archive)?;
    // Their types say that each path has its parents.
    let _ = scan.tree();
    let _ = archive.as_slice();
    changed_in(alloc, rows)
}

/// The paths of the rows at or above one that differs. Refused 11 where memory is refused.
fn changed_in<'a>(alloc: Global, rows: Vec<Row<'a>>) -> Result<Vec<&'a Path>, DirtyError>
    ensures ok { IfOk result (λ paths. paths_at paths.items ≡ changed (rows_at rows.entry.items)) }
    ensures memory { IfErr result (λ e. e ≡ DirtyError.Memory) }
{
    let mut rows = rows;
    let mut paths = Vec::new(alloc);
    while let Some((path, differs)) = rows.pop() {
        if differs || begins_last(path, &paths) {
            paths.push(path)?;
        }
    }
    paths.reverse();
    Ok(paths)
}

/// The last of the paths is at or below this one.
fn begins_last(path: &Path, paths: &[&Path]) -> bool
    ensures { result ≡ begins_first path.now (reverse (paths_at paths.now)) }
{
    match paths.last() {
        Some(last) => path.is_prefix(last),
        None => false,
    }
}
