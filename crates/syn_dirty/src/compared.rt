//! Two trees of marks compared path by path.
ghost use Rattle.std.specs.Prelude.{◌≡◌, ◌<◌, ◌+◌, [], ◌∷◌, IfOk, IfErr, IfSome, MatchOption};
ghost use Rattle.std.specs.Prelude.{length};
ghost use Rattle.std.specs.FinMap.{entries};
ghost use Rattle.syn_model.specs.Dirty.{is_unstable, is_same_content};
ghost use Rattle.syn_mark.specs.Marks.{content_of};
ghost use Rattle.syn_scan.specs.Found.{scan_of};
ghost use Rattle.syn_dirty.specs.inner.Rows.{compared, with_set, rows_at};

use crate::error::DirtyError;
use std::alloc::Global;
use std::cmp::Ordering;
use syn_mark::{Mark, MarkEntry, MarkTree};
use syn_path::Path;
use syn_scan::Scan;

/// A path that one of two trees has, and whether something differs at it.
pub(crate) type Row<'a> = (&'a Path, bool);

/// The paths that the scan or the archive has, in path order, each with whether the two differ
/// there or the path itself is unstable. Refused 11 where memory is refused.
pub(crate) fn rows_of<'a>(
    alloc: Global,
    scan: &'a Scan,
    archive: &'a MarkTree,
) -> Result<Vec<Row<'a>>, DirtyError>
    ensures ok { IfOk result (λ rows. rows_at rows.items
        ≡ with_set (is_unstable (scan_of scan.now))
        (compared (entries scan.now.marks) (entries archive.now))) }
    ensures memory { IfErr result (λ e. e ≡ DirtyError.Memory) }
{
    let mut rows = Vec::new(alloc);
    let mut lefts = scan.tree().as_slice();
    let mut rights = archive.as_slice();
    while let Some((path, differs, more, others)) = first_row(lefts, rights) {
        rows.push((path, differs || scan.is_unstable(path)))?;
        lefts = more;
        rights = others;
    }
    Ok(rows)
}

/// The first path of the two, whether they differ at it, and what each has after it; none where
/// both are empty.
fn first_row<'a>(
    lefts: &'a [MarkEntry],
    rights: &'a [MarkEntry],
) -> Option<(&'a Path, bool, &'a [MarkEntry], &'a [MarkEntry])>
    ensures rows { MatchOption result (compared lefts.now rights.now ≡ []) (λ first.
        compared lefts.now rights.now
        ≡ (first.0.now, first.1) ∷ compared first.2.now first.3.now) }
    ensures shorter { IfSome result (λ first. length first.2.now + length first.3.now
        < length lefts.now + length rights.now) }
{
    match (lefts, rights) {
        ([], []) => None,
        ([left, more @ ..], []) => Some((left.path(), true, more, rights)),
        ([], [right, others @ ..]) => Some((right.path(), true, lefts, others)),
        ([left, more @ ..], [right, others @ ..]) => match left.path().cmp(right.path()) {
            Ordering::Less => Some((left.path(), true, more, rights)),
            Ordering::Equal => Some((left.path(), !is_same(left, right), more, others)),
            Ordering::Greater => Some((right.path(), true, lefts, others)),
        },
    }
}

/// The same mark stands at both.
fn is_same(left: &MarkEntry, right: &MarkEntry) -> bool
    ensures { result ≡ is_same_content left.now.1 right.now.1 }
{
    is_same_mark(*left.content(), *right.content())
}

/// Both are directories, or files with one mode and equal digests.
fn is_same_mark(left: Mark, right: Mark) -> bool
    ensures { result ≡ is_same_content (content_of left) (content_of right) }
{
    match (left, right) {
        (Mark::File(mode, digest), Mark::File(other, right)) => {
            mode.is_same(other) && digest.as_slice() == right.as_slice()
        }
        (Mark::Dir, Mark::Dir) => true,
        (Mark::File(..), Mark::Dir) => false,
        (Mark::Dir, Mark::File(..)) => false,
    }
}
