//! The paths that are dirty on a side.
ghost use Rattle.std.specs.Prelude.{◌≡◌, ◌<◌, ◌≤◌, ◌+◌, [], ◌∷◌, IfSome, MatchOption, length, drop};
ghost use Rattle.syn_dirty.specs.Paths.{paths_at};
ghost use Rattle.syn_recon.specs.inner.Walks.{merged, row_at};

use std::cmp::Ordering;
use syn_path::Path;

/// A path, whether it is dirty on the left, and whether on the right.
pub(crate) type DirtyPath<'a> = (&'a Path, bool, bool);

/// The first path of two lists after so many of each, where it is dirty, and how many of each are
/// then passed; none where nothing is left.
pub(crate) fn next_dirty<'s, 'a>(
    lefts: &'s [&'a Path],
    left_passed: usize,
    rights: &'s [&'a Path],
    right_passed: usize,
) -> Option<(DirtyPath<'a>, usize, usize)>
    requires left { left_passed ≤ length lefts.now }
    requires right { right_passed ≤ length rights.now }
    ensures rows { MatchOption result
        (merged (paths_at (drop left_passed lefts.now))
        (paths_at (drop right_passed rights.now)) ≡ [])
        (λ next. merged (paths_at (drop left_passed lefts.now))
        (paths_at (drop right_passed rights.now)) ≡ row_at next.0
        ∷ merged (paths_at (drop next.1 lefts.now))
        (paths_at (drop next.2 rights.now))) }
    ensures left { IfSome result (λ next. next.1 ≤ length lefts.now) }
    ensures right { IfSome result (λ next. next.2 ≤ length rights.now) }
    ensures further { IfSome result (λ next. left_passed + right_passed < next.1 + next.2) }
{
    match (lefts.get(left_passed), rights.get(right_passed)) {
        (None, None) => None,
        (Some(left), None) => Some(((left, true, false), left_passed + 1, right_passed)),
        (None, Some(right)) => Some(((right, false, true), left_passed, right_passed + 1)),
        (Some(left), Some(right)) => match left.cmp(right) {
            Ordering::Less => Some(((left, true, false), left_passed + 1, right_passed)),
            Ordering::Equal => Some(((left, true, true), left_passed + 1, right_passed + 1)),
            Ordering::Greater => Some(((right, false, true), left_passed, right_passed + 1)),
        },
    }
}
