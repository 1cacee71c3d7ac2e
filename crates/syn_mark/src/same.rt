//! When two lists of marks are the same.
ghost use Rattle.std.specs.Prelude.{◌≡◌, ◌↔◌, IsTrue};
ghost use Rattle.syn_mark.specs.Marks.{content_of};

use crate::mark::Mark;
use crate::tree::MarkEntry;
use std::cmp::Ordering;

/// The same paths with the same marks stand in both.
pub(crate) fn same_entries(left: &[MarkEntry], right: &[MarkEntry]) -> bool
    ensures { IsTrue result ↔ (left.now ≡ right.now) }
{
    if left.len() != right.len() {
        return false;
    }
    for index in 0..left.len() {
        if !same_entry(&left[index], &right[index]) {
            return false;
        }
    }
    true
}

/// The same mark stands at the same path.
fn same_entry(left: &MarkEntry, right: &MarkEntry) -> bool
    ensures { IsTrue result ↔ (left.now ≡ right.now) }
{
    let place = left.path().names().cmp(&right.path().names());
    place == Ordering::Equal && same_mark(*left.content(), *right.content())
}

/// Both are directories, or files with one mode and equal digests.
fn same_mark(left: Mark, right: Mark) -> bool
    ensures { IsTrue result ↔ (content_of left ≡ content_of right) }
{
    match (left, right) {
        (Mark::File(mode, digest), Mark::File(other, right)) => {
            mode.is_same(other) && digest.as_slice() == right.as_slice()
        }
        (Mark::Dir, Mark::Dir) => true,
        (Mark::File(..), Mark::Dir) => false,
        (Mark::Dir, Mark::File(..)) => false,
    }
}
