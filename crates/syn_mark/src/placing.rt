//! Marks that are looked at one by one.
ghost use Rattle.std.specs.Prelude.{◌≡◌, ◌∷◌, ◌++◌, true, IsTrue, IfOk, IfErr};
ghost use Rattle.std.specs.List.{list_all};
ghost use Rattle.std.specs.FinMap.{entries, find};
ghost use Rattle.syn_model.specs.Path.{is_root, path_cmp, root};
ghost use Rattle.syn_model.specs.Tree.{is_directory_content};
ghost use Rattle.syn_model.specs.Limits.{fits_path};
ghost use Rattle.syn_model.specs.Mark.{IsMarks};
ghost use Rattle.syn_placed.specs.Pairs.{rooted, under, AreRising};
ghost use Rattle.syn_tree.specs.Lists.{stripped};
ghost use Rattle.syn_mark.specs.Marks.{content_of, or_absent, AreMarkPairs};
ghost use Rattle.syn_mark.specs.Placings.{stands_in};

use crate::copies::{below, push_under};
use crate::lawful::is_entry;
use crate::mark::Mark;
use crate::tree::{MarkEntry, MarkTree};
use std::alloc::{AllocError, Global};
use syn_path::{LONGEST_PATH, MOST_NAMES, Name, Path};
use syn_placed::EntryKind;
use syn_placed::by_path::{entry_at, is_directory, parent_names};
use syn_tree::TreeError;

/// It stands at the root.
pub(crate) fn is_root(entry: &MarkEntry) -> bool
    ensures { result ≡ is_root entry.now.0 }
{
    entry.path().names().is_empty()
}

/// Each of the entries below a root directory stands in a directory.
pub(crate) fn all_placed(below: &[MarkEntry]) -> bool
    requires { AreRising (rooted below.now) }
    ensures value { result ≡ list_all (stands_in below.now) below.now }
    ensures lawful { IsTrue result → AreMarkPairs below.now }
{
    for entry in below {
        is_entry(entry);
        if !is_directory(below, parent_names(entry.path())) {
            return false;
        }
    }
    true
}

/// A directory stands at the path of these names, among the entries with the root's.
pub(crate) fn stands_directory(list: &[MarkEntry], names: &[Name]) -> bool
    requires { AreRising list.now }
    ensures { result ≡ is_directory_content (find path_cmp names.now list.now) }
{
    match entry_at(list, names) {
        Some(entry) => entry.content().is_directory(),
        None => false,
    }
}

/// The path of each entry, with the other before it, keeps the limits of a path.
pub(crate) fn all_fit_below(at: &Path, list: &[MarkEntry]) -> bool
    ensures { result ≡ list_all (λ pair. fits_path pair.0) (under at.now list.now) }
{
    for entry in list {
        if !fits_below(at, entry.path()) {
            return false;
        }
    }
    true
}

/// The path with the other before it keeps the limits of a path.
fn fits_below(at: &Path, path: &Path) -> bool
    ensures { result ≡ fits_path (at.now ++ path.now) }
{
    // the second count is spelled once
    at.names().len() + path.names().len() <= MOST_NAMES
        && at.spelling_length() + path.spelling_length() <= LONGEST_PATH + 1
}

/// The mark alone, and after it the entries below the path, each without the path before its own.
/// Refused where memory is refused.
pub(crate) fn copy_part(
    alloc: Global,
    mark: Mark,
    part: &[MarkEntry],
    at: &Path,
) -> Result<Vec<MarkEntry>, AllocError>
    ensures { IfOk result (λ copies. copies.items
        ≡ (root, content_of mark) ∷ stripped at.now part.now) }
{
    let mut list = Vec::with_capacity(alloc, 1)?;
    list.push(MarkEntry::new(Path::root(alloc), mark))?;
    let mut copies = below(alloc, part, at)?;
    list.append(&mut copies)?;
    Ok(list)
}

/// The entries of the marks with the path put before theirs. Refused 11 where memory is refused.
pub(crate) fn placed(
    alloc: Global,
    at: &Path,
    new: Option<MarkTree>,
) -> Result<Vec<MarkEntry>, TreeError>
    requires { list_all (λ pair. fits_path pair.0) (under at.now (entries (or_absent new))) ≡ true }
    ensures ok { IfOk result (λ list. list.items ≡ under at.now (entries (or_absent new))) }
    ensures marks { IsMarks (or_absent new) }
    ensures memory { IfErr result (λ e. e ≡ TreeError.Memory) }
{
    let mut list = Vec::new(alloc);
    let Some(marks) = new else {
        return Ok(list);
    };
    let source = marks.into_vec();
    push_under(alloc, &mut list, at, source)?;
    Ok(list)
}
