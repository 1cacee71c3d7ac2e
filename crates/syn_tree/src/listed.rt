//! The entries of a plain tree: paths, each with a file or a directory.
ghost use Rattle.std.specs.Prelude.{◌≡◌, ◌≤◌, ◌<◌, ◌+◌, ◌^◌, IfOk, option_map};
ghost use Rattle.std.specs.FinMap.{find};
ghost use Rattle.syn_model.specs.Path.{path_cmp};
ghost use Rattle.syn_placed.specs.Pairs.{rooted, AreRising, pair_spelling_length, spelling_length};
ghost use Rattle.syn_tree.specs.Contents.{found_content};

use crate::measures::{found_spelled, name_spelled};
use crate::{Content, Found};
use std::alloc::{AllocError, Global};
use syn_path::Name;
use syn_placed::by_path::entry_at;
use syn_placed::{EntryKind, Placed};

/// An entry of a plain tree: a path with a file or a directory.
pub(crate) type Entry = Placed<Content>;

/// The entries with the paths of their keys. Refused where memory is refused.
pub(crate) fn with_paths(alloc: Global, list: Vec<crate::Entry>) -> Result<Vec<Entry>, AllocError>
    ensures { IfOk result (λ entries. entries.items ≡ list.items) }
{
    let mut entries = Vec::with_capacity(alloc, list.len())?;
    for entry in list {
        let path = entry.key().to_path(alloc)?;
        let content = entry.content().copy(alloc)?;
        entries.push(Entry::new(path, content))?;
    }
    Ok(entries)
}

/// Equal entries with the keys of their paths. Refused where memory is refused.
pub(crate) fn with_keys(alloc: Global, list: &[Entry]) -> Result<Vec<crate::Entry>, AllocError>
    ensures { IfOk result (λ entries. entries.items ≡ list.now) }
{
    let mut entries = Vec::with_capacity(alloc, list.len())?;
    for entry in list {
        let content = entry.content().copy(alloc)?;
        entries.push(crate::Entry::new(alloc, &entry.path().key(), content)?)?;
    }
    Ok(entries)
}

/// What stands at the path of these names, of entries below a root directory.
pub(crate) fn find<'a>(list: &'a [Entry], names: &[Name]) -> Option<Found<'a>>
    requires { AreRising (rooted list.now) }
    ensures { option_map (λ found. found_content found) result
        ≡ find path_cmp names.now (rooted list.now) }
{
    if names.is_empty() {
        return Some(Found::Dir);
    }
    match entry_at(list, names) {
        Some(entry) => Some(entry.content().as_found()),
        None => None,
    }
}

/// How many bytes spell the entry, without what is below it.
fn entry_spelled(entry: &Entry) -> usize
    ensures length { result ≡ pair_spelling_length entry.now }
    ensures fits { result < 2 ^ 63 + 128 }
{
    name_spelled(&entry.path().key()) + found_spelled(&entry.content().as_found())
}

/// How many bytes spell the entries.
pub(crate) fn spelled(list: &[Entry]) -> usize
    requires { spelling_length list.now ≤ 526336 }
    ensures { result ≡ spelling_length list.now }
{
    let mut size = 0;
    for entry in list {
        size += entry_spelled(entry);
    }
    size
}
