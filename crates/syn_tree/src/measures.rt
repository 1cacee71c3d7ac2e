//! What a tree finds and measures in its entries.
ghost use Rattle.std.specs.Prelude.{◌≡◌, ◌≤◌, ◌<◌, ◌+◌, ◌^◌, ◌&&◌, nat_le, option_map, IfSome};
ghost use Rattle.std.specs.Prelude.{IfNone};
ghost use Rattle.std.specs.FinMap.{find};
ghost use Rattle.syn_model.specs.Path.{path_cmp, IsPath};
ghost use Rattle.syn_model.specs.Limits.{content_spelling_length, last_name_spelling_length};
ghost use Rattle.syn_tree.specs.Contents.{found_content};
ghost use Rattle.syn_placed.specs.Pairs.{rooted, AreRising, pair_spelling_length, spelling_length};

use crate::content::Found;
use crate::entry::Entry;
use crate::lawful::is_path;
use syn_path::Key;
use syn_placed::by_key::entry_at;

/// The most bytes of the spelling of a replica's tree.
pub const LONGEST_SPELLING: usize = 526_336;

/// The most nodes of a tree below its root.
pub const MOST_BELOW: usize = 1023;

/// The most entries of a directory.
pub const MOST_CHILDREN: usize = 256;

/// The most bytes of a file.
pub const LONGEST_FILE: usize = 16_384;

/// The bytes before those of a file: its kind, its mode and its length.
pub(crate) const FILE_FRONT: usize = 7;

/// The bytes of a directory before its entries: its kind, and how many they are.
pub(crate) const DIRECTORY_FRONT: usize = 3;

/// What stands at the path of the key, of entries below a root directory.
pub(crate) fn find<'a>(list: &'a [Entry], at: &Key) -> Option<Found<'a>>
    requires { AreRising (rooted list.now) }
    ensures { option_map (λ found. found_content found) result
        ≡ find path_cmp at.now (rooted list.now) }
{
    if at.is_root() {
        return Some(Found::Dir);
    }
    match entry_at(list, at) {
        Some(entry) => Some(entry.content().as_found()),
        None => None,
    }
}

/// How many bytes spell the last name with its length; none for the root.
pub fn name_spelled(key: &Key) -> usize
    ensures length { result ≡ last_name_spelling_length key.now }
    ensures short { result ≤ 65 }
    ensures lawful { IsPath key.now }
{
    is_path(key);
    match key.last_name() {
        Some(name) => 1 + name.len(),
        None => 0,
    }
}

/// How many bytes spell the entry, without what is below it.
pub(crate) fn entry_spelled(entry: &Entry) -> usize
    ensures length { result ≡ pair_spelling_length entry.now }
    ensures fits { result < 2 ^ 63 + 128 }
{
    name_spelled(entry.key()) + found_spelled(&entry.content().as_found())
}

/// How many bytes spell what was found, without what is below it.
pub fn found_spelled(found: &Found<'_>) -> usize
    ensures length { result ≡ content_spelling_length (found_content found.now) }
    ensures fits { result < 2 ^ 63 + 8 }
{
    match found {
        Found::File(_, bytes) => FILE_FRONT + bytes.len(),
        Found::Dir => DIRECTORY_FRONT,
    }
}

/// How many bytes spell the entries.
pub(crate) fn spelled(list: &[Entry]) -> usize
    requires { spelling_length list.now ≤ 526336 }
    ensures { result ≡ spelling_length list.now }
{
    let mut size = 0;
    for entry in list {
        size += entry_spelled(entry);
    }
    size
}

/// How many bytes spell the entries; none where that is more than the longest spelling of a tree.
pub fn measured(list: &[Entry]) -> Option<usize>
    ensures some { IfSome result (λ size. (size ≡ spelling_length list.now) × (size ≤ 526336)) }
    ensures none { IfNone result (526336 < spelling_length list.now) }
{
    let mut size = 0;
    for entry in list {
        size += entry_spelled(entry);
        if size > LONGEST_SPELLING {
            return None;
        }
    }
    Some(size)
}

/// So many nodes below the root, so many bytes and so many names in each directory are allowed.
pub(crate) fn is_within_limits(count: usize, length: usize, room: bool) -> bool
    ensures { result ≡ (nat_le count 1023 && nat_le length 526336 && room) }
{
    count <= MOST_BELOW && length <= LONGEST_SPELLING && room
}
