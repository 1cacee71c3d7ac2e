//! Entries with keys, in path order. What is at and below a path is one range of them.
ghost use Rattle.std.specs.Prelude.{◌≡◌, ◌≤◌, ◌+◌, ◌++◌, length, filter, count_by, option_map};
ghost use Rattle.std.specs.Prelude.{vec_len, vec_capacity, IsTrue, ◌↔◌};
ghost use Rattle.std.specs.Ordering.{eq_by_cmp, is_lt};
ghost use Rattle.std.specs.FinMap.{find};
ghost use Rattle.syn_model.specs.Path.{path_cmp};
ghost use Rattle.syn_model.specs.Tree.{is_directory_content};
ghost use Rattle.syn_placed.specs.Pairs.{rooted, AreRising, is_before, is_within, before, within};
ghost use Rattle.syn_placed.specs.Pairs.{beyond, is_below, is_child};

use crate::keyed::Keyed;
use crate::placed::EntryKind;
use crate::runs::{replace_run, run_of};
use std::cmp::Ordering;
use syn_path::Key;

/// The paths strictly rise, from the root's on.
pub fn are_rising<C: EntryKind>(list: &[Keyed<C>]) -> bool
    ensures { IsTrue result ↔ AreRising (rooted list.now) }
{
    let mut last = Key::root();
    for entry in list {
        if !comes_before(&last, entry.key()) {
            return false;
        }
        last = *entry.key();
    }
    true
}

/// The path of the key stands before that of the other.
fn comes_before(key: &Key, other: &Key) -> bool
    ensures { result ≡ is_lt (path_cmp key.now other.now) }
{
    key.cmp(other) == Ordering::Less
}

/// The entry stands before the key.
fn is_before<C: EntryKind>(entry: &Keyed<C>, at: &Key) -> bool
    ensures { result ≡ is_before at.now entry.now }
{
    entry.key().cmp(at) == Ordering::Less
}

/// The entry stands at the key.
fn is_at<C: EntryKind>(entry: &Keyed<C>, at: &Key) -> bool
    ensures { result ≡ eq_by_cmp path_cmp entry.now.0 at.now }
{
    entry.key().cmp(at) == Ordering::Equal
}

/// The entry stands at the key, or at that of a path below it.
fn is_within<C: EntryKind>(entry: &Keyed<C>, at: &Key) -> bool
    ensures { result ≡ is_within at.now entry.now }
{
    at.is_prefix(entry.key())
}

/// The entry stands in the directory at the key.
fn is_child<C: EntryKind>(entry: &Keyed<C>, above: &Key) -> bool
    ensures { result ≡ is_child above.now entry.now.0 }
{
    entry.key().is_child(above)
}

/// How many entries stand before the key.
fn count_before<C: EntryKind>(list: &[Keyed<C>], at: &Key) -> usize
    requires { AreRising list.now }
    ensures { result ≡ length (before at.now list.now) }
{
    list.partition_point(|entry| is_before(entry, at))
}

/// Where the entries at and below the path begin, and how many they are.
fn range_of<C: EntryKind>(list: &[Keyed<C>], at: &Key) -> (usize, usize)
    requires { AreRising list.now }
    ensures start { result.0 ≡ length (before at.now list.now) }
    ensures count { result.1 ≡ length (within at.now list.now) }
{
    let start = count_before(list, at);
    let (_, others) = list.split_at(start);
    let count = others.partition_point(|entry| is_within(entry, at));
    (start, count)
}

/// The entries at and below the path.
pub fn part_at<'a, C: EntryKind>(list: &'a [Keyed<C>], at: &Key) -> &'a [Keyed<C>]
    requires { AreRising list.now }
    ensures { result.now ≡ within at.now list.now }
{
    let (start, count) = range_of(list, at);
    run_of(list, start, count)
}

/// The entries below the path, without the one at it.
pub fn part_below<'a, C: EntryKind>(list: &'a [Keyed<C>], at: &Key) -> &'a [Keyed<C>]
    requires { AreRising list.now }
    ensures { result.now ≡ filter (is_below at.now) list.now }
{
    let part = part_at(list, at);
    let [first, rest @ ..] = part else {
        return part;
    };
    if is_at(first, at) { rest } else { part }
}

/// The entry at the path; none where nothing stands there.
pub fn entry_at<'a, C: EntryKind>(list: &'a [Keyed<C>], at: &Key) -> Option<&'a Keyed<C>>
    requires { AreRising list.now }
    ensures { option_map (λ entry. entry.now.1) result ≡ find path_cmp at.now list.now }
{
    let place = count_before(list, at);
    let Some(entry) = list.get(place) else {
        return None;
    };
    if is_at(entry, at) { Some(entry) } else { None }
}

/// A directory stands at the path, among entries below a root directory.
pub fn is_directory<C: EntryKind>(list: &[Keyed<C>], at: &Key) -> bool
    requires { AreRising (rooted list.now) }
    ensures { result ≡ is_directory_content (find path_cmp at.now (rooted list.now)) }
{
    if at.is_root() {
        return true;
    }
    match entry_at(list, at) {
        Some(entry) => entry.content().is_directory(),
        None => false,
    }
}

/// How many entries stand in the directory at the path.
pub fn count_children<C: EntryKind>(list: &[Keyed<C>], above: &Key) -> usize
    ensures { result ≡ count_by (λ pair. is_child above.now pair.0) list.now }
{
    list.iter().filter(|entry| is_child(entry, above)).count()
}

/// How many entries stand in the directory at the path, by a count in the part below it alone.
pub fn count_children_at<C: EntryKind>(list: &[Keyed<C>], at: &Key) -> usize
    requires { AreRising list.now }
    ensures { result ≡ count_by (λ pair. is_child at.now pair.0) list.now }
{
    count_children(part_at(list, at), at)
}

/// Puts these entries in the place of what is at and below the path.
pub fn replace_part<C: EntryKind>(list: &mut Vec<Keyed<C>>, at: &Key, added: Vec<Keyed<C>>)
    requires rising { AreRising list.old.items }
    requires room { length (before at.now list.old.items) + length
        (beyond at.now list.old.items) + vec_len added ≤ vec_capacity list.old }
    ensures items { list.new.items ≡ before at.now list.old.items
        ++ (added.items ++ beyond at.now list.old.items) }
    ensures room { vec_capacity list.old ≤ vec_capacity list.new }
{
    let (start, count) = range_of(list, at);
    replace_run(list, start, count, added);
}
