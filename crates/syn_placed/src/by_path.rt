//! Entries in path order, of trees and of marks alike.
ghost use Rattle.std.specs.Prelude.{◌≡◌, ◌≤◌, ◌<◌, ◌+◌, ◌++◌, length, filter, count_by, option_map};
ghost use Rattle.std.specs.Prelude.{IsTrue, ◌↔◌, vec_len, vec_capacity};
ghost use Rattle.std.specs.Ordering.{eq_by_cmp, is_lt};
ghost use Rattle.std.specs.FinMap.{find};
ghost use Rattle.syn_model.specs.Path.{path_cmp, parent};
ghost use Rattle.syn_model.specs.Tree.{is_directory_content};
ghost use Rattle.syn_placed.specs.Pairs.{rooted, AreRising, is_before, is_within, before, within};
ghost use Rattle.syn_placed.specs.Pairs.{beyond, is_below, is_child};

use crate::placed::{EntryKind, Placed};
use crate::runs::{replace_run, run_of};
use std::cmp::Ordering;
use syn_path::{Name, Path};

/// The paths strictly rise, from the root's on.
pub fn are_rising<C: EntryKind>(list: &[Placed<C>]) -> bool
    ensures { IsTrue result ↔ AreRising (rooted list.now) }
{
    let mut last: &[Name] = &[];
    for entry in list {
        if !comes_before(last, entry.path()) {
            return false;
        }
        last = entry.path().names();
    }
    true
}

/// The path of these names stands before the other.
fn comes_before(names: &[Name], path: &Path) -> bool
    ensures { result ≡ is_lt (path_cmp names.now path.now) }
{
    names.cmp(&path.names()) == Ordering::Less
}

/// The entry stands before the path of these names.
fn is_before<C: EntryKind>(entry: &Placed<C>, names: &[Name]) -> bool
    ensures { result ≡ is_before names.now entry.now }
{
    entry.path().names().cmp(&names) == Ordering::Less
}

/// The entry stands at the path of these names.
fn is_at<C: EntryKind>(entry: &Placed<C>, names: &[Name]) -> bool
    ensures { result ≡ eq_by_cmp path_cmp entry.now.0 names.now }
{
    entry.path().names().cmp(&names) == Ordering::Equal
}

/// The entry stands at or below the path of these names.
fn is_within<C: EntryKind>(entry: &Placed<C>, names: &[Name]) -> bool
    ensures { result ≡ is_within names.now entry.now }
{
    entry.path().names().starts_with(names)
}

/// How many entries stand before the path of these names.
pub fn count_before<C: EntryKind>(list: &[Placed<C>], names: &[Name]) -> usize
    requires { AreRising list.now }
    ensures { result ≡ length (before names.now list.now) }
{
    list.partition_point(|entry| is_before(entry, names))
}

/// Where the entries at and below the path of these names begin, and how many they are.
fn range_of<C: EntryKind>(list: &[Placed<C>], names: &[Name]) -> (usize, usize)
    requires { AreRising list.now }
    ensures start { result.0 ≡ length (before names.now list.now) }
    ensures count { result.1 ≡ length (within names.now list.now) }
{
    let start = count_before(list, names);
    let (_, others) = list.split_at(start);
    let count = others.partition_point(|entry| is_within(entry, names));
    (start, count)
}

/// The entries at and below the path of these names.
pub fn part_at<'a, C: EntryKind>(list: &'a [Placed<C>], names: &[Name]) -> &'a [Placed<C>]
    requires { AreRising list.now }
    ensures { result.now ≡ within names.now list.now }
{
    let (start, count) = range_of(list, names);
    run_of(list, start, count)
}

/// The entries below the path, without the one at it.
pub fn part_below<'a, C: EntryKind>(list: &'a [Placed<C>], at: &Path) -> &'a [Placed<C>]
    requires { AreRising list.now }
    ensures { result.now ≡ filter (is_below at.now) list.now }
{
    let names = at.names();
    let part = part_at(list, names);
    let [first, rest @ ..] = part else {
        return part;
    };
    if is_at(first, names) { rest } else { part }
}

/// The entry at the path of these names; none where nothing stands there.
pub fn entry_at<'a, C: EntryKind>(list: &'a [Placed<C>], names: &[Name]) -> Option<&'a Placed<C>>
    requires { AreRising list.now }
    ensures { option_map (λ entry. entry.now.1) result ≡ find path_cmp names.now list.now }
{
    let at = count_before(list, names);
    let Some(entry) = list.get(at) else {
        return None;
    };
    if is_at(entry, names) {
        Some(entry)
    } else {
        None
    }
}

/// A directory stands at the path of these names, among entries below a root directory.
pub fn is_directory<C: EntryKind>(list: &[Placed<C>], names: &[Name]) -> bool
    requires { AreRising (rooted list.now) }
    ensures { result ≡ is_directory_content (find path_cmp names.now (rooted list.now)) }
{
    if names.is_empty() {
        return true;
    }
    match entry_at(list, names) {
        Some(entry) => entry.content().is_directory(),
        None => false,
    }
}

/// The path is one name longer than the names above it.
pub fn is_child(above: &[Name], path: &Path) -> bool
    ensures { result ≡ is_child above.now path.now }
{
    match path.names() {
        [] => false,
        [before @ .., _] => before.cmp(&above) == Ordering::Equal,
    }
}

/// The names of the parent; of the root, none.
pub fn parent_names(path: &Path) -> &[Name]
    ensures { result.now ≡ parent path.now }
{
    match path.names() {
        [] => path.names(),
        [above @ .., _] => above,
    }
}

/// How many entries stand in the directory of these names.
pub fn count_children<C: EntryKind>(list: &[Placed<C>], above: &[Name]) -> usize
    ensures { result ≡ count_by (λ pair. is_child above.now pair.0) list.now }
{
    list.iter()
        .filter(|entry| is_child(above, entry.path()))
        .count()
}

/// How many entries stand in the directory at the path, by a count in the part below it alone.
pub fn count_children_at<C: EntryKind>(list: &[Placed<C>], at: &Path) -> usize
    requires { AreRising list.now }
    ensures { result ≡ count_by (λ pair. is_child at.now pair.0) list.now }
{
    let names = at.names();
    count_children(part_at(list, names), names)
}

/// Puts these entries in the place of what is at and below the path.
pub fn replace_part<C: EntryKind>(list: &mut Vec<Placed<C>>, at: &Path, added: Vec<Placed<C>>)
    requires rising { AreRising list.old.items }
    requires room { length (before at.now list.old.items) + length
        (beyond at.now list.old.items) + vec_len added ≤ vec_capacity list.old }
    ensures items { list.new.items ≡ before at.now list.old.items
        ++ (added.items ++ beyond at.now list.old.items) }
    ensures room { vec_capacity list.old ≤ vec_capacity list.new }
{
    let (start, count) = range_of(list, at.names());
    replace_run(list, start, count, added);
}
