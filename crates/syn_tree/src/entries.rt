//! What stands below a directory, lawful by its type but for the limits of a whole tree. A reader
//! checks here what it has read.
ghost use Rattle.std.specs.Prelude.{◌≡◌, true, length, IfOk, IfSome, IfNone, IsTrue};
ghost use Rattle.std.specs.FinMap.{entries};
ghost use Rattle.syn_model.specs.Tree.{IsTree, empty_directory};
ghost use Rattle.syn_model.specs.Limits.{children, fits_part, fits_paths, fits_content};
ghost use Rattle.syn_placed.specs.Pairs.{rooted, tree_with, AreRising};
ghost use Rattle.std.specs.List.{list_all};
ghost use Rattle.syn_tree.specs.Contents.{IsLawful};
ghost use Rattle.syn_tree.specs.Entries.{AreEntries, has_few, stands_in, IsLawfulPair, AreLawful};

use crate::content::Found;
use crate::cursor::Cursor;
use crate::entry::Entry;
use crate::lawful::{are_contents, is_path};
use crate::measures::{LONGEST_FILE, MOST_CHILDREN};
use crate::pair::Pair;
use std::alloc::{AllocError, Global};
use std::marker::Model;
use syn_path::{Key, Path};
use syn_placed::EntryKind;
use syn_placed::by_key::{are_rising, count_children, count_children_at, is_directory};

/// What stands below a directory, in path order: 256 entries a directory, 16,384 bytes a file, and
/// each path, taken from the directory, within the limits of a path. The number of nodes and their
/// size are limits of a whole tree alone. Contracts see it as the tree with that directory as its
/// root.
#[derive(Debug, Drop)]
pub struct Entries {
    list: Vec<Entry>,
}

impl Model for Entries {
    ghost use Rattle.syn_model.specs.Tree.{Tree, coded_tree};

    ghost Value = { Tree };

    ghost coded = { coded_tree };

    ghost use Rattle.syn_placed.specs.Pairs.{tree_with, AreRising};
    ghost use Rattle.std.specs.List.{list_all};
    ghost use Rattle.syn_model.specs.Limits.{fits_content};
    ghost use Rattle.syn_tree.specs.Contents.{IsLawful};
    ghost use Rattle.syn_tree.specs.Entries.{AreEntries, stands_in, IsLawfulPair, AreLawful};

    ghost view = { λ e. tree_with e.list.items };

    ghost invariant = { λ e. AreEntries e.list.items };
}

impl Entries {
    /// Nothing below a directory.
    pub fn new(alloc: Global) -> Entries
        ensures { result ≡ empty_directory }
    {
        Entries {
            list: Vec::new(alloc),
        }
    }

    /// These entries, which are lawful.
    pub fn lawful(list: Vec<Entry>) -> Entries
        requires { AreEntries list.items }
        ensures { result ≡ tree_with list.items }
    {
        Entries { list }
    }

    /// These entries, where they stand in path order, each below a directory, and keep the limits;
    /// else none.
    pub fn from_vec(list: Vec<Entry>) -> Option<Entries>
        ensures some { IfSome result (λ all. rooted list.items ≡ entries all) }
        ensures none { IfNone result (¬ AreEntries list.items) }
    {
        if !are_rising(&list) {
            return None;
        }
        if !all_stand(&list) {
            return None;
        }
        if count_children(&list, &Key::root()) > MOST_CHILDREN {
            return None;
        }
        Some(Entries { list })
    }

    /// Equal entries of their own. Refused where memory is refused.
    pub fn copy(&self, alloc: Global) -> Result<Entries, AllocError>
        ensures { IfOk result (λ copy. copy ≡ self.now) }
    {
        let list = copies(alloc, &self.list)?;
        Ok(Entries { list })
    }

    /// What stands below the directory, in path order.
    pub fn iter(&self) -> Cursor<'_>
        ensures all { rooted result ≡ entries self.now }
        ensures tree { IsTree self.now }
        ensures part { fits_part self.now ≡ true }
        ensures paths { fits_paths self.now ≡ true }
    {
        Cursor::over(&self.list)
    }

    /// How many names are in the directory at the path, which is taken from the directory that
    /// these stand below; none where no directory is there. The work grows with what is below the
    /// path, and not with all entries.
    pub fn child_count(&self, path: &Path) -> usize
        ensures { result ≡ length (children self.now path.now) }
    {
        count_children_at(&self.list, &path.key())
    }

    /// How many names are in the directory that the pair is; none where it is a file. The work
    /// grows with what is below it.
    pub fn child_count_of(&self, pair: &Pair<'_>) -> usize
        ensures { result ≡ length (children self.now pair.now.0) }
    {
        count_children_at(&self.list, pair.entry().key())
    }

    /// The entries in path order.
    pub fn into_vec(self) -> Vec<Entry>
        ensures all { rooted result.items ≡ entries self }
        ensures tree { IsTree self }
        ensures part { fits_part self ≡ true }
        ensures paths { fits_paths self ≡ true }
    {
        self.list
    }
}

/// Equal entries of their own. Refused where memory is refused.
fn copies(alloc: Global, list: &[Entry]) -> Result<Vec<Entry>, AllocError>
    ensures { IfOk result (λ copies. copies.items ≡ list.now) }
{
    let mut copies = Vec::with_capacity(alloc, list.len())?;
    for entry in list {
        let content = entry.content().copy(alloc)?;
        copies.push(Entry::new(alloc, entry.key(), content)?)?;
    }
    Ok(copies)
}

/// Each of the entries stands in a directory, and keeps the limits of a file and a directory.
fn all_stand(list: &[Entry]) -> bool
    requires { AreRising (rooted list.now) }
    ensures value { result ≡ list_all (stands_in list.now) list.now }
    ensures lawful { IsTrue result → AreLawful list.now }
{
    for entry in list {
        if !stands_among(list, entry) {
            return false;
        }
    }
    true
}

/// The entry stands in a directory, and keeps the limits of a file and a directory.
fn stands_among(list: &[Entry], entry: &Entry) -> bool
    requires { AreRising (rooted list.now) }
    ensures value { result ≡ stands_in list.now entry.now }
    ensures lawful { IsLawfulPair entry.now }
{
    is_path(entry.key());
    let placed = is_directory(list, &entry.key().parent());
    let brief = is_brief(entry);
    let few = has_few(list, entry);
    placed && brief && few
}

/// The entry is a file, or a directory with no more entries than are allowed.
fn has_few(list: &[Entry], entry: &Entry) -> bool
    requires { AreRising (rooted list.now) }
    ensures { result ≡ has_few list.now entry.now }
{
    !entry.content().is_directory() || count_children_at(list, entry.key()) <= MOST_CHILDREN
}

/// The entry is a directory, or a file within its limit.
fn is_brief(entry: &Entry) -> bool
    ensures value { result ≡ fits_content entry.now.1 }
    ensures lawful { IsLawful entry.now.1 }
{
    match entry.content().as_found() {
        Found::File(mode, bytes) => {
            are_contents(mode, bytes);
            bytes.len() <= LONGEST_FILE
        }
        Found::Dir => true,
    }
}
