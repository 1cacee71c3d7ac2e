//! A whole tree, within the limits of a replica by its type, with the edits and replacements that
//! change it.
ghost use Rattle.std.specs.Prelude.{◌≡◌, ◌≢◌, ◌↔◌, ◌⊎◌, Err, ◌||◌, not, nat_lt};
ghost use Rattle.std.specs.Prelude.{count_by, true, false, None, Some, option_map};
ghost use Rattle.std.specs.Prelude.{IfOk, IfErr, OnOk, OnErr};
ghost use Rattle.syn_model.specs.Tree.{empty_directory, is_directory, subtree, replace};
ghost use Rattle.syn_model.specs.Event.{Chmod, Put, after_edit};
ghost use Rattle.syn_model.specs.Limits.{children, fits_part, fits_paths, fits_replica};
ghost use Rattle.syn_model.specs.Path.{parent};
ghost use Rattle.syn_model.specs.Refusal.{first_cause};
ghost use Rattle.syn_model.specs.Standing.{edit_refusal, place_causes};
ghost use Rattle.syn_placed.specs.Pairs.{AreRising, is_child};
ghost use Rattle.syn_tree.specs.Change.{IsPreparedFor, after_change};
ghost use Rattle.syn_tree.specs.Edits.{edit_of};
ghost use Rattle.syn_tree.specs.Lists.{listing, contents_at, replace_refusal};
ghost use Rattle.syn_tree.specs.Modes.{mode_of};
ghost use Rattle.syn_tree.specs.Nodes.{part_of};
ghost use Rattle.syn_tree.specs.Refusals.{refusal_of, refusal_in};

use crate::change::Change;
use crate::checking::{Limited, check, mode_after_put};
use crate::content::{Content, Found};
use crate::edit::Edit;
use crate::entries::Entries;
use crate::entry::Entry;
use crate::error::TreeError;
use crate::lawful::are_contents;
use crate::measures::{
    DIRECTORY_FRONT, LONGEST_SPELLING, MOST_BELOW, MOST_CHILDREN, is_within_limits, measured,
    spelled,
};
use crate::mode::Mode;
use crate::node::Node;
use crate::parts::{below, children, kinds};
use crate::placing::placed;
use std::alloc::{AllocError, Global};
use std::marker::Model;
use syn_path::{Key, Name, Path};
use syn_placed::by_key::{count_children, is_directory, part_at, replace_part};

mod reading;

/// A file tree whose root is a directory, within the limits of a replica: 16,384 bytes a file, 256
/// entries a directory, 1,024 nodes with the root, 526,336 bytes of spelling, and the limits of a
/// path. Contracts see it as the set of its paths, each with what stands there.
#[derive(Debug, Drop)]
pub struct Tree {
    /// What stands below the root, in path order, with room for the most nodes: no change takes
    /// memory for the list.
    list: Vec<Entry>,
    /// How many bytes spell the tree.
    spelled: usize,
}

impl Model for Tree {
    ghost use Rattle.std.specs.Prelude.{vec_capacity};
    ghost use Rattle.syn_model.specs.Tree.{Tree as Pairs, coded_tree};

    ghost Value = { Pairs };

    ghost coded = { coded_tree };

    ghost use Rattle.syn_placed.specs.Pairs.{tree_with};
    ghost use Rattle.syn_tree.specs.inner.Kept.{IsKept};

    ghost view = { λ t. tree_with t.list.items };

    ghost invariant = { λ t. IsKept t.list.items t.spelled (vec_capacity t.list) };
}

impl Tree {
    /// The empty root directory. Refused 11 where memory is refused.
    pub fn new(alloc: Global) -> Result<Tree, TreeError>
        ensures ok { IfOk result (λ tree. tree ≡ empty_directory) }
        ensures memory { IfErr result (λ e. e ≡ TreeError.Memory) }
    {
        let list = Vec::with_capacity(alloc, MOST_BELOW)?;
        Ok(Tree {
            list,
            spelled: DIRECTORY_FRONT,
        })
    }

    /// Why the edit is refused, with no change and no memory taken.
    ///
    /// Refused 6 at the root, 2 where the parent is no directory, 3 where a file would take the
    /// place of a directory or a directory's mode would change, 4 where a directory would be made
    /// where something is, 5 where nothing is there to remove or to change, and 7 where the tree
    /// would pass a limit.
    pub fn check(&self, edit: &Edit) -> Result<(), TreeError>
        ensures { refusal_in result ≡ edit_refusal self.now (edit_of edit.now) }
    {
        check(self, edit)
    }

    /// The edit, ready to be made, with all memory for it. The tree stays as it is.
    ///
    /// Refused as `check` refuses it, and 11 where memory is refused.
    pub fn prepare(&self, alloc: Global, edit: Edit) -> Result<Change, TreeError>
        ensures ready { IfOk result (λ change. IsPreparedFor self.now change) }
        ensures gives { IfOk result (λ change. after_change self.now change
            ≡ after_edit self.now (edit_of edit)) }
        ensures allowed { IfOk result (λ _. edit_refusal self.now (edit_of edit) ≡ None) }
        ensures refused { IfErr result (λ e. e ≢ TreeError.Memory
            → edit_refusal self.now (edit_of edit) ≡ Some (refusal_of e)) }
        ensures memory { IfErr result (λ e. e ≡ TreeError.Memory
            → edit_refusal self.now (edit_of edit) ≡ None) }
    {
        self.check(&edit)?;
        self.prepare_allowed(alloc, edit)
    }

    /// The edit, ready to be made, with all memory for it, where `check` does not refuse it. The
    /// tree stays as it is. Refused 11 where memory is refused.
    pub fn prepare_allowed(&self, alloc: Global, edit: Edit) -> Result<Change, TreeError>
        requires { edit_refusal self.now (edit_of edit) ≡ None }
        ensures ready { IfOk result (λ change. IsPreparedFor self.now change) }
        ensures gives { IfOk result (λ change. after_change self.now change
            ≡ after_edit self.now (edit_of edit)) }
        ensures memory { IfErr result (λ e. e ≡ TreeError.Memory) }
    {
        match edit {
            Edit::Put(path, bytes) => self.prepare_put(alloc, &path, bytes),
            Edit::MakeDir(path) => Change::one(alloc, &path.key(), Content::Dir),
            Edit::Remove(path) => Ok(Change::none(alloc, &path.key())),
            Edit::Chmod(path, mode) => self.prepare_mode(alloc, &path, mode),
        }
    }

    /// A file with these bytes, ready to be put at the path. Refused 11 where memory is refused.
    fn prepare_put(&self, alloc: Global, path: &Path, bytes: Vec<u8>) -> Result<Change, TreeError>
        requires { edit_refusal self.now (Put path.now bytes.items) ≡ None }
        ensures ready { IfOk result (λ change. IsPreparedFor self.now change) }
        ensures gives { IfOk result (λ change. after_change self.now change
            ≡ after_edit self.now (Put path.now bytes.items)) }
        ensures memory { IfErr result (λ e. e ≡ TreeError.Memory) }
    {
        let mode = mode_after_put(self, path);
        are_contents(mode, &bytes);
        Change::one(alloc, &path.key(), Content::File(mode, bytes))
    }

    /// The file at the path with another mode, ready to be put there. Refused 11 where memory is
    /// refused.
    fn prepare_mode(&self, alloc: Global, path: &Path, mode: Mode) -> Result<Change, TreeError>
        requires { edit_refusal self.now (Chmod path.now (mode_of mode)) ≡ None }
        ensures ready { IfOk result (λ change. IsPreparedFor self.now change) }
        ensures gives { IfOk result (λ change. after_change self.now change
            ≡ after_edit self.now (Chmod path.now (mode_of mode))) }
        ensures memory { IfErr result (λ e. e ≡ TreeError.Memory) }
    {
        let Some(Found::File(_, bytes)) = self.get(path) else {
            unreachable!()
        };
        are_contents(mode, bytes);
        let bytes = Vec::from_slice(alloc, bytes)?;
        Change::one(alloc, &path.key(), Content::File(mode, bytes))
    }

    /// The replacement of all that is at and below the path, ready to be made, with all memory for
    /// it. The tree stays as it is.
    ///
    /// Refused 6 at the root, 2 where the parent is no directory, 7 where the tree would pass a
    /// limit, and 11 where memory is refused.
    pub fn prepare_replace(
        &self,
        alloc: Global,
        path: &Path,
        new: Option<Node>,
    ) -> Result<Change, TreeError>
        ensures ready { IfOk result (λ change. IsPreparedFor self.now change) }
        ensures at { IfOk result (λ change. change.at ≡ path.now) }
        ensures new { IfOk result (λ change. change.new ≡ part_of new) }
        ensures allowed { IfOk result (λ _.
            replace_refusal self.now path.now (part_of new) ≡ None) }
        ensures refused { IfErr result (λ e. e ≢ TreeError.Memory
            → replace_refusal self.now path.now (part_of new) ≡ Some (refusal_of e)) }

        // The place is looked at before memory is asked for.
        ensures memory { IfErr result (λ e. e ≡ TreeError.Memory
            → first_cause (place_causes self.now path.now) ≡ None) }
    {
        self.check_place(path)?;
        let at = path.key();
        let added = placed(alloc, &at, new)?;
        let Some(size) = measured(&added) else {
            return Err(TreeError::Full);
        };
        if self.fits(path, added.len(), size) {
            Ok(Change::placed(at, added, size))
        } else {
            Err(TreeError::Full)
        }
    }

    /// Why a replacement is refused, as far as that is seen without memory: 6 at the root, 2 where
    /// the parent is no directory, and 7 where a file is longer than a file may be.
    pub fn check_part(&self, path: &Path, new: Option<&Node>) -> Result<(), TreeError>
        ensures place { OnOk result (first_cause (place_causes self.now path.now) ≡ None) }
        ensures brief { OnOk result (fits_part
            (part_of (option_map (λ there. there.now) new.entry)) ≡ true) }
        ensures paths { OnOk result (fits_paths
            (part_of (option_map (λ there. there.now) new.entry)) ≡ true) }
        ensures refused { IfErr result (λ e. replace_refusal self.now path.now
            (part_of (option_map (λ there. there.now) new.entry)) ≡ Some (refusal_of e)) }
    {
        self.check_place(path)?;
        match new {
            None => Ok(()),
            Some(node) if !node.is_brief() => Err(TreeError::Full),
            Some(_) => Ok(()),
        }
    }

    /// Makes a change that was prepared for the tree as it is. It takes no memory.
    pub fn make(&mut self, change: Change)
        requires { IsPreparedFor self.old change }
        ensures { self.new ≡ after_change self.old change }
    {
        let (at, added, size) = change.into_parts();
        let removed = spelled(part_at(&self.list, &at));
        replace_part(&mut self.list, &at, added);
        self.spelled = self.spelled - removed + size;
    }

    /// Makes the edit.
    ///
    /// Refused as `check` refuses it, and 11 where memory is refused; then nothing changes.
    pub fn apply(&mut self, alloc: Global, edit: Edit) -> Result<(), TreeError>
        ensures done { OnOk result (self.new ≡ after_edit self.old (edit_of edit)) }
        ensures same { OnErr result (self.new ≡ self.old) }
        ensures allowed { OnOk result (edit_refusal self.old (edit_of edit) ≡ None) }
        ensures refused { IfErr result (λ e. e ≢ TreeError.Memory
            → edit_refusal self.old (edit_of edit) ≡ Some (refusal_of e)) }
        ensures memory { IfErr result (λ e. e ≡ TreeError.Memory
            → edit_refusal self.old (edit_of edit) ≡ None) }
    {
        let change = self.prepare(alloc, edit)?;
        self.make(change);
        Ok(())
    }

    /// Puts what is given in the place of all that is at and below the path, or takes it out.
    ///
    /// Refused 6 at the root, 2 where the parent is no directory, 7 where the tree would pass a
    /// limit, and 11 where memory is refused; then nothing changes.
    pub fn replace(
        &mut self,
        alloc: Global,
        path: &Path,
        new: Option<Node>,
    ) -> Result<(), TreeError>
        ensures done { OnOk result (self.new ≡ replace self.old path.now (part_of new)) }
        ensures same { OnErr result (self.new ≡ self.old) }
        ensures allowed { OnOk result (replace_refusal self.old path.now (part_of new) ≡ None) }
        ensures refused { IfErr result (λ e. e ≢ TreeError.Memory
            → replace_refusal self.old path.now (part_of new) ≡ Some (refusal_of e)) }
        ensures memory { IfErr result (λ e. e ≡ TreeError.Memory
            → first_cause (place_causes self.old path.now) ≡ None) }
    {
        let change = self.prepare_replace(alloc, path, new)?;
        self.make(change);
        Ok(())
    }

    /// What stands in the directory, with its name, in byte order of the names.
    ///
    /// Refused 5 where no directory is there, and 11 where memory is refused.
    pub fn children(&self, alloc: Global, path: &Path) -> Result<Vec<(Name, Found<'_>)>, TreeError>
        ensures children { IfOk result
            (λ found. contents_at found.items ≡ children self.now path.now) }
        ensures directory { OnOk result (is_directory self.now path.now ≡ true) }
        ensures absent { (result ≡ Err TreeError.Absent)
            ↔ (is_directory self.now path.now ≡ false) }
        ensures refusals { IfErr result (λ e. (e ≡ TreeError.Absent) ⊎ (e ≡ TreeError.Memory)) }
    {
        match self.get(path) {
            Some(Found::Dir) => {
                let at = path.key();
                children(alloc, part_at(&self.list, &at), &at)
            }
            _ => Err(TreeError::Absent),
        }
    }

    /// The names in the directory, in byte order, each with whether it is a directory.
    ///
    /// Refused 5 where no directory is there, and 11 where memory is refused.
    pub fn list(&self, alloc: Global, path: &Path) -> Result<Vec<(Name, bool)>, TreeError>
        ensures names { IfOk result (λ names. names.items ≡ listing self.now path.now) }
        ensures directory { OnOk result (is_directory self.now path.now ≡ true) }
        ensures absent { (result ≡ Err TreeError.Absent)
            ↔ (is_directory self.now path.now ≡ false) }
        ensures refusals { IfErr result (λ e. (e ≡ TreeError.Absent) ⊎ (e ≡ TreeError.Memory)) }
    {
        Ok(kinds(alloc, self.children(alloc, path)?)?)
    }

    /// What is at and below the path; none where nothing is. Refused where memory is refused.
    pub fn subtree(&self, alloc: Global, path: &Path) -> Result<Option<Node>, AllocError>
        ensures { IfOk result (λ node. part_of node ≡ subtree self.now path.now) }
    {
        match self.get(path) {
            None => Ok(None),
            Some(Found::File(mode, bytes)) => {
                let bytes = Vec::from_slice(alloc, bytes)?;
                Ok(Some(Node::File(mode, bytes)))
            }
            Some(Found::Dir) => {
                let at = path.key();
                let list = below(alloc, part_at(&self.list, &at), &at)?;
                Ok(Some(Node::Dir(Entries::lawful(list))))
            }
        }
    }

    /// The tree with these entries below its root.
    ///
    /// Refused 7 where it would pass a limit, and 11 where memory is refused.
    pub fn from_entries(alloc: Global, entries: Entries) -> Result<Tree, TreeError>
        ensures ok { IfOk result (λ tree. tree ≡ entries) }
        ensures fits { OnOk result (fits_replica entries ≡ true) }
        ensures refused { IfErr result (λ e. e ≢ TreeError.Memory → (e ≡ TreeError.Full)
            × (fits_replica entries ≡ false)) }
    {
        let mut list = entries.into_vec();
        let Some(below) = measured(&list) else {
            return Err(TreeError::Full);
        };
        let spelled = below + DIRECTORY_FRONT;
        if spelled > LONGEST_SPELLING {
            return Err(TreeError::Full);
        }
        if list.len() > MOST_BELOW {
            return Err(TreeError::Full);
        }
        list.reserve(MOST_BELOW - list.len())?;
        Ok(Tree { list, spelled })
    }
}

impl Limited for Tree {
    ghost tree = { λ t. t };

    fn get(&self, path: &Path) -> Option<Found<'_>> {
        self.get(path)
    }

    fn check_place(&self, path: &Path) -> Result<(), TreeError> {
        if path.key().is_root() {
            return Err(TreeError::Root);
        }
        if is_directory(&self.list, &path.parent_key()) {
            Ok(())
        } else {
            Err(TreeError::NoParent)
        }
    }

    fn fits(&self, path: &Path, nodes: usize, size: usize) -> bool {
        let part = part_at(&self.list, &path.key());
        let count = self.list.len() - part.len() + nodes;
        let length = self.spelled - spelled(part) + size;
        let room = has_room(&self.list, path, !part.is_empty(), nodes);
        is_within_limits(count, length, room)
    }

    fn limits(&self) {
        let _ = self.list.len();
    }
}

/// The directory of the path has a place for what is put there, where something stands there or it
/// has not the most entries.
fn has_room(list: &[Entry], path: &Path, stands: bool, nodes: usize) -> bool
    requires { AreRising list.now }
    ensures { result
        ≡
        (stands || (not (nat_lt 0 nodes) || nat_lt
        (count_by (λ pair. is_child (parent path.now) pair.0) list.now) 256)) }
{
    stands || nodes == 0 || has_place(list, &path.parent_key())
}

/// The directory at the path of the key has not the most entries.
fn has_place(list: &[Entry], above: &Key) -> bool
    requires { AreRising list.now }
    ensures { result ≡ nat_lt (count_by (λ pair. is_child above.now pair.0) list.now) 256 }
{
    let part = part_at(list, above);
    // where so few stand below it, no more stand in it
    part.len() < MOST_CHILDREN || count_children(part, above) < MOST_CHILDREN
}
