//! A tree as a list of paths, each with what stands there.
ghost use Rattle.std.specs.Prelude.{◌≡◌, ◌≢◌, ◌↔◌, ◌⊎◌, Err, ◌||◌, not, nat_lt};
ghost use Rattle.std.specs.Prelude.{count_by, true, false, None, Some, option_map};
ghost use Rattle.std.specs.Prelude.{IfOk, IfErr, OnOk, OnErr};
ghost use Rattle.std.specs.FinMap.{get};
ghost use Rattle.syn_model.specs.Tree.{empty_directory, is_directory, subtree, replace, IsTree};
ghost use Rattle.syn_model.specs.Event.{after_edit};
ghost use Rattle.syn_model.specs.Limits.{fits_replica};
ghost use Rattle.syn_model.specs.Path.{is_root, parent};
ghost use Rattle.syn_model.specs.Refusal.{first_cause};
ghost use Rattle.syn_model.specs.Standing.{edit_refusal, place_causes};
ghost use Rattle.syn_placed.specs.Pairs.{AreRising, is_child};
ghost use Rattle.syn_tree.specs.Change.{ArePlaced, taken_from};
ghost use Rattle.syn_tree.specs.Contents.{found_content};
ghost use Rattle.syn_tree.specs.Edits.{edit_of};
ghost use Rattle.syn_tree.specs.Lists.{listing, replace_refusal};
ghost use Rattle.syn_tree.specs.Nodes.{part_of};
ghost use Rattle.syn_tree.specs.Refusals.{refusal_of, refusal_in};

use crate::checking::{Limited, check, mode_after_put};
use crate::listed::{Entry, find, spelled, with_keys, with_paths};
use crate::measures::{MOST_BELOW, MOST_CHILDREN, is_within_limits, measured};
use crate::parts::{below, children, kinds};
use crate::placing::placed;
use crate::{Edit, Entries, Found, Node, TreeError};
use std::alloc::{AllocError, Global};
use std::marker::Model;
use syn_path::{Name, Path};
use syn_placed::by_path::{count_children, is_directory, parent_names, part_at, replace_part};

/// A tree as a list of paths in path order, each with what stands there. It keeps the limits that
/// the tree of a replica keeps, and answers each call as that one does. Contracts see it as the set
/// of its paths, each with what stands there.
#[derive(Debug, Drop)]
pub struct PlainTree {
    /// What stands below the root, in path order, with room for the most nodes: no change takes
    /// memory for the list.
    list: Vec<Entry>,
    /// How many bytes spell the tree.
    spelled: usize,
}

impl Model for PlainTree {
    ghost use Rattle.std.specs.Prelude.{vec_capacity};
    ghost use Rattle.syn_model.specs.Tree.{Tree as Pairs, coded_tree};

    ghost Value = { Pairs };

    ghost coded = { coded_tree };

    ghost use Rattle.syn_placed.specs.Pairs.{tree_with};
    ghost use Rattle.syn_tree.specs.inner.Kept.{IsKept};

    ghost view = { λ t. tree_with t.list.items };

    ghost invariant = { λ t. IsKept t.list.items t.spelled (vec_capacity t.list) };
}

impl PlainTree {
    /// The empty root directory. Refused 11 where memory is refused.
    pub fn new(alloc: Global) -> Result<PlainTree, TreeError>
        ensures ok { IfOk result (λ tree. tree ≡ empty_directory) }
        ensures memory { IfErr result (λ e. e ≡ TreeError.Memory) }
    {
        let list = Vec::with_capacity(alloc, MOST_BELOW)?;
        Ok(PlainTree { list, spelled: 3 })
    }

    /// What stands at the path; none where nothing does.
    pub fn get(&self, path: &Path) -> Option<Found<'_>>
        ensures { option_map (λ found. found_content found) result ≡ get self.now path.now }
    {
        find(&self.list, path.names())
    }

    /// It is a tree within the limits of a replica.
    pub fn limits(&self)
        ensures tree { IsTree self.now }
        ensures fits { fits_replica self.now ≡ true }
    {
        let _ = self.list.len();
    }

    /// Why the edit is refused, with no change and no memory taken.
    ///
    /// Refused 6 at the root, 2 where the parent is no directory, 3 where a file would take the
    /// place of a directory, 4 where a directory would be made where something is, 5 where nothing
    /// is there to remove, and 7 where the tree would pass a limit.
    pub fn check(&self, edit: &Edit) -> Result<(), TreeError>
        ensures { refusal_in result ≡ edit_refusal self.now (edit_of edit.now) }
    {
        check(self, edit)
    }

    /// Makes the edit.
    ///
    /// Refused as `check` refuses it, and 11 where memory is refused; then nothing changes.
    pub fn apply(&mut self, alloc: Global, edit: Edit) -> Result<(), TreeError>
        ensures done { OnOk result (self.new ≡ after_edit self.old (edit_of edit)) }
        ensures same { OnErr result (self.new ≡ self.old) }
        ensures allowed { OnOk result (edit_refusal self.old (edit_of edit) ≡ None) }
        ensures refused { IfErr result (λ e. e ≢ TreeError.Memory
            → edit_refusal self.old (edit_of edit) ≡ Some (refusal_of e)) }
        ensures memory { IfErr result (λ e. e ≡ TreeError.Memory
            → edit_refusal self.old (edit_of edit) ≡ None) }
    {
        self.check(&edit)?;
        match edit {
            Edit::Put(path, bytes) => {
                let mode = mode_after_put(self, &path);
                self.replace(alloc, &path, Some(Node::File(mode, bytes)))
            }
            Edit::MakeDir(path) => self.replace(alloc, &path, Some(Node::Dir(Entries::new(alloc)))),
            Edit::Remove(path) => self.replace(alloc, &path, None),
            Edit::Chmod(path, mode) => {
                let Some(Found::File(_, bytes)) = self.get(&path) else {
                    unreachable!()
                };
                let bytes = Vec::from_slice(alloc, bytes)?;
                self.replace(alloc, &path, Some(Node::File(mode, bytes)))
            }
        }
    }

    /// Puts what is given in the place of all that is at and below the path, or takes it out.
    ///
    /// Refused 6 at the root, 2 where the parent is no directory, 7 where the tree would pass a
    /// limit, and 11 where memory is refused; then nothing changes.
    pub fn replace(
        &mut self,
        alloc: Global,
        path: &Path,
        new: Option<Node>,
    ) -> Result<(), TreeError>
        ensures done { OnOk result (self.new ≡ replace self.old path.now (part_of new)) }
        ensures same { OnErr result (self.new ≡ self.old) }
        ensures allowed { OnOk result (replace_refusal self.old path.now (part_of new) ≡ None) }
        ensures refused { IfErr result (λ e. e ≢ TreeError.Memory
            → replace_refusal self.old path.now (part_of new) ≡ Some (refusal_of e)) }
        ensures memory { IfErr result (λ e. e ≡ TreeError.Memory
            → first_cause (place_causes self.old path.now) ≡ None) }
    {
        self.check_place(path)?;
        let added = placed(alloc, &path.key(), new)?;
        let Some(size) = measured(&added) else {
            return Err(TreeError::Full);
        };
        if !self.fits(path, added.len(), size) {
            return Err(TreeError::Full);
        }
        let entries = with_paths(alloc, added)?;
        self.put(path, entries, size);
        Ok(())
    }

    /// Puts these entries, spelled with so many bytes, in the place of what is at and below the
    /// path.
    fn put(&mut self, path: &Path, added: Vec<Entry>, size: usize)
        requires placed { ArePlaced path.now added.items size }
        requires below { is_root path.now ≡ false }
        requires parent { is_directory self.old (parent path.now) ≡ true }
        requires fits { fits_replica (replace self.old path.now (taken_from path.now added.items))
            ≡ true }
        ensures { self.new ≡ replace self.old path.now (taken_from path.now added.items) }
    {
        let removed = spelled(part_at(&self.list, path.names()));
        replace_part(&mut self.list, path, added);
        self.spelled = self.spelled - removed + size;
    }

    /// The names in the directory, in byte order, each with whether it is a directory.
    ///
    /// Refused 5 where no directory is there, and 11 where memory is refused.
    pub fn list(&self, alloc: Global, path: &Path) -> Result<Vec<(Name, bool)>, TreeError>
        ensures names { IfOk result (λ names. names.items ≡ listing self.now path.now) }
        ensures directory { OnOk result (is_directory self.now path.now ≡ true) }
        ensures absent { (result ≡ Err TreeError.Absent)
            ↔ (is_directory self.now path.now ≡ false) }
        ensures refusals { IfErr result (λ e. (e ≡ TreeError.Absent) ⊎ (e ≡ TreeError.Memory)) }
    {
        match self.get(path) {
            Some(Found::Dir) => {
                let part = with_keys(alloc, part_at(&self.list, path.names()))?;
                Ok(kinds(alloc, children(alloc, &part, &path.key())?)?)
            }
            _ => Err(TreeError::Absent),
        }
    }

    /// What is at and below the path; none where nothing is. Refused where memory is refused.
    pub fn subtree(&self, alloc: Global, path: &Path) -> Result<Option<Node>, AllocError>
        ensures { IfOk result (λ node. part_of node ≡ subtree self.now path.now) }
    {
        match self.get(path) {
            None => Ok(None),
            Some(Found::File(mode, bytes)) => {
                let bytes = Vec::from_slice(alloc, bytes)?;
                Ok(Some(Node::File(mode, bytes)))
            }
            Some(Found::Dir) => {
                let part = with_keys(alloc, part_at(&self.list, path.names()))?;
                let list = below(alloc, &part, &path.key())?;
                Ok(Some(Node::Dir(Entries::lawful(list))))
            }
        }
    }
}

impl Limited for PlainTree {
    ghost tree = { λ t. t };

    fn get(&self, path: &Path) -> Option<Found<'_>> {
        self.get(path)
    }

    fn check_place(&self, path: &Path) -> Result<(), TreeError> {
        let [above @ .., _] = path.names() else {
            return Err(TreeError::Root);
        };
        if is_directory(&self.list, above) {
            Ok(())
        } else {
            Err(TreeError::NoParent)
        }
    }

    fn fits(&self, path: &Path, nodes: usize, size: usize) -> bool {
        let part = part_at(&self.list, path.names());
        let count = self.list.len() - part.len() + nodes;
        let length = self.spelled - spelled(part) + size;
        let room = has_room(&self.list, path, !part.is_empty(), nodes);
        is_within_limits(count, length, room)
    }

    fn limits(&self) {
        self.limits()
    }
}

/// The directory of the path has a place for what is put there, where something stands there or it
/// has not the most entries.
fn has_room(list: &[Entry], path: &Path, stands: bool, nodes: usize) -> bool
    requires { AreRising list.now }
    ensures { result
        ≡
        (stands || (not (nat_lt 0 nodes) || nat_lt
        (count_by (λ pair. is_child (parent path.now) pair.0) list.now) 256)) }
{
    stands || nodes == 0 || count_children(list, parent_names(path)) < MOST_CHILDREN
}
