//! What each form of a tree does, whatever it keeps the tree in.
ghost use Rattle.std.specs.Prelude.{◌≡◌, ◌≢◌, ◌↔◌, false, true, Err, Some, None, option_map};
ghost use Rattle.std.specs.Prelude.{IfOk, IfErr, OnOk, OnErr};
ghost use Rattle.std.specs.FinMap.{get};
ghost use Rattle.syn_model.specs.Tree.{empty_directory, is_directory, subtree, replace, IsTree};
ghost use Rattle.syn_model.specs.Event.{after_edit};
ghost use Rattle.syn_model.specs.Limits.{fits_replica};
ghost use Rattle.syn_model.specs.Refusal.{first_cause};
ghost use Rattle.syn_model.specs.Standing.{edit_refusal, place_causes};
ghost use Rattle.syn_tree.specs.Contents.{found_content};
ghost use Rattle.syn_tree.specs.Edits.{edit_of};
ghost use Rattle.syn_tree.specs.Lists.{listing, replace_refusal};
ghost use Rattle.syn_tree.specs.Nodes.{part_of};
ghost use Rattle.syn_tree.specs.Refusals.{refusal_of, refusal_in};

use crate::plain::PlainTree;
use crate::{Edit, Found, Node, Tree, TreeError};
use std::alloc::{AllocError, Global};
use syn_path::{Name, Path};

/// A form of a tree. Contracts see the tree that it stands for, as the set of its paths, each with
/// what stands there.
pub trait TreeForm: Drop + Sized {
    ghost use Rattle.syn_model.specs.Tree.{Tree as Pairs};

    ghost tree: { Self → Pairs };

    /// The empty root directory. Refused 11 where memory is refused.
    fn new(alloc: Global) -> Result<Self, TreeError>
        ensures ok { IfOk result (λ form. tree form ≡ empty_directory) }
        ensures memory { IfErr result (λ e. e ≡ TreeError.Memory) };

    /// What stands at the path; none where nothing does.
    fn get(&self, path: &Path) -> Option<Found<'_>>
        ensures { option_map (λ found. found_content found) result
            ≡ get (tree self.now) path.now };

    /// The names in the directory, in byte order, each with whether it is a directory.
    ///
    /// Refused 5 where no directory is there, and 11 where memory is refused.
    fn list(&self, alloc: Global, path: &Path) -> Result<Vec<(Name, bool)>, TreeError>
        ensures names { IfOk result (λ names. names.items ≡ listing (tree self.now) path.now) }
        ensures absent { (result ≡ Err TreeError.Absent)
            ↔ (is_directory (tree self.now) path.now ≡ false) };

    /// What is at and below the path; none where nothing is. Refused where memory is refused.
    fn subtree(&self, alloc: Global, path: &Path) -> Result<Option<Node>, AllocError>
        ensures { IfOk result (λ node. part_of node ≡ subtree (tree self.now) path.now) };

    /// Why the edit is refused, with no change and no memory taken.
    fn check(&self, edit: &Edit) -> Result<(), TreeError>
        ensures { refusal_in result ≡ edit_refusal (tree self.now) (edit_of edit.now) };

    /// Makes the edit.
    ///
    /// Refused as `check` refuses it, and 11 where memory is refused; then nothing changes.
    fn apply(&mut self, alloc: Global, edit: Edit) -> Result<(), TreeError>
        ensures done { OnOk result (tree self.new ≡ after_edit (tree self.old) (edit_of edit)) }
        ensures same { OnErr result (tree self.new ≡ tree self.old) }
        ensures allowed { OnOk result (edit_refusal (tree self.old) (edit_of edit) ≡ None) }
        ensures refused { IfErr result (λ e. e ≢ TreeError.Memory
            → edit_refusal (tree self.old) (edit_of edit) ≡ Some (refusal_of e)) }
        ensures memory { IfErr result (λ e. e ≡ TreeError.Memory
            → edit_refusal (tree self.old) (edit_of edit) ≡ None) };

    /// Puts what is given in the place of all that is at and below the path, or takes it out.
    ///
    /// Refused 6 at the root, 2 where the parent is no directory, 7 where the tree would pass a
    /// limit, and 11 where memory is refused; then nothing changes.
    fn replace(&mut self, alloc: Global, path: &Path, new: Option<Node>) -> Result<(), TreeError>
        ensures done { OnOk result
            (tree self.new ≡ replace (tree self.old) path.now (part_of new)) }
        ensures same { OnErr result (tree self.new ≡ tree self.old) }
        ensures allowed { OnOk result
            (replace_refusal (tree self.old) path.now (part_of new) ≡ None) }
        ensures refused { IfErr result (λ e. e ≢ TreeError.Memory
            → replace_refusal (tree self.old) path.now (part_of new) ≡ Some (refusal_of e)) }
        ensures memory { IfErr result (λ e. e ≡ TreeError.Memory
            → first_cause (place_causes (tree self.old) path.now) ≡ None) };

    /// It stands for a tree whose root is a directory, within the limits of a replica.
    fn keeps(&self)
        ensures tree { IsTree (tree self.now) }
        ensures fits { fits_replica (tree self.now) ≡ true };
}

impl TreeForm for Tree {
    ghost tree = { λ t. t };

    fn new(alloc: Global) -> Result<Tree, TreeError> {
        Tree::new(alloc)
    }

    fn get(&self, path: &Path) -> Option<Found<'_>> {
        self.get(path)
    }

    fn list(&self, alloc: Global, path: &Path) -> Result<Vec<(Name, bool)>, TreeError> {
        self.list(alloc, path)
    }

    fn subtree(&self, alloc: Global, path: &Path) -> Result<Option<Node>, AllocError> {
        self.subtree(alloc, path)
    }

    fn check(&self, edit: &Edit) -> Result<(), TreeError> {
        self.check(edit)
    }

    fn apply(&mut self, alloc: Global, edit: Edit) -> Result<(), TreeError> {
        self.apply(alloc, edit)
    }

    fn replace(&mut self, alloc: Global, path: &Path, new: Option<Node>) -> Result<(), TreeError> {
        self.replace(alloc, path, new)
    }

    fn keeps(&self) {
        let _ = self.entries();
    }
}

impl TreeForm for PlainTree {
    ghost tree = { λ t. t };

    fn new(alloc: Global) -> Result<PlainTree, TreeError> {
        PlainTree::new(alloc)
    }

    fn get(&self, path: &Path) -> Option<Found<'_>> {
        self.get(path)
    }

    fn list(&self, alloc: Global, path: &Path) -> Result<Vec<(Name, bool)>, TreeError> {
        self.list(alloc, path)
    }

    fn subtree(&self, alloc: Global, path: &Path) -> Result<Option<Node>, AllocError> {
        self.subtree(alloc, path)
    }

    fn check(&self, edit: &Edit) -> Result<(), TreeError> {
        self.check(edit)
    }

    fn apply(&mut self, alloc: Global, edit: Edit) -> Result<(), TreeError> {
        self.apply(alloc, edit)
    }

    fn replace(&mut self, alloc: Global, path: &Path, new: Option<Node>) -> Result<(), TreeError> {
        self.replace(alloc, path, new)
    }

    fn keeps(&self) {
        self.limits()
    }
}
