//! What is asked of a folder.
ghost use Rattle.std.specs.Prelude.{◌≡◌, List, map, OnOk, IfErr};
ghost use Rattle.syn_change.specs.Changes.{after_edits};
ghost use Rattle.syn_model.specs.Tree.{Tree as Pairs};
ghost use Rattle.syn_tree.specs.Edits.{edit_of};
ghost use Rattle.syn_folder.specs.Refusals.{IsOfSystem};
ghost use Rattle.syn_folder.specs.declared.stranger.Stranger.{Stranger as Strange};

use crate::error::FolderError;
use crate::stranger::Stranger;
use std::alloc::Global;
use syn_tree::{Edit, Tree};

/// A folder. Contracts see the tree of the files and directories that stand in it, and what else
/// does.
pub trait Folder {
    ghost tree: { Self → Pairs };

    ghost strangers: { Self → List Strange };

    /// The files and directories that stand in it.
    fn tree(&self) -> &Tree
        ensures { result.now ≡ tree self.now };

    /// What else stands in it.
    fn strangers(&self) -> &[Stranger]
        ensures { result.now ≡ strangers self.now };
}

/// A folder that is written.
pub trait WrittenFolder: Folder {
    /// Makes the folder itself, where it is missing, and then the edits in it, in their order. A
    /// file comes whole, or stays as it is.
    ///
    /// Refused 9, or 11 for lack of memory, where a call of the system fails. Then nobody knows
    /// what stands in the folder.
    fn make_all(&mut self, alloc: Global, edits: Vec<Edit>) -> Result<(), FolderError>
        ensures made { OnOk result (Self.Folder.tree self.new
            ≡ after_edits (Self.Folder.tree self.old) (map edit_of edits.items)) }
        ensures system { IfErr result IsOfSystem };
}
