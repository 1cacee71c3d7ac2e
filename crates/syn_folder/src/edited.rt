//! What is asked of a folder that people go on editing.
ghost use Rattle.std.specs.Prelude.{◌≡◌, List, OnErr, OnOk};
ghost use Rattle.syn_folder.specs.declared.stranger.Stranger.{Stranger as Strange};
ghost use Rattle.syn_model.specs.Tree.{Tree as Pairs, replace};
ghost use Rattle.syn_tree.specs.Nodes.{part_of};

use crate::error::FolderError;
use crate::stranger::Stranger;
use std::alloc::Global;
use syn_path::Path;
use syn_tree::{Node, Tree};

/// A folder that people go on editing. Contracts see the tree that was read of it, with what this
/// program replaced since, and what else was read.
///
/// What stands in it now is known only where it is looked at. So its one call that changes it looks
/// first.
pub trait EditedFolder {
    ghost tree: { Self → Pairs };

    ghost strangers: { Self → List Strange };

    /// The files and directories that were read, with what was replaced since.
    fn tree(&self) -> &Tree
        ensures { result.now ≡ tree self.now };

    /// What else was read.
    fn strangers(&self) -> &[Stranger]
        ensures { result.now ≡ strangers self.now };

    /// Puts what is given in the place of all that is at and below the path, or takes it out, where
    /// what is there still is what was read. A file comes whole, with its mode, and is kept when
    /// the call succeeds.
    ///
    /// Refused 13 where something at or below the path is another thing than what was read. Refused
    /// 6 at the root, 2 where the parent is no directory, 7 where the tree would pass a limit or a
    /// name is `.syn`, 11 where memory is refused, and 9 where a call of the system fails.
    fn replace(&mut self, alloc: Global, path: &Path, new: Option<Node>) -> Result<(), FolderError>
        ensures done { OnOk result
            (tree self.new ≡ replace (tree self.old) path.now (part_of new)) }
        ensures same { OnErr result (tree self.new ≡ tree self.old) }
        ensures strangers { strangers self.new ≡ strangers self.old };
}
