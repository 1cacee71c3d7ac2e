//! Writes a part of a replica into a folder.
ghost use Rattle.std.specs.Prelude.{◌≡◌, ◌≢◌, ◌⊎◌, [], IfErr, OnOk};
ghost use Rattle.syn_change.specs.Changes.{IsOverlaid};
ghost use Rattle.syn_folder.specs.Refusals.{IsOfSystem};
ghost use Rattle.syn_folder.specs.Strangers.{IsApart};
ghost use Rattle.syn_model.specs.Tree.{empty_directory, subtree};

use std::alloc::Global;
use syn_change::copy_part;
use syn_cli::Existing;
use syn_folder::{FolderError, WrittenFolder, fill, mirror, update};
use syn_path::Path;
use syn_tree::Tree;

/// Writes what the directory at the path of the tree has into the folder.
///
/// Refused 5 where no directory is at the path. Refused 4 where the folder has something and is to
/// have nothing, and else 3, 4 and 7 as `update` and `mirror` are; and 11 where memory is refused.
/// Refused 9, or 11 for lack of memory, where a call of the system fails: a part may be written
/// then.
pub fn export_part<F: WrittenFolder>(
    alloc: Global,
    tree: &Tree,
    path: &Path,
    existing: Existing,
    folder: &mut F,
) -> Result<(), FolderError>
    ensures whole { existing ≢ Existing.Updated
        → OnOk result (F.Folder.tree folder.new ≡ subtree tree.now path.now) }
    ensures added { existing ≡ Existing.Updated → OnOk result
        (IsOverlaid (F.Folder.tree folder.old) (subtree tree.now path.now)
        (F.Folder.tree folder.new)) }
    ensures empty { existing ≡ Existing.Refused
        → OnOk result (F.Folder.tree folder.old ≡ empty_directory) }
    ensures refused { IfErr result (λ e. IsOfSystem e ⊎ (folder.new ≡ folder.old)) }

    // What can stand in no replica is not there, or with `--update` not where something is written.
    ensures known { existing ≢ Existing.Updated → OnOk result (F.Folder.strangers folder.old ≡ []) }
    ensures apart { existing ≡ Existing.Updated → OnOk result
        (IsApart (F.Folder.strangers folder.old) (subtree tree.now path.now)) }
{
    let part = copy_part(alloc, tree, path)?;
    match existing {
        Existing::Refused => fill(alloc, &part, folder),
        Existing::Updated => update(alloc, &part, folder),
        Existing::Mirrored => mirror(alloc, &part, folder),
    }
}
