//! What of a folder goes into a replica.
ghost use Rattle.std.specs.Prelude.{◌≡◌, [], IfErr, IfOk, OnOk};
ghost use Rattle.syn_folder.specs.Refusals.{IsOfSystem};
ghost use Rattle.syn_folder.specs.Strangers.{directory_at, put_back, skipped};

use crate::error::FolderError;
use crate::export::copy_all;
use crate::folder::Folder;
use crate::stranger::Stranger;
use std::alloc::Global;
use syn_change::copy_part;
use syn_path::Path;
use syn_tree::{Found, Tree, TreeError};

/// Refuses 7 where something stands in the folder that can stand in no replica, and 11 where memory
/// is refused.
pub fn all_known<F: Folder>(alloc: Global, folder: &F) -> Result<(), FolderError>
    ensures known { OnOk result (F.strangers folder.now ≡ []) }
    ensures before { IfErr result (λ e. ¬ IsOfSystem e) }
{
    if folder.strangers().is_empty() {
        Ok(())
    } else {
        Err(FolderError::Strange(copy_all(alloc, folder.strangers())?))
    }
}

/// The folder's tree, with what stands at the path of the old tree in the place of each thing that
/// can stand in no replica: what is skipped stays as it is.
///
/// Refused 7 where the folder itself can stand in no replica or the result would pass a limit, and
/// 11 where memory is refused.
pub fn skipping<F: Folder>(
    alloc: Global,
    folder: &F,
    old: &Tree,
    path: &Path,
) -> Result<Tree, FolderError>
    ensures { IfOk result (λ tree. tree
        ≡ skipped (directory_at old.now path.now) (F.tree folder.now) (F.strangers folder.now)) }
{
    let mut tree = copy_part(alloc, folder.tree(), &Path::root(alloc))?;
    let part = directory_at(alloc, old, path)?;
    for stranger in folder.strangers() {
        keep(alloc, &mut tree, &part, stranger)?;
    }
    Ok(tree)
}

/// What the directory at the path has; nothing where none is there.
///
/// Refused 11 where memory is refused.
fn directory_at(alloc: Global, tree: &Tree, path: &Path) -> Result<Tree, TreeError>
    ensures { IfOk result (λ part. part ≡ directory_at tree.now path.now) }
{
    match tree.get(path) {
        Some(Found::Dir) => copy_part(alloc, tree, path),
        _ => Tree::new(alloc),
    }
}

/// Puts into the tree what the part has in the place of the stranger.
///
/// Refused 7 where the stranger is the folder itself or the result would pass a limit, and 11 where
/// memory is refused.
fn keep(alloc: Global, tree: &mut Tree, part: &Tree, stranger: &Stranger) -> Result<(), FolderError>
    ensures { OnOk result (tree.new ≡ put_back part.now tree.old stranger.now.path) }
{
    let Some(path) = &stranger.path else {
        return Ok(());
    };
    if path.names().is_empty() {
        let mut whole = Vec::new(alloc);
        whole.push(stranger.copy(alloc)?)?;
        return Err(FolderError::Strange(whole));
    }
    let kept = part.subtree(alloc, path)?;
    tree.replace(alloc, path, kept)?;
    Ok(())
}
