//! Writes a tree into a folder.
ghost use Rattle.std.specs.Prelude.{◌≡◌, ◌⊎◌, [], false, OnOk, IfErr, IfOk, None, Some};
ghost use Rattle.std.specs.FinMap.{get};
ghost use Rattle.syn_change.specs.Changes.{IsOverlaid};
ghost use Rattle.syn_model.specs.Path.{Path};
ghost use Rattle.syn_model.specs.Tree.{empty_directory};
ghost use Rattle.syn_folder.specs.Refusals.{IsOfSystem};
ghost use Rattle.syn_folder.specs.Strangers.{IsApart};

use crate::error::FolderError;
use crate::folder::WrittenFolder;
use crate::stranger::Stranger;
use std::alloc::Global;
use syn_change::{changes, puts};
use syn_tree::Tree;

/// Writes the tree into a folder that is missing or empty.
///
/// Refused 4 where something stands in it, and 11 where memory is refused. Refused 9, or 11 for
/// lack of memory, where a call of the system fails: a part may be written then.
pub fn fill<F: WrittenFolder>(
    alloc: Global,
    wanted: &Tree,
    folder: &mut F,
) -> Result<(), FolderError>
    ensures empty { OnOk result (F.Folder.tree folder.old ≡ empty_directory) }
    ensures known { OnOk result (F.Folder.strangers folder.old ≡ []) }
    ensures done { OnOk result (F.Folder.tree folder.new ≡ wanted.now) }
    ensures refused { IfErr result (λ e. IsOfSystem e ⊎ (folder.new ≡ folder.old)) }
{
    if !folder.strangers().is_empty() || folder.tree().entries().len() > 0 {
        return Err(FolderError::NotEmpty);
    }
    mirror(alloc, wanted, folder)
}

/// Makes the folder's tree the wanted one. What is not wanted is removed.
///
/// Refused 7 where something stands in the folder that can stand in no replica, and 11 where memory
/// is refused. Refused 9, or 11 for lack of memory, where a call of the system fails: a part may be
/// written then.
pub fn mirror<F: WrittenFolder>(
    alloc: Global,
    wanted: &Tree,
    folder: &mut F,
) -> Result<(), FolderError>
    ensures known { OnOk result (F.Folder.strangers folder.old ≡ []) }
    ensures done { OnOk result (F.Folder.tree folder.new ≡ wanted.now) }
    ensures refused { IfErr result (λ e. IsOfSystem e ⊎ (folder.new ≡ folder.old)) }
{
    if !folder.strangers().is_empty() {
        return Err(FolderError::Strange(copy_all(alloc, folder.strangers())?));
    }
    let edits = changes(alloc, folder.tree(), wanted)?;
    folder.make_all(alloc, edits)
}

/// Writes what the folder lacks of the wanted tree, or has otherwise. Nothing is removed.
///
/// Refused 3 where a file would take the place of a directory, 4 where a directory would take the
/// place of a file, 7 where something that can stand in no replica is in the way or the folder
/// would have more than a replica may, and 11 where memory is refused. Refused 9, or 11 for lack of
/// memory, where a call of the system fails: a part may be written then.
pub fn update<F: WrittenFolder>(
    alloc: Global,
    wanted: &Tree,
    folder: &mut F,
) -> Result<(), FolderError>
    ensures apart { OnOk result (IsApart (F.Folder.strangers folder.old) wanted.now) }
    ensures done { OnOk result
        (IsOverlaid (F.Folder.tree folder.old) wanted.now (F.Folder.tree folder.new)) }
    ensures refused { IfErr result (λ e. IsOfSystem e ⊎ (folder.new ≡ folder.old)) }
{
    let strange = in_the_way(alloc, wanted, folder.strangers())?;
    if !strange.is_empty() {
        return Err(FolderError::Strange(strange));
    }
    let edits = puts(alloc, folder.tree(), wanted)?;
    folder.make_all(alloc, edits)
}

/// Equal ones of their own.
pub(crate) fn copy_all(alloc: Global, strangers: &[Stranger]) -> Result<Vec<Stranger>, FolderError>
    ensures { IfErr result (λ e. ¬ IsOfSystem e) }
{
    let mut copies = Vec::new(alloc);
    for stranger in strangers {
        copies.push(stranger.copy(alloc)?)?;
    }
    Ok(copies)
}

/// Those at whose path something is wanted.
fn in_the_way(
    alloc: Global,
    wanted: &Tree,
    strangers: &[Stranger],
) -> Result<Vec<Stranger>, FolderError>
    ensures before { IfErr result (λ e. ¬ IsOfSystem e) }
    ensures apart { IfOk result (λ found. found.items ≡ [] → IsApart strangers.now wanted.now) }
{
    let mut found = Vec::new(alloc);
    for stranger in strangers {
        if is_in_the_way(wanted, stranger) {
            found.push(stranger.copy(alloc)?)?;
        }
    }
    Ok(found)
}

/// Something is wanted at its path.
fn is_in_the_way(wanted: &Tree, stranger: &Stranger) -> bool
    ensures { result ≡ false → (path : Path) → stranger.now.path ≡ Some path
        → get wanted.now path ≡ None }
{
    match &stranger.path {
        Some(path) => wanted.get(path).is_some(),
        None => false,
    }
}
