//! Which items touch nothing that can stand in no replica.
ghost use Rattle.std.specs.Prelude.{◌≡◌, false, true, IfOk, None};
ghost use Rattle.std.specs.FinMap.{get};
ghost use Rattle.syn_model.specs.Path.{is_prefix};
ghost use Rattle.syn_recon.specs.Items.{item_of};
ghost use Rattle.syn_reconcile.specs.Strangers.{LeavesAlone, LeavesOneAlone};

use std::alloc::{AllocError, Global};
use syn_folder::Stranger;
use syn_path::Path;
use syn_recon::Item;
use syn_tree::Tree;

/// The item leaves each of these alone, in the folder and in the replica.
///
/// Refused where memory is refused.
pub(crate) fn leaves_alone(
    alloc: Global,
    strangers: &[Stranger],
    replica: &Tree,
    item: &Item,
) -> Result<bool, AllocError>
    ensures { IfOk result (λ leaves. leaves ≡ true
        → LeavesAlone strangers.now replica.now (item_of item.now)) }
{
    for stranger in strangers {
        if !leaves_one_alone(alloc, stranger, replica, item)? {
            return Ok(false);
        }
    }
    Ok(true)
}

/// The item leaves it alone: it puts nothing at, above or below it in the folder, and in the
/// replica nothing at or below its path, or above where the replica has something there.
fn leaves_one_alone(
    alloc: Global,
    stranger: &Stranger,
    replica: &Tree,
    item: &Item,
) -> Result<bool, AllocError>
    ensures { IfOk result (λ leaves. leaves ≡ true
        → LeavesOneAlone stranger.now replica.now (item_of item.now)) }
{
    match item {
        Item::ToLeft(path) => match &stranger.path {
            Some(at) => Ok(!at.comparable(path)),
            None => Ok(!is_named_below(alloc, stranger, path)?),
        },
        Item::ToRight(path) => match &stranger.path {
            Some(at) => Ok(!at.comparable(path) || is_above_nothing(replica, path, at)),
            None => Ok(true),
        },
        Item::MarkSame(_) | Item::MarkDir(_) | Item::Conflict(_) => Ok(true),
    }
}

/// The path is above the other, where the replica has nothing.
fn is_above_nothing(replica: &Tree, path: &Path, at: &Path) -> bool
    ensures { result ≡ true
        → (is_prefix at.now path.now ≡ false) × (get replica.now at.now ≡ None) }
{
    !at.is_prefix(path) && replica.get(at).is_none()
}

/// The text of the stranger, which has no path, names something below the path.
fn is_named_below(alloc: Global, stranger: &Stranger, path: &Path) -> Result<bool, AllocError> {
    let above = format!(in alloc; "{path}/")?;
    Ok(stranger.text.as_str().starts_with(above.as_str()))
}
