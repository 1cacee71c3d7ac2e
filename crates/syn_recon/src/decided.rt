//! What is decided at a path.
ghost use Rattle.std.specs.Prelude.{◌≡◌, ◌||◌, ◌++◌, if◌then◌else◌, OnOk, IfErr, option_map};
ghost use Rattle.syn_model.specs.Path.{Path as Where};
ghost use Rattle.syn_model.specs.Tree.{is_directory, subtree};
ghost use Rattle.syn_model.specs.Dirty.{is_same_tree, is_unstable};
ghost use Rattle.syn_model.specs.Decision.{Do, DoAndGoOn, GoOn, Conflict, MarkDir, contested};
ghost use Rattle.syn_path.specs.Sides.{which_of};
ghost use Rattle.syn_scan.specs.Found.{scan_of};
ghost use Rattle.syn_recon.specs.Items.{items_of};
ghost use Rattle.syn_recon.specs.inner.Walks.{decided, item_in, settled_by, target};
ghost use Rattle.syn_recon.specs.inner.Decided.{decision_at};

use crate::error::PlanError;
use crate::item::Item;
use std::alloc::Global;
use syn_mark::{Mark, MarkTree};
use syn_path::{Path, Side};
use syn_scan::Scan;

/// What is decided at a path.
#[derive(Clone, Copy, Debug, Drop)]
pub(crate) enum Decided {
    /// It changed nowhere, so nothing is done there or below.
    Clean,
    /// Nothing is done there, and what is below is decided name by name.
    GoOn,
    /// The archive gets a directory, and what is below is decided name by name.
    MarkDir,
    /// The archive gets what both have, and nothing else is done below.
    MarkSame,
    /// The right gets what the left has.
    ToRight,
    /// The left gets what the right has.
    ToLeft,
    /// Nothing is done there or below.
    Conflict,
}

/// What is decided at a path, by whether it is dirty on the left and on the right, and by the side
/// that is preferred. It takes no memory.
pub(crate) fn decide(
    preference: Option<Side>,
    left: &Scan,
    right: &Scan,
    archive: &MarkTree,
    path: &Path,
    on_left: bool,
    on_right: bool,
) -> Decided
    ensures { decision_at path.now result ≡ decided (option_map which_of preference)
        (scan_of left.now) (scan_of right.now) archive.now (path.now, on_left, on_right) }
{
    if !on_left && !on_right {
        return Decided::Clean;
    }
    if has_directory(left.tree(), path) && has_directory(right.tree(), path) {
        return in_directories(left, right, archive, path);
    }
    if is_same_part(left.tree(), right.tree(), path) {
        Decided::MarkSame
    } else if !on_right {
        Decided::ToRight
    } else if !on_left {
        Decided::ToLeft
    } else {
        contested(
            preference,
            left.is_unstable(path) || right.is_unstable(path),
        )
    }
}

/// What is decided where both sides changed: what the preferred side has goes to the other, unless
/// the path is unstable itself.
fn contested(preference: Option<Side>, is_unstable: bool) -> Decided
    ensures { (path : Where)
        → decision_at path result
        ≡ Do (contested (option_map which_of preference) is_unstable path) }
{
    match preference {
        Some(Side::Left) if !is_unstable => Decided::ToRight,
        Some(Side::Right) if !is_unstable => Decided::ToLeft,
        _ => Decided::Conflict,
    }
}

/// What is decided where both sides show a directory, and one of them changed.
fn in_directories(left: &Scan, right: &Scan, archive: &MarkTree, path: &Path) -> Decided
    ensures { decision_at path.now result ≡ (if is_unstable (scan_of left.now) path.now
        || is_unstable (scan_of right.now) path.now then Do (Conflict path.now)
        else if is_directory archive.now path.now then GoOn else DoAndGoOn (MarkDir path.now)) }
{
    if left.is_unstable(path) || right.is_unstable(path) {
        Decided::Conflict
    } else if has_directory(archive, path) {
        Decided::GoOn
    } else {
        Decided::MarkDir
    }
}

/// A directory stands at the path.
fn has_directory(marks: &MarkTree, path: &Path) -> bool
    ensures { result ≡ is_directory marks.now path.now }
{
    match marks.get(path) {
        Some(Mark::Dir) => true,
        Some(Mark::File(..)) => false,
        None => false,
    }
}

/// Both have the same marks at and below the path, or none.
fn is_same_part(left: &MarkTree, right: &MarkTree, path: &Path) -> bool
    ensures { result ≡ is_same_tree (subtree left.now path.now) (subtree right.now path.now) }
{
    left.is_same_at(right, path)
}

/// Puts the item for the path, if there is one, after those that are there. Refused 11 where
/// memory is refused.
pub(crate) fn push_item(
    alloc: Global,
    items: &mut Vec<Item>,
    decided: Decided,
    path: &Path,
) -> Result<(), PlanError>
    ensures ok { OnOk result (items_of items.new.items ≡ items_of items.old.items
        ++ item_in (decision_at path.now decided)) }
    ensures memory { IfErr result (λ e. e ≡ PlanError.Memory) }
{
    let item = match decided {
        Decided::Clean => return Ok(()),
        Decided::GoOn => return Ok(()),
        Decided::MarkDir => Item::MarkDir(path.copy(alloc)?),
        Decided::MarkSame => Item::MarkSame(path.copy(alloc)?),
        Decided::ToRight => Item::ToRight(path.copy(alloc)?),
        Decided::ToLeft => Item::ToLeft(path.copy(alloc)?),
        Decided::Conflict => Item::Conflict(path.copy(alloc)?),
    };
    items.push(item)?;
    Ok(())
}

/// The path at and below which nothing more is decided, once this is decided at a path.
pub(crate) fn settled_after<'a>(
    decided: Decided,
    path: &'a Path,
    settled: Option<&'a Path>,
) -> Option<&'a Path>
    ensures { target result ≡ settled_by (decision_at path.now decided) path.now
        (target settled.entry) }
{
    match decided {
        Decided::GoOn => settled,
        Decided::MarkDir => settled,
        Decided::Clean => Some(path),
        Decided::MarkSame => Some(path),
        Decided::ToRight => Some(path),
        Decided::ToLeft => Some(path),
        Decided::Conflict => Some(path),
    }
}
