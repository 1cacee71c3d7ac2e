//! The walk over the paths that changed.
ghost use Rattle.std.specs.Prelude.{◌≡◌, ◌++◌, OnOk, IfOk, IfErr, None, option_map};
ghost use Rattle.syn_path.specs.Sides.{which_of};
ghost use Rattle.syn_model.specs.Plan.{plan};
ghost use Rattle.syn_scan.specs.Found.{scan_of};
ghost use Rattle.syn_dirty.specs.Paths.{paths_at};
ghost use Rattle.syn_recon.specs.Items.{items_of};
ghost use Rattle.syn_recon.specs.inner.Walks.{decided, merged, is_settled, target, row_at};
ghost use Rattle.syn_recon.specs.inner.Decided.{walk, items_at, settled_at};

use crate::decided::{decide, push_item, settled_after};
use crate::dirty::{DirtyPath, next_dirty};
use crate::error::PlanError;
use crate::item::Item;
use std::alloc::Global;
use syn_dirty::dirty_set;
use syn_mark::MarkTree;
use syn_path::{Path, Side};
use syn_scan::Scan;

/// The plan for two scans and the archive, from the root on, in path order, where a side is
/// preferred or none.
///
/// At the root, and at each name of a directory of both sides:
/// - clean on both sides: nothing, there and below;
/// - a directory on both, and one of them was answered as none: Conflict;
/// - a directory on both: MarkDir where the archive has none, and then what is below, by name;
/// - equal marks, or nothing on either side: MarkSame;
/// - dirty on the left alone ToRight, on the right alone ToLeft;
/// - dirty on both, and stable itself: what the preferred side has goes to the other;
/// - dirty on both otherwise: Conflict.
///
/// Carried out on what was found it gives a synchronization, and the archive of it; with a
/// preference both sides are equal then. Marks are compared once a node. Refused 11 where memory
/// is refused, and for no other cause.
pub fn plan<'a>(
    alloc: Global,
    left: &'a Scan,
    right: &'a Scan,
    archive: &'a MarkTree,
    preference: Option<Side>,
) -> Result<Vec<Item>, PlanError>
    ensures ok { IfOk result (λ items. items_of items.items
        ≡ plan (option_map which_of preference) (scan_of left.now) (scan_of right.now)
        archive.now) }
    ensures memory { IfErr result (λ e. e ≡ PlanError.Memory) }
{
    let lefts = dirty_set(alloc, left, archive)?;
    let rights = dirty_set(alloc, right, archive)?;
    // Their types say that each has its parents and keeps the limits of paths.
    let _ = left.tree();
    let _ = right.tree();
    let _ = archive.as_slice();
    items_along(alloc, left, right, archive, preference, &lefts, &rights)
}

/// The items along the paths that are dirty on the left and those that are on the right, each in
/// path order. Refused 11 where memory is refused.
fn items_along<'s, 'a>(
    alloc: Global,
    left: &Scan,
    right: &Scan,
    archive: &MarkTree,
    preference: Option<Side>,
    lefts: &'s [&'a Path],
    rights: &'s [&'a Path],
) -> Result<Vec<Item>, PlanError>
    ensures ok { IfOk result (λ items. items_of items.items
        ≡ walk (decided (option_map which_of preference) (scan_of left.now) (scan_of right.now)
        archive.now) (merged (paths_at lefts.now) (paths_at rights.now)) None) }
    ensures memory { IfErr result (λ e. e ≡ PlanError.Memory) }
{
    let mut items = Vec::new(alloc);
    let mut settled = None;
    let mut left_at = 0;
    let mut right_at = 0;
    while let Some((dirty, left_next, right_next)) = next_dirty(lefts, left_at, rights, right_at) {
        settled = step(
            alloc, left, right, archive, preference, &mut items, dirty, settled,
        )?;
        left_at = left_next;
        right_at = right_next;
    }
    Ok(items)
}

/// Adds the item at a path that changed, if there is one, and gives the path at and below which
/// nothing more is decided. Refused 11 where memory is refused.
fn step<'a>(
    alloc: Global,
    left: &Scan,
    right: &Scan,
    archive: &MarkTree,
    preference: Option<Side>,
    items: &mut Vec<Item>,
    dirty: DirtyPath<'a>,
    settled: Option<&'a Path>,
) -> Result<Option<&'a Path>, PlanError>
    ensures items { OnOk result (items_of items.new.items ≡ items_of items.old.items
        ++ items_at (decided (option_map which_of preference) (scan_of left.now)
        (scan_of right.now) archive.now) (row_at dirty.entry) (target settled.entry)) }
    ensures settled { IfOk result (λ later. target later ≡ settled_at (decided
        (option_map which_of preference) (scan_of left.now) (scan_of right.now) archive.now)
        (row_at dirty.entry) (target settled.entry)) }
    ensures memory { IfErr result (λ e. e ≡ PlanError.Memory) }
{
    let (path, on_left, on_right) = dirty;
    if is_settled(settled, path) {
        return Ok(settled);
    }
    let decided = decide(preference, left, right, archive, path, on_left, on_right);
    push_item(alloc, items, decided, path)?;
    Ok(settled_after(decided, path, settled))
}

/// Nothing more is decided at the path.
fn is_settled(settled: Option<&Path>, path: &Path) -> bool
    ensures { result ≡ is_settled (target settled.entry) path.now }
{
    match settled {
        Some(above) => above.is_prefix(path),
        None => false,
    }
}
