//! Makes a folder the same as a replica that others go on editing.
ghost use Rattle.std.specs.Prelude.{◌≡◌, IfErr, IfNone, IfOk, None, OnOk};
ghost use Rattle.syn_archive.specs.Archive.{Stands as Keeps, disk_of as marks_disk};
ghost use Rattle.syn_archive.specs.Archive.{marks_shown, pair_of as marks_pair};
ghost use Rattle.syn_disk.specs.Stops.{LeavesOnly};
ghost use Rattle.syn_model.specs.Archive.{Archive as Kept};
ghost use Rattle.syn_model.specs.Decision.{ToRight};
ghost use Rattle.syn_model.specs.Mark.{mark};
ghost use Rattle.syn_model.specs.Plan.{after_item};
ghost use Rattle.syn_model.specs.Tree.{Tree as Pairs, replace, subtree};
ghost use Rattle.syn_recon.specs.Items.{item_of, items_of};
ghost use Rattle.syn_reconcile.specs.Settlings.{IsCarried, here, items_in};
ghost use Rattle.syn_reconcile.specs.Shared.{HasEitherHeld, HasSeenMarks, HasSharedMarks};
ghost use Rattle.syn_reconcile.specs.Shared.{HoldInTurn, HoldsFor, IsBeside, IsCutShort};
ghost use Rattle.syn_reconcile.specs.Shared.{IsSharedRun, IsSharedStop, IsUnrecorded, LeaveAlone};
ghost use Rattle.syn_reconcile.specs.Shared.{after_all_seen};
ghost use Rattle.syn_reconcile.specs.Strangers.{LeavesAlone};
ghost use Rattle.syn_shared.specs.Shared.{IsFor};

use crate::carry::{mark_dir, mark_same, to_folder};
use crate::checks::WhenEmpty;
use crate::error::ReconcileError;
use crate::items::note;
use crate::marks::{MarkedPart, marked_part, record};
use crate::report::{Report, Settled};
use crate::run::{plan_seen, tell_types};
use crate::strangers::leaves_alone;
use crate::watch::BeforeItems;
use std::alloc::Global;
use std::sync::Wait;
use syn_archive::Archive;
use syn_disk::Disk;
use syn_folder::EditedFolder;
use syn_lock::Pass;
use syn_model::plan_laws;
use syn_path::Path;
use syn_recon::Item;
use syn_refusal::Refusal;
use syn_replica::Replica;
use syn_shared::{SharedReplica, Snapshot};

/// The side that others go on editing.
#[derive(Drop)]
struct SharedSide<'a, H, R: Disk> {
    /// The handle by which its lock is waited for.
    rt: &'a H,
    shared: &'a SharedReplica<R>,
    /// Whose edits the folder's changes are.
    user: u32,
    /// What the plan was made of.
    seen: &'a Snapshot,
}

/// Makes the folder, which is the left side, and a replica that others go on editing, which is the
/// right, the same, as far as both were not changed at one path. What is to be done is planned of
/// what the replica has in one hold of its lock. What the folder changed is put into the replica in
/// a hold for each item, which is refused 13 where somebody touched the path since the first one.
/// What the replica had in that first hold is put into the folder. It answers what came of each
/// item. Before the first one `before` begins.
///
/// Refused as `plan` is, and as `before` is, before anything is changed, 9 and 10 where the
/// replica's device fails, and as the archive refuses a record: what was carried out before stands
/// then, and the same call goes on.
pub fn reconcile_shared<H: Wait, F: EditedFolder, R: Disk, A: Disk, B: BeforeItems>(
    rt: &H,
    alloc: Global,
    folder: &mut F,
    shared: &SharedReplica<R>,
    pass: &mut Pass<Replica<R>>,
    archive: &mut Archive<A>,
    user: u32,
    when_empty: WhenEmpty,
    before: &mut B,
) -> Result<Report, ReconcileError>
    requires { IsFor shared.now pass.old }
    ensures of { IsFor shared.now pass.new }
    ensures carried { (kept : Kept) → Keeps archive.old kept → IfOk result
        (λ report. IsSharedRun shared.now user when_empty (F.strangers folder.old)
        (F.tree folder.old) archive.old pass.old pass.new (F.tree folder.new) archive.new
        report.settled.items) }

    // A call that ends early leaves nothing recorded that is not carried out.
    ensures stopped { (kept : Kept) → Keeps archive.old kept → IfErr result
        (λ _. IsSharedStop shared.now user (F.tree folder.old) archive.old pass.old pass.new
        (F.tree folder.new) archive.new) }

    // Whenever the machine stops, the archive's disk has the marks that some of the items leave,
    // and what of these is for the replica was put there before.
    ensures any_mark { (kept : Kept) → Keeps archive.old kept
        → LeavesOnly A.moment A.left_since (marks_disk archive.old) (marks_disk archive.new)
        (HasSharedMarks shared.now user (F.tree folder.old) archive.old pass.old) }
    ensures begun { OnOk result (B.has_begun before.new) }
{
    plan_laws();
    let seen = shared.snapshot(rt, alloc, pass)?;
    tell_types(folder, &seen.tree, archive);
    let compared = plan_seen(
        alloc, folder, &seen.tree, seen.pair, archive, None, when_empty,
    )?;
    let items = compared.items;
    if let Err(refusal) = before.begin(items.len()) {
        return Err(ReconcileError::Unready(refusal));
    }
    let side = SharedSide {
        rt,
        shared,
        user,
        seen: &seen,
    };
    let settled = carry_each(alloc, folder, &side, pass, archive, items)?;
    Ok(Report { settled })
}

/// Carries out each of the items, which are the plan of what was seen, in turn, and answers what
/// came of each.
fn carry_each<H: Wait, F: EditedFolder, R: Disk, A: Disk>(
    alloc: Global,
    folder: &mut F,
    side: &SharedSide<'_, H, R>,
    pass: &mut Pass<Replica<R>>,
    archive: &mut Archive<A>,
    items: Vec<Item>,
) -> Result<Vec<Settled>, ReconcileError>
    requires { IsFor side.now.shared.now pass.old }
    ensures of { IsFor side.now.shared.now pass.new }
    ensures items { IfOk result (λ settled. items_in settled.items ≡ items_of items.items) }
    ensures stopped { (kept : Kept) → Keeps archive.old kept → IfErr result
        (λ _. IsCutShort side.now.shared.now side.now.user side.now.seen.now.position
        (marks_pair archive.old) (items_of items.items)
        (here (F.tree folder.old) side.now.seen.now.tree (marks_shown archive.old))
        pass.old pass.new (F.tree folder.new) archive.new) }
    ensures any_mark { (kept : Kept) → Keeps archive.old kept
        → LeavesOnly A.moment A.left_since (marks_disk archive.old) (marks_disk archive.new)
        (HasSeenMarks side.now.shared.now side.now.user side.now.seen.now.position
        (marks_pair archive.old) (items_of items.items)
        (here (F.tree folder.old) side.now.seen.now.tree (marks_shown archive.old))
        pass.old) }
    ensures carried { (kept : Kept) → Keeps archive.old kept → IfOk result
        (λ settled. IsBeside (after_all_seen (here (F.tree folder.old) side.now.seen.now.tree
        (marks_shown archive.old)) settled.items) (F.tree folder.new) archive.new) }
    ensures holds { (kept : Kept) → Keeps archive.old kept → IfOk result
        (λ settled. HoldInTurn side.now.shared.now side.now.user side.now.seen.now.position
        (here (F.tree folder.old) side.now.seen.now.tree (marks_shown archive.old)) settled.items
        pass.old pass.new) }
    ensures apart { IfOk result
        (λ settled. LeaveAlone (F.strangers folder.old) side.now.seen.now.tree settled.items) }
{
    let mut settled = Vec::new(alloc);
    for item in items {
        let refused = carry_one(alloc, folder, side, pass, archive, &item)?;
        note(&mut settled, Settled { item, refused })?;
    }
    Ok(settled)
}

/// Carries out the item, and answers why it is refused, if it is. It is recorded in the archive
/// once it is done.
fn carry_one<H: Wait, F: EditedFolder, R: Disk, A: Disk>(
    alloc: Global,
    folder: &mut F,
    side: &SharedSide<'_, H, R>,
    pass: &mut Pass<Replica<R>>,
    archive: &mut Archive<A>,
    item: &Item,
) -> Result<Option<Refusal>, ReconcileError>
    requires { IsFor side.now.shared.now pass.old }
    ensures of { IsFor side.now.shared.now pass.new }
    ensures carried { (kept : Kept) → Keeps archive.old kept → IfOk result
        (λ refused. IsCarried (item_of item.now) refused
        (here (F.tree folder.old) side.now.seen.now.tree (marks_shown archive.old))
        (F.tree folder.new) archive.new) }
    ensures holds { IfOk result (λ refused.
        HoldsFor side.now.shared.now side.now.user side.now.seen.now.position
        (F.tree folder.old) (item_of item.now) refused pass.old pass.new) }
    ensures stopped { IfErr result (λ _. IsUnrecorded (item_of item.now)
        (here (F.tree folder.old) side.now.seen.now.tree (marks_shown archive.old))
        (F.tree folder.new) archive.old archive.new (λ refused.
        HoldsFor side.now.shared.now side.now.user side.now.seen.now.position
        (F.tree folder.old) (item_of item.now) refused pass.old pass.new)) }
    ensures any_mark { (kept : Kept) → Keeps archive.old kept
        → LeavesOnly A.moment A.left_since (marks_disk archive.old) (marks_disk archive.new)
        (HasEitherHeld (marks_pair archive.old) (marks_shown archive.old)
        (after_item (here (F.tree folder.old) side.now.seen.now.tree (marks_shown archive.old))
        (item_of item.now)).archive
        (HoldsFor side.now.shared.now side.now.user side.now.seen.now.position
        (F.tree folder.old) (item_of item.now) None pass.old pass.new)) }
    ensures apart { IfOk result (λ refused. IfNone refused
        (LeavesAlone (F.strangers folder.old) side.now.seen.now.tree (item_of item.now))) }
    ensures strangers { F.strangers folder.new ≡ F.strangers folder.old }
    ensures marked { marks_pair archive.new ≡ marks_pair archive.old }
{
    if !leaves_alone(alloc, folder.strangers(), &side.seen.tree, item)? {
        return Ok(Some(Refusal::Full));
    }
    match item {
        Item::ToRight(path) => to_shared(alloc, folder, side, pass, archive, path),
        Item::ToLeft(path) => to_folder(alloc, folder, &side.seen.tree, archive, path),
        Item::MarkSame(path) => mark_same(alloc, folder.tree(), archive, path),
        Item::MarkDir(path) => mark_dir(alloc, archive, path),
        Item::Conflict(_) => Ok(None),
    }
}

/// Puts what the folder has at and below the path into the replica, unless somebody touched the
/// path there since that was seen, and records it.
///
/// An item is refused as the replica refuses it. Else, where the replica's device fails, the call
/// itself is.
fn to_shared<H: Wait, F: EditedFolder, R: Disk, A: Disk>(
    alloc: Global,
    folder: &F,
    side: &SharedSide<'_, H, R>,
    pass: &mut Pass<Replica<R>>,
    archive: &mut Archive<A>,
    path: &Path,
) -> Result<Option<Refusal>, ReconcileError>
    requires { IsFor side.now.shared.now pass.old }
    ensures of { IsFor side.now.shared.now pass.new }
    ensures carried { (kept : Kept) (right : Pairs) → Keeps archive.old kept → IfOk result
        (λ refused. IsCarried (ToRight path.now) refused (here (F.tree folder.now) right
        (marks_shown archive.old)) (F.tree folder.now) archive.new) }
    ensures holds { IfOk result (λ refused.
        HoldsFor side.now.shared.now side.now.user side.now.seen.now.position
        (F.tree folder.now) (ToRight path.now) refused pass.old pass.new) }
    ensures stopped { (right : Pairs) → IfErr result (λ _. IsUnrecorded (ToRight path.now)
        (here (F.tree folder.now) right (marks_shown archive.old)) (F.tree folder.now)
        archive.old archive.new (λ refused.
        HoldsFor side.now.shared.now side.now.user side.now.seen.now.position
        (F.tree folder.now) (ToRight path.now) refused pass.old pass.new)) }
    ensures any_mark { (kept : Kept) → Keeps archive.old kept
        → LeavesOnly A.moment A.left_since (marks_disk archive.old) (marks_disk archive.new)
        (HasEitherHeld (marks_pair archive.old) (marks_shown archive.old)
        (replace (marks_shown archive.old) path.now (mark (subtree (F.tree folder.now) path.now)))
        (HoldsFor side.now.shared.now side.now.user side.now.seen.now.position
        (F.tree folder.now) (ToRight path.now) None pass.old pass.new)) }
    ensures marked { marks_pair archive.new ≡ marks_pair archive.old }
{
    let MarkedPart { node, marks } = match marked_part(alloc, folder.tree(), path) {
        Ok(part) => part,
        Err(error) => return Ok(Some(error.refusal())),
    };
    let shared = side.shared;
    let since = side.seen.position;
    match shared.put_part(side.rt, alloc, pass, side.user, path, since, node) {
        Ok(_) => {
            record(alloc, archive, path, marks)?;
            Ok(None)
        }
        Err(error) => match error.refusal() {
            Refusal::Device | Refusal::Halted => Err(ReconcileError::Replica(error)),
            why => Ok(Some(why)),
        },
    }
}
