//! Carries out one item of a plan.
ghost use Rattle.std.specs.Prelude.{◌≡◌, Err, IfErr, IfNone, IfOk, MatchResult, None, Ok, OnOk};
ghost use Rattle.syn_archive.specs.Archive.{Stands as Keeps, disk_of as marks_disk};
ghost use Rattle.syn_archive.specs.Archive.{marks_shown, pair_of as marks_pair};
ghost use Rattle.syn_disk.specs.Stops.{LeavesOnly};
ghost use Rattle.syn_model.specs.Archive.{Archive as Kept};
ghost use Rattle.syn_model.specs.Decision.{MarkDir, MarkSame, ToLeft, ToRight};
ghost use Rattle.syn_model.specs.History.{History};
ghost use Rattle.syn_model.specs.Mark.{mark};
ghost use Rattle.syn_model.specs.Plan.{after_item, with_directory};
ghost use Rattle.syn_model.specs.Tree.{Tree as Pairs, replace, subtree};
ghost use Rattle.syn_recon.specs.Items.{item_of};
ghost use Rattle.syn_replica.specs.Replica.{Stands, disk_of, pair_of, tree_shown};
ghost use Rattle.syn_reconcile.specs.Settlings.{GoesOn, IsCarried, IsCutOff, IsLeft};
ghost use Rattle.syn_reconcile.specs.Settlings.{after_settled, here, trees_of};
ghost use Rattle.syn_reconcile.specs.Stops.{HasEitherMarks, HasEitherTree};
ghost use Rattle.syn_reconcile.specs.Strangers.{LeavesAlone};

use crate::edits::plan_part;
use crate::error::ReconcileError;
use crate::marks::{marked_part, record, record_dir};
use crate::strangers::leaves_alone;
use std::alloc::Global;
use syn_archive::Archive;
use syn_disk::Disk;
use syn_folder::EditedFolder;
use syn_path::Path;
use syn_recon::Item;
use syn_refusal::Refusal;
use syn_replica::Replica;
use syn_tree::Tree;

/// Carries out the item, by edits of the user where it is for the replica, and answers why it is
/// refused, if it is. It is recorded in the archive once it is done.
///
/// An item is refused 7 where something that can stand in no replica is in its way, and as the
/// folder or the plan of the edits refuses it: then nothing was edited or recorded. Else the call
/// itself is refused, as the replica or the archive refuses it; the replica's disk comes back.
pub(crate) fn carry<F: EditedFolder, R: Disk, A: Disk>(
    alloc: Global,
    folder: &mut F,
    replica: Replica<R>,
    archive: &mut Archive<A>,
    user: u32,
    item: &Item,
) -> Result<(Replica<R>, Option<Refusal>), (ReconcileError, R)>
    ensures carried { (history : History) (kept : Kept) → Stands replica history
        → Keeps archive.old kept → IfOk result (λ carried. GoesOn user history (after_settled
        (trees_of (F.tree folder.old) replica archive.old) (item_of item.now) carried.1)
        (F.tree folder.new) carried.0 archive.new) }
    ensures stopped { (history : History) (kept : Kept) → Stands replica history
        → Keeps archive.old kept → IfErr result (λ stopped. IsCutOff (item_of item.now)
        (pair_of replica) user history (trees_of (F.tree folder.old) replica archive.old)
        (F.tree folder.new) (R.may_leave stopped.1) archive.old archive.new) }
    ensures any_moment { (history : History) (kept : Kept) → Stands replica history
        → MatchResult result
        (λ carried. LeavesOnly R.moment R.left_since (disk_of replica)
        (disk_of carried.0) (HasEitherTree (pair_of replica) user history
        (tree_shown replica) (after_item (trees_of (F.tree folder.old) replica archive.old)
        (item_of item.now)).right))
        (λ stopped. LeavesOnly R.moment R.left_since (disk_of replica) stopped.1
        (HasEitherTree (pair_of replica) user history (tree_shown replica)
        (after_item (trees_of (F.tree folder.old) replica archive.old) (item_of item.now)).right)) }
    ensures any_mark { (kept : Kept) → Keeps archive.old kept
        → LeavesOnly A.moment A.left_since (marks_disk archive.old)
        (marks_disk archive.new) (HasEitherMarks (marks_pair archive.old)
        (marks_shown archive.old) (after_item (trees_of (F.tree folder.old) replica archive.old)
        (item_of item.now)).archive) }
    ensures apart { IfOk result (λ carried. IfNone carried.1
        (LeavesAlone (F.strangers folder.old) (tree_shown replica) (item_of item.now))) }
    ensures strangers { F.strangers folder.new ≡ F.strangers folder.old }
    ensures pair { IfOk result (λ carried. pair_of carried.0 ≡ pair_of replica) }
    ensures marked { marks_pair archive.new ≡ marks_pair archive.old }
{
    match leaves_alone(alloc, folder.strangers(), replica.tree(), item) {
        Ok(true) => {}
        Ok(false) => return Ok((replica, Some(Refusal::Full))),
        Err(_) => return Err((ReconcileError::Memory, replica.into_disk())),
    }
    match item {
        Item::ToRight(path) => to_replica(alloc, folder.tree(), replica, archive, user, path),
        Item::ToLeft(path) => {
            let carried = to_folder(alloc, folder, replica.tree(), archive, path);
            with_replica(replica, carried)
        }
        Item::MarkSame(path) => {
            let carried = mark_same(alloc, folder.tree(), archive, path);
            with_replica(replica, carried)
        }
        Item::MarkDir(path) => {
            let carried = mark_dir(alloc, archive, path);
            with_replica(replica, carried)
        }
        Item::Conflict(_) => Ok((replica, None)),
    }
}

/// What came of an item for which the replica is not written, with the replica, or with its disk.
fn with_replica<R: Disk>(
    replica: Replica<R>,
    carried: Result<Option<Refusal>, ReconcileError>,
) -> Result<(Replica<R>, Option<Refusal>), (ReconcileError, R)>
    ensures carried { IfOk result (λ done. (done.0 ≡ replica) × (carried ≡ Ok done.1)) }
    ensures stopped { IfErr result (λ stopped. (stopped.1 ≡ disk_of replica)
        × (carried ≡ Err stopped.0)) }
{
    match carried {
        Ok(refused) => Ok((replica, refused)),
        Err(error) => Err((error, replica.into_disk())),
    }
}

/// Puts what the replica has at and below the path into the folder.
pub(crate) fn to_folder<F: EditedFolder, A: Disk>(
    alloc: Global,
    folder: &mut F,
    replica: &Tree,
    archive: &mut Archive<A>,
    path: &Path,
) -> Result<Option<Refusal>, ReconcileError>
    ensures carried { (kept : Kept) → Keeps archive.old kept → IfOk result
        (λ refused. IsCarried (ToLeft path.now) refused (here (F.tree folder.old) replica.now
        (marks_shown archive.old)) (F.tree folder.new) archive.new) }
    ensures stopped { IfErr result (λ _. IsLeft (ToLeft path.now) (here (F.tree folder.old)
        replica.now (marks_shown archive.old)) (F.tree folder.new) archive.old archive.new) }
    ensures any_mark { (kept : Kept) → Keeps archive.old kept
        → LeavesOnly A.moment A.left_since (marks_disk archive.old)
        (marks_disk archive.new) (HasEitherMarks (marks_pair archive.old)
        (marks_shown archive.old) (after_item (here (F.tree folder.old) replica.now
        (marks_shown archive.old)) (ToLeft path.now)).archive) }
    ensures strangers { F.strangers folder.new ≡ F.strangers folder.old }
    ensures marked { marks_pair archive.new ≡ marks_pair archive.old }
{
    let part = match marked_part(alloc, replica, path) {
        Ok(part) => part,
        Err(error) => return Ok(Some(error.refusal())),
    };
    match folder.replace(alloc, path, part.node) {
        Ok(()) => {
            record(alloc, archive, path, part.marks)?;
            Ok(None)
        }
        Err(error) => Ok(Some(error.refusal())),
    }
}

/// Puts what the folder has at and below the path into the replica, by edits of the user.
fn to_replica<R: Disk, A: Disk>(
    alloc: Global,
    folder: &Tree,
    replica: Replica<R>,
    archive: &mut Archive<A>,
    user: u32,
    path: &Path,
) -> Result<(Replica<R>, Option<Refusal>), (ReconcileError, R)>
    ensures carried { (history : History) (kept : Kept) → Stands replica history
        → Keeps archive.old kept → IfOk result (λ carried. GoesOn user history (after_settled
        (trees_of folder.now replica archive.old) (ToRight path.now) carried.1)
        folder.now carried.0 archive.new) }
    ensures stopped { (history : History) (kept : Kept) → Stands replica history
        → Keeps archive.old kept → IfErr result (λ stopped. IsCutOff (ToRight path.now)
        (pair_of replica) user history (trees_of folder.now replica archive.old)
        folder.now (R.may_leave stopped.1) archive.old archive.new) }
    ensures any_moment { (history : History) → Stands replica history → MatchResult result
        (λ carried. LeavesOnly R.moment R.left_since (disk_of replica)
        (disk_of carried.0) (HasEitherTree (pair_of replica) user history
        (tree_shown replica) (after_item (trees_of folder.now replica archive.old)
        (ToRight path.now)).right))
        (λ stopped. LeavesOnly R.moment R.left_since (disk_of replica) stopped.1
        (HasEitherTree (pair_of replica) user history (tree_shown replica)
        (after_item (trees_of folder.now replica archive.old) (ToRight path.now)).right)) }
    ensures any_mark { (kept : Kept) → Keeps archive.old kept
        → LeavesOnly A.moment A.left_since (marks_disk archive.old)
        (marks_disk archive.new) (HasEitherMarks (marks_pair archive.old)
        (marks_shown archive.old) (after_item (trees_of folder.now replica archive.old)
        (ToRight path.now)).archive) }
    ensures pair { IfOk result (λ carried. pair_of carried.0 ≡ pair_of replica) }
    ensures marked { marks_pair archive.new ≡ marks_pair archive.old }
{
    let planned = match plan_part(alloc, folder, replica.tree(), path) {
        Ok(planned) => planned,
        Err(error) => return Ok((replica, Some(error.refusal()))),
    };
    let replica = match replica.edit_all_with_room(alloc, user, planned.edits) {
        Ok(replica) => replica,
        Err((error, disk)) => return Err((ReconcileError::Replica(error), disk)),
    };
    match record(alloc, archive, path, planned.marks) {
        Ok(()) => Ok((replica, None)),
        Err(error) => Err((ReconcileError::Archive(error), replica.into_disk())),
    }
}

/// Records what both have at and below the path.
pub(crate) fn mark_same<A: Disk>(
    alloc: Global,
    folder: &Tree,
    archive: &mut Archive<A>,
    path: &Path,
) -> Result<Option<Refusal>, ReconcileError>
    ensures carried { (kept : Kept) (right : Pairs) → Keeps archive.old kept → IfOk result
        (λ refused. IsCarried (MarkSame path.now) refused (here folder.now right
        (marks_shown archive.old)) folder.now archive.new) }
    ensures any_mark { (kept : Kept) → Keeps archive.old kept
        → LeavesOnly A.moment A.left_since (marks_disk archive.old) (marks_disk archive.new)
        (HasEitherMarks (marks_pair archive.old) (marks_shown archive.old)
        (replace (marks_shown archive.old) path.now (mark (subtree folder.now path.now)))) }
    ensures marked { marks_pair archive.new ≡ marks_pair archive.old }
{
    match marked_part(alloc, folder, path) {
        Ok(part) => {
            record(alloc, archive, path, part.marks)?;
            Ok(None)
        }
        Err(error) => Err(ReconcileError::Unplanned(error.refusal())),
    }
}

/// Records a directory at the path.
pub(crate) fn mark_dir<A: Disk>(
    alloc: Global,
    archive: &mut Archive<A>,
    path: &Path,
) -> Result<Option<Refusal>, ReconcileError>
    ensures carried { (kept : Kept) (left right : Pairs) → Keeps archive.old kept → IfOk result
        (λ refused. IsCarried (MarkDir path.now) refused (here left right
        (marks_shown archive.old)) left archive.new) }
    ensures any_mark { (kept : Kept) → Keeps archive.old kept
        → LeavesOnly A.moment A.left_since (marks_disk archive.old) (marks_disk archive.new)
        (HasEitherMarks (marks_pair archive.old) (marks_shown archive.old)
        (with_directory (marks_shown archive.old) path.now)) }
    ensures marked { marks_pair archive.new ≡ marks_pair archive.old }
{
    record_dir(alloc, archive, path)?;
    Ok(None)
}
