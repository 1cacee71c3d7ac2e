//! Makes a folder and a replica the same.
ghost use Rattle.std.specs.Prelude.{◌≡◌, ◌<◌, IfErr, IfOk, MatchResult, OnOk, option_map};
ghost use Rattle.std.specs.FinMap.{len};
ghost use Rattle.syn_archive.specs.Archive.{Stands as Keeps, disk_of as marks_disk};
ghost use Rattle.syn_archive.specs.Archive.{marks_shown, pair_of as marks_pair};
ghost use Rattle.syn_disk.specs.Stops.{LeavesOnly};
ghost use Rattle.syn_model.specs.Archive.{Archive as Kept};
ghost use Rattle.syn_model.specs.History.{History};
ghost use Rattle.syn_model.specs.Mark.{AreApart as ApartByDigest};
ghost use Rattle.syn_model.specs.Plan.{CanBePlanned, IsReconciled, IsSynchronized};
ghost use Rattle.syn_model.specs.Plan.{after_plan, scan_of};
ghost use Rattle.syn_model.specs.Plan.{plan as plan_of};
ghost use Rattle.syn_path.specs.Sides.{which_of};
ghost use Rattle.syn_recon.specs.Items.{items_of};
ghost use Rattle.syn_replica.specs.Replica.{Stands, disk_of, pair_of, tree_shown};
ghost use Rattle.syn_reconcile.specs.Settlings.{GoesOn, NoneRefused, after_all};
ghost use Rattle.syn_reconcile.specs.Settlings.{items_in, planned, trees_of};
ghost use Rattle.syn_reconcile.specs.UnderWay.{AreApart, IsStopped, ReachesMarks, ReachesTree};

use crate::checks::{WhenEmpty, check_empty, check_pair, check_whole};
use crate::error::ReconcileError;
use crate::items::carry_all;
use crate::report::Report;
use crate::watch::{BeforeItems, ItemWatch};
use std::alloc::Global;
use syn_archive::Archive;
use syn_disk::Disk;
use syn_folder::EditedFolder;
use syn_model::plan_laws;
use syn_path::Side;
use syn_recon::{Compared, compare};
use syn_replica::Replica;
use syn_tree::Tree;

/// What is to be done so that the folder, which is the left side, and the replica, which is the
/// right, are the same. With a preference, what that side has goes to the other where both changed.
/// Nothing is changed.
///
/// Refused 20 where the marks are of another pair, and 7 where the folder itself has more than a
/// replica may. Refused 5 where the folder or the replica is empty and the marks are not, unless
/// that is to be carried. Refused as `compare` is, too.
///
/// An archive has no position of the replica. So a replica that is older than the marks, as a
/// backup is, is told only where it is empty or of another pair.
pub fn plan<F: EditedFolder, R: Disk, A: Disk>(
    alloc: Global,
    folder: &F,
    replica: &Replica<R>,
    archive: &Archive<A>,
    preference: Option<Side>,
    when_empty: WhenEmpty,
) -> Result<Compared, ReconcileError>
    ensures plan { IfOk result (λ compared. items_of compared.items.items
        ≡ plan_of (option_map which_of preference) (scan_of (F.tree folder.now))
        (scan_of (tree_shown replica.now)) (marks_shown archive.now)) }

    // Nothing that is empty is carried over marks that are not, unless that is asked for.
    ensures emptied { when_empty ≡ WhenEmpty.Refuse → OnOk result (1 < len (marks_shown archive.now)
        → (1 < len (F.tree folder.now)) × (1 < len (tree_shown replica.now))) }
    ensures pair { OnOk result (marks_pair archive.now ≡ pair_of replica.now) }
{
    plan_seen(
        alloc,
        folder,
        replica.tree(),
        replica.pair(),
        archive,
        preference,
        when_empty,
    )
}

/// The same of a replica of the pair that has this tree.
pub(crate) fn plan_seen<F: EditedFolder, A: Disk>(
    alloc: Global,
    folder: &F,
    replica: &Tree,
    pair: u64,
    archive: &Archive<A>,
    preference: Option<Side>,
    when_empty: WhenEmpty,
) -> Result<Compared, ReconcileError>
    ensures plan { IfOk result (λ compared. items_of compared.items.items
        ≡ plan_of (option_map which_of preference) (scan_of (F.tree folder.now))
        (scan_of replica.now) (marks_shown archive.now)) }
    ensures emptied { when_empty ≡ WhenEmpty.Refuse → OnOk result (1 < len (marks_shown archive.now)
        → (1 < len (F.tree folder.now)) × (1 < len replica.now)) }
    ensures pair { OnOk result (marks_pair archive.now ≡ pair) }
{
    check_pair(pair, archive)?;
    check_whole(folder)?;
    if when_empty == WhenEmpty::Refuse {
        check_empty(folder.tree(), replica, archive.tree())?;
    }
    match compare(alloc, folder.tree(), replica, archive.tree(), preference) {
        Ok(compared) => Ok(compared),
        Err(refusal) => Err(ReconcileError::Unplanned(refusal)),
    }
}

/// Makes the folder, which is the left side, and the replica, which is the right, the same, as far
/// as both were not changed at one path: it carries out what `plan` gives. It answers what came of
/// each item, and tells `watch` of each as it is settled. Before the first one `before` begins.
///
/// Refused as `plan` is, and as `before` is, before anything is changed, and as the replica or the
/// archive refuses a change: what was carried out before stands then, and the same call goes on.
/// The replica's disk comes back.
pub fn reconcile<F: EditedFolder, R: Disk, A: Disk, B: BeforeItems, W: ItemWatch>(
    alloc: Global,
    folder: &mut F,
    replica: Replica<R>,
    archive: &mut Archive<A>,
    user: u32,
    preference: Option<Side>,
    when_empty: WhenEmpty,
    before: &mut B,
    watch: &mut W,
) -> Result<(Replica<R>, Report), (ReconcileError, R)>
    ensures plan { IfOk result (λ done. items_in done.1.settled.items
        ≡ planned (option_map which_of preference)
        (trees_of (F.tree folder.old) replica archive.old)) }
    ensures carried { (history : History) (kept : Kept) → Stands replica history
        → Keeps archive.old kept → IfOk result (λ done. GoesOn user history (after_all
        (trees_of (F.tree folder.old) replica archive.old) done.1.settled.items)
        (F.tree folder.new) done.0 archive.new) }

    // Where no item was refused, the three are what the plan leaves of them.
    ensures whole { (history : History) (kept : Kept) → Stands replica history
        → Keeps archive.old kept → IfOk result (λ done. NoneRefused done.1.settled.items
        → trees_of (F.tree folder.new) done.0 archive.new
        ≡ after_plan (option_map which_of preference)
        (trees_of (F.tree folder.old) replica archive.old)) }

    // So they are what the definition of a synchronization asks, if no two files that folder and
    // replica had at one path differ with one digest; and so are the marks, without this premise.
    ensures synchronized { (history : History) (kept : Kept) → Stands replica history
        → Keeps archive.old kept → IfOk result (λ done. NoneRefused done.1.settled.items
        → ApartByDigest (F.tree folder.old) (tree_shown replica)
        → IsSynchronized (option_map which_of preference)
        (trees_of (F.tree folder.old) replica archive.old)
        (trees_of (F.tree folder.new) done.0 archive.new)) }
    ensures reconciled { (history : History) (kept : Kept) → Stands replica history
        → Keeps archive.old kept → IfOk result (λ done. NoneRefused done.1.settled.items
        → IsReconciled (option_map which_of preference)
        (trees_of (F.tree folder.old) replica archive.old)
        (trees_of (F.tree folder.new) done.0 archive.new)) }

    // Whenever the machine stops, the replica's disk has what some of the items leave, by edits of
    // the user, and the archive's disk has the marks of that.
    ensures any_moment { (history : History) (kept : Kept) → Stands replica history
        → Keeps archive.old kept → MatchResult result
        (λ done. LeavesOnly R.moment R.left_since (disk_of replica) (disk_of done.0)
        (ReachesTree (planned (option_map which_of preference)
        (trees_of (F.tree folder.old) replica archive.old)) (pair_of replica) user history
        (trees_of (F.tree folder.old) replica archive.old)))
        (λ stopped. LeavesOnly R.moment R.left_since (disk_of replica) stopped.1
        (ReachesTree (planned (option_map which_of preference)
        (trees_of (F.tree folder.old) replica archive.old)) (pair_of replica) user history
        (trees_of (F.tree folder.old) replica archive.old))) }
    ensures any_mark { (history : History) (kept : Kept) → Stands replica history
        → Keeps archive.old kept
        → LeavesOnly A.moment A.left_since (marks_disk archive.old) (marks_disk archive.new)
        (ReachesMarks (planned (option_map which_of preference)
        (trees_of (F.tree folder.old) replica archive.old)) (marks_pair archive.old)
        (trees_of (F.tree folder.old) replica archive.old)) }

    // A call that ends early leaves nothing recorded that is not carried out.
    ensures stopped { (history : History) (kept : Kept) → Stands replica history
        → Keeps archive.old kept → IfErr result (λ stopped. IsStopped
        (planned (option_map which_of preference)
        (trees_of (F.tree folder.old) replica archive.old)) (pair_of replica)
        (marks_pair archive.old) user history (trees_of (F.tree folder.old) replica archive.old)
        (F.tree folder.new) (R.may_leave stopped.1) (A.may_leave (marks_disk archive.new))) }

    // Nothing that is empty is carried over marks that are not, unless that is asked for.
    ensures emptied { when_empty ≡ WhenEmpty.Refuse → OnOk result (1 < len (marks_shown archive.old)
        → (1 < len (F.tree folder.old)) × (1 < len (tree_shown replica))) }
    ensures pair { OnOk result (marks_pair archive.old ≡ pair_of replica) }

    // What can stand in no replica is left alone.
    ensures apart { (history : History) (kept : Kept) → Stands replica history
        → Keeps archive.old kept → IfOk result (λ done. AreApart (F.strangers folder.old)
        (trees_of (F.tree folder.old) replica archive.old) done.1.settled.items) }
    ensures begun { OnOk result (B.has_begun before.new) }
{
    plan_laws();
    tell_types(folder, replica.tree(), archive);
    let compared = match plan(alloc, folder, &replica, archive, preference, when_empty) {
        Ok(compared) => compared,
        Err(error) => return Err((error, replica.into_disk())),
    };
    let items = compared.items;
    if let Err(refusal) = before.begin(items.len()) {
        return Err((ReconcileError::Unready(refusal), replica.into_disk()));
    }
    watch.planned(items.len());
    let (replica, settled) = carry_all(alloc, folder, replica, archive, user, items, watch)?;
    Ok((replica, Report { settled }))
}

/// Does nothing. It says what the types of the three trees keep: a plan of them can be made.
pub(crate) fn tell_types<F: EditedFolder, A: Disk>(folder: &F, replica: &Tree, archive: &Archive<A>)
    ensures folder { CanBePlanned (F.tree folder.now) }
    ensures replica { CanBePlanned replica.now }
    ensures archive { CanBePlanned (marks_shown archive.now) }
{
    let _ = folder.tree().entries();
    let _ = replica.entries();
    let _ = archive.tree().as_slice();
}
