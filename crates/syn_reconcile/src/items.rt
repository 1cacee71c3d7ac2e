//! Carries out the items of a plan.
ghost use Rattle.std.specs.Prelude.{◌≡◌, ◌++◌, ◌∷◌, [], IfErr, IfOk, MatchResult, OnOk};
ghost use Rattle.syn_archive.specs.Archive.{Stands as Keeps, disk_of as marks_disk};
ghost use Rattle.syn_archive.specs.Archive.{pair_of as marks_pair};
ghost use Rattle.syn_disk.specs.Stops.{LeavesOnly};
ghost use Rattle.syn_model.specs.Archive.{Archive as Kept};
ghost use Rattle.syn_model.specs.History.{History};
ghost use Rattle.syn_recon.specs.Items.{items_of};
ghost use Rattle.syn_replica.specs.Replica.{Stands, disk_of, pair_of};
ghost use Rattle.syn_reconcile.specs.Settlings.{GoesOn, after_all, items_in, trees_of};
ghost use Rattle.syn_reconcile.specs.UnderWay.{AreApart, IsStopped, ReachesMarks, ReachesTree};

use crate::carry::carry;
use crate::error::ReconcileError;
use crate::report::Settled;
use crate::watch::ItemWatch;
use std::alloc::Global;
use syn_archive::Archive;
use syn_disk::Disk;
use syn_folder::EditedFolder;
use syn_recon::Item;
use syn_replica::Replica;

/// Carries out each of the items in turn, and answers what came of each. Each is told to `watch`.
///
/// Refused as the replica or the archive refuses it, and 11 where memory is refused: what was
/// carried out before stands then. The replica's disk comes back.
pub(crate) fn carry_all<F: EditedFolder, R: Disk, A: Disk, W: ItemWatch>(
    alloc: Global,
    folder: &mut F,
    replica: Replica<R>,
    archive: &mut Archive<A>,
    user: u32,
    items: Vec<Item>,
    watch: &mut W,
) -> Result<(Replica<R>, Vec<Settled>), (ReconcileError, R)>
    ensures items { IfOk result (λ done. items_in done.1.items ≡ items_of items.items) }
    ensures carried { (history : History) (kept : Kept) → Stands replica history
        → Keeps archive.old kept → IfOk result (λ done. GoesOn user history (after_all
        (trees_of (F.tree folder.old) replica archive.old) done.1.items)
        (F.tree folder.new) done.0 archive.new) }
    ensures stopped { (history : History) (kept : Kept) → Stands replica history
        → Keeps archive.old kept → IfErr result (λ stopped. IsStopped
        (items_of items.items) (pair_of replica) (marks_pair archive.old)
        user history (trees_of (F.tree folder.old) replica archive.old) (F.tree folder.new)
        (R.may_leave stopped.1) (A.may_leave (marks_disk archive.new))) }
    ensures any_moment { (history : History) (kept : Kept) → Stands replica history
        → Keeps archive.old kept → MatchResult result
        (λ done. LeavesOnly R.moment R.left_since (disk_of replica)
        (disk_of done.0) (ReachesTree (items_of items.items)
        (pair_of replica) user history
        (trees_of (F.tree folder.old) replica archive.old)))
        (λ stopped. LeavesOnly R.moment R.left_since (disk_of replica) stopped.1
        (ReachesTree (items_of items.items) (pair_of replica) user history
        (trees_of (F.tree folder.old) replica archive.old))) }
    ensures any_mark { (history : History) (kept : Kept) → Stands replica history
        → Keeps archive.old kept
        → LeavesOnly A.moment A.left_since (marks_disk archive.old)
        (marks_disk archive.new) (ReachesMarks (items_of items.items)
        (marks_pair archive.old) (trees_of (F.tree folder.old) replica archive.old)) }
    ensures apart { (history : History) (kept : Kept) → Stands replica history
        → Keeps archive.old kept → IfOk result (λ done. AreApart (F.strangers folder.old)
        (trees_of (F.tree folder.old) replica archive.old) done.1.items) }
{
    let mut settled = Vec::new(alloc);
    let mut replica = replica;
    for item in items {
        let (now, refused) = carry(alloc, folder, replica, archive, user, &item)?;
        replica = now;
        let one = Settled { item, refused };
        watch.settled(&one);
        match note(&mut settled, one) {
            Ok(()) => {}
            Err(error) => return Err((error, replica.into_disk())),
        }
    }
    Ok((replica, settled))
}

/// Notes what came of an item. Refused where memory is refused.
pub(crate) fn note(settled: &mut Vec<Settled>, one: Settled) -> Result<(), ReconcileError>
    ensures { OnOk result (settled.new.items ≡ settled.old.items ++ one ∷ []) }
{
    settled.push(one)?;
    Ok(())
}
