//! Many edits at once, after a checkpoint where the journal may have too little room for them.
ghost use Rattle.std.specs.Prelude.{◌≡◌, ◌++◌, IfErr, IfOk, MatchResult, map};
ghost use Rattle.syn_disk.specs.Stops.{LeavesOnly};
ghost use Rattle.syn_model.specs.History.{History};
ghost use Rattle.syn_replica.specs.Disks.{DiskStands};
ghost use Rattle.syn_replica.specs.Edits.{event_by};
ghost use Rattle.syn_replica.specs.ErrorRefusals.{refusal_of};
ghost use Rattle.syn_replica.specs.Refusals.{IsOneOf, edit_refusals};
ghost use Rattle.syn_replica.specs.Replica.{Stands, disk_of, pair_of};
ghost use Rattle.syn_replica.specs.WithRoom.{IsUnmade, NoneOrAll};

use super::Replica;
use crate::ReplicaError;
use std::alloc::Global;
use syn_disk::Disk;
use syn_tree::Edit;

/// A journal that has room for so many bytes has room for the records of all needed edits that make
/// one tree of a replica another: they have no more than the names and the bytes of a replica that
/// is full, twice.
pub const ROOM_FOR_EDITS: usize = 1_441_792;

impl<D: Disk> Replica<D> {
    /// Makes the edits of the user, in their order, all of them or none. Where the journal may have
    /// too little room for the edits that make one tree another, a checkpoint comes first. Where
    /// there is no edit, nothing is done.
    ///
    /// Refused as `edit_all` is, or as the checkpoint is. The disk comes back. It may have been
    /// written then, but only after 9 may it have the edits: opened again, it has the events before
    /// the call, or those and all of these.
    pub fn edit_all_with_room(
        self,
        alloc: Global,
        user: u32,
        edits: Vec<Edit>,
    ) -> Result<Replica<D>, (ReplicaError, D)>
        ensures acknowledged { (history : History) → Stands self history
            → IfOk result (λ replica.
            Stands replica (history ++ map (event_by user) edits.items)) }
        ensures pair { IfOk result (λ replica. pair_of replica ≡ pair_of self) }

        // Whenever the machine stops, the disk has all of them or none.
        ensures any_moment { (history : History) → Stands self history → MatchResult result
            (λ replica. LeavesOnly D.moment D.left_since (disk_of self) (disk_of replica)
            (NoneOrAll (pair_of self) history (map (event_by user) edits.items)))
            (λ refused. LeavesOnly D.moment D.left_since (disk_of self) refused.1
            (NoneOrAll (pair_of self) history (map (event_by user) edits.items))) }
        ensures unmade { (history : History) → Stands self history → IfErr result
            (λ refused. IsUnmade self history (refusal_of refused.0) refused.1) }
        ensures refusals { IfErr result (λ refused. IsOneOf edit_refusals refused.0) }
    {
        if edits.is_empty() {
            return Ok(self);
        }
        with_room(alloc, self)?.edit_all(alloc, user, edits)
    }
}

/// The replica with room in its journal for the edits that make one tree another.
///
/// Refused as a checkpoint is, which makes that room; the disk comes back.
fn with_room<D: Disk>(
    alloc: Global,
    mut replica: Replica<D>,
) -> Result<Replica<D>, (ReplicaError, D)>
    ensures made { (history : History) → Stands replica history
        → IfOk result (λ new. Stands new history) }
    ensures pair { IfOk result (λ new. pair_of new ≡ pair_of replica) }
    ensures any_moment { (history : History) → Stands replica history → MatchResult result
        (λ new. LeavesOnly D.moment D.left_since (disk_of replica) (disk_of new)
        (λ bytes. DiskStands (pair_of replica) bytes history))
        (λ refused. LeavesOnly D.moment D.left_since (disk_of replica) refused.1
        (λ bytes. DiskStands (pair_of replica) bytes history)) }
    ensures refusals { IfErr result (λ refused. IsOneOf edit_refusals refused.0) }
{
    if replica.room() >= ROOM_FOR_EDITS {
        return Ok(replica);
    }
    match replica.checkpoint(alloc) {
        Ok(()) => Ok(replica),
        Err(error) => Err((error, replica.into_disk())),
    }
}
