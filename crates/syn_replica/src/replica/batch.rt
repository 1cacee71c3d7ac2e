//! Many edits at once: all of them are made, or none.
ghost use Rattle.std.specs.Prelude.{◌≡◌, ◌⊎◌, ◌≤◌, ◌-◌, ◌++◌, ℕ, length, map, None, Some};
ghost use Rattle.std.specs.Prelude.{IfErr, IfOk, IsErrAnd, MatchResult, OnOk};
ghost use Rattle.syn_disk.specs.Stops.{LeavesOnly};
ghost use Rattle.syn_journal.specs.Batches.{bytes_of_each, calls_for, records_size};
ghost use Rattle.syn_journal.specs.Endings.{Spends};
ghost use Rattle.syn_model.specs.History.{History};
ghost use Rattle.syn_model.specs.Refusal.{Refusal, Device, Memory};
ghost use Rattle.syn_model.specs.Spelling.{event_spelling};
ghost use Rattle.syn_model.specs.Standing.{IsAllowedAt, standing_after};
ghost use Rattle.syn_replica.specs.Batches.{HasRecords, KeepsNoneOrAll, add_all_refusal};
ghost use Rattle.syn_replica.specs.Edits.{event_by};
ghost use Rattle.syn_replica.specs.Refusals.{IsOneOf, edit_refusals, outside_refusals};
ghost use Rattle.syn_replica.specs.inner.Additions.{add_refusal_at};
ghost use Rattle.syn_replica.specs.inner.Batches.{AddsAll, add_all_refusal_at};
ghost use Rattle.syn_replica.specs.ErrorRefusals.{refusal_of};

use super::Replica;
use crate::remembered::Remembered;
use crate::{ReplicaError, Standing, opening_laws};
use std::alloc::Global;
use syn_disk::Disk;
use syn_history::Event;
use syn_journal::{JournalError, Journaled, RECORD_HEADER, layout_laws};
use syn_model::history_laws;
use syn_tree::Edit;
use syn_wire::{edit_length, encode_event};

impl<D: Disk> Replica<D> {
    ghost use Rattle.syn_replica.specs.Replica.{Stands, disk_of, room_shown, tried_shown};

    /// Makes the edits of the user, in their order, all of them or none. What the disk has then is
    /// what an `edit` of each would leave.
    ///
    /// Refused 10 while the replica is halted. Otherwise the edits are checked in order, each on
    /// what those before it leave, and the first refusal is the answer. Refused 11 where memory is
    /// refused, and 9 where a device call fails. The disk comes back. After 9, and after a stop at
    /// any moment, it has either none of the edits or all of them; after any other refusal it was
    /// not written.
    pub fn edit_all(
        self,
        alloc: Global,
        user: u32,
        edits: Vec<Edit>,
    ) -> Result<Replica<D>, (ReplicaError, D)>
        ensures acknowledged { (history : History) → Stands self history
            → IfOk result (λ replica.
            Stands replica (history ++ map (event_by user) edits.items)) }
        ensures any_moment { (history : History) → Stands self history → MatchResult result
            (λ replica. LeavesOnly D.moment D.left_since (disk_of self) (disk_of replica)
            (KeepsNoneOrAll self history (map (event_by user) edits.items)))
            (λ refused. LeavesOnly D.moment D.left_since (disk_of self) refused.1
            (KeepsNoneOrAll self history (map (event_by user) edits.items))) }

        // Each refusal has its cause, and each cause its refusal, unless memory is refused first.
        ensures cause { (history : History) → Stands self history
            → IfErr result (λ refused. IsOneOf outside_refusals refused.0
            ⊎ (add_all_refusal (room_shown self) history (map (event_by user) edits.items)
            ≡ Some (refusal_of refused.0))) }
        ensures refused { (history : History) (why : Refusal) → Stands self history
            → add_all_refusal (room_shown self) history (map (event_by user) edits.items)
            ≡ Some why
            → IsErrAnd result (λ refused. (refusal_of refused.0 ≡ why)
            ⊎ (refusal_of refused.0 ≡ Memory)) }
        ensures refusals { IfErr result (λ refused. IsOneOf edit_refusals refused.0) }
        ensures unchanged { IfErr result (λ refused. (refusal_of refused.0 ≡ Device)
            ⊎ (refused.1 ≡ disk_of self)) }

        // What the replica shows then. No single event is the one that was tried last.
        ensures readings { IfOk result (λ replica.
            HasRecords self replica (map (event_by user) edits.items)) }
        ensures tried { IfOk result (λ replica. tried_shown replica ≡ None) }

        // Four device calls for all of them, and none where there is no edit.
        ensures device { MatchResult result
            (λ replica. Spends D.Disk (calls_for edits.items) None (disk_of self)
            (disk_of replica))
            (λ refused. Spends D.Disk (calls_for edits.items) (Some (refusal_of refused.0))
            (disk_of self) refused.1) }
    {
        history_laws();
        layout_laws();
        if let Err(error) = self.check_running() {
            return Err((error, self.into_disk()));
        }
        let room = self.room();
        let (journal, memory) = self.journaled.into_parts();
        let Remembered { pair, standing } = memory;
        let (payloads, standing) = match add_all(alloc, standing, room, user, edits) {
            Ok(added) => added,
            Err(error) => return Err((error, journal.into_disk())),
        };
        let memory = Remembered { pair, standing };
        let journaled = Journaled::append_all(alloc, journal, &payloads, memory)?;
        Ok(Replica {
            journaled,
            tried: None,
            digests: self.digests,
        })
    }
}

/// How the edits are spelled as events of the user, and what they leave of the standing, where the
/// journal has so much room.
///
/// Refused as the first of them is that is refused, and 11 where memory is refused.
fn add_all(
    alloc: Global,
    first: Standing,
    room: usize,
    user: u32,
    edits: Vec<Edit>,
) -> Result<(Vec<Vec<u8>>, Standing), ReplicaError>
    ensures added { IfOk result (λ added. AddsAll first (map (event_by user) edits.items)
        (bytes_of_each added.0.items) added.1) }
    ensures count { IfOk result (λ added. length added.0.items ≡ length edits.items) }
    ensures fits { (left : ℕ) → room ≡ left - 5
        → IfOk result (λ added. records_size (bytes_of_each added.0.items) ≤ left) }
    ensures passed { OnOk result
        (add_all_refusal_at room first (map (event_by user) edits.items) ≡ None) }
    ensures refused { IfErr result (λ e. (refusal_of e ≡ Memory)
        ⊎ (add_all_refusal_at room first (map (event_by user) edits.items)
        ≡ Some (refusal_of e))) }
{
    let mut standing = first;
    let mut left = room;
    let mut payloads = Vec::with_capacity(alloc, edits.len())?;
    for edit in edits {
        let payload = add_one(alloc, &mut standing, left, user, edit)?;
        left = left.saturating_sub(RECORD_HEADER + payload.len());
        payloads.push(payload)?;
    }
    Ok((payloads, standing))
}

/// How the edit is spelled as an event of the user, which is added to the standing. After a refusal
/// the standing is as it was.
///
/// Refused as the event is, 8 where it does not fit in the room, and 11 where memory is refused.
fn add_one(
    alloc: Global,
    standing: &mut Standing,
    room: usize,
    user: u32,
    edit: Edit,
) -> Result<Vec<u8>, ReplicaError>
    ensures allowed { OnOk result (IsAllowedAt standing.old (event_by user edit)) }
    ensures spelled { IfOk result
        (λ payload. payload.items ≡ event_spelling (event_by user edit)) }
    ensures made { OnOk result
        (standing.new ≡ standing_after standing.old (event_by user edit)) }
    ensures fits { IfOk result (λ payload. length payload.items ≤ room) }
    ensures passed { OnOk result (add_refusal_at room standing.old (event_by user edit) ≡ None) }
    ensures refused { IfErr result (λ e. (refusal_of e ≡ Memory)
        ⊎ (add_refusal_at room standing.old (event_by user edit) ≡ Some (refusal_of e))) }
{
    opening_laws();
    let length = edit_length(&edit);
    let event = Event::Edited { user, edit };
    standing.check(&event)?;
    if length > room {
        return Err(ReplicaError::Journal(JournalError::JournalFull));
    }
    let payload = encode_event(alloc, &event)?;
    let update = standing.prepare(alloc, event)?;
    standing.make(update);
    Ok(payload)
}
