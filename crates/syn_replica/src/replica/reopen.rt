//! A reopening: a replica finds out anew what its own disk stands for.
ghost use Rattle.std.specs.Prelude.{◌≡◌, ◌≤◌, ◌<◌, ◌⊎◌, ◌++◌, ◌∷◌, [], None, Ok, IfErr, OnOk};
ghost use Rattle.std.specs.Prelude.{MatchResult, length, ℕ};
ghost use Rattle.syn_journal.specs.Endings.{ended};
ghost use Rattle.syn_model.specs.Event.{Event};
ghost use Rattle.syn_model.specs.History.{History};
ghost use Rattle.syn_model.specs.Refusal.{Device};
ghost use Rattle.syn_replica.specs.Disks.{DiskGives, DiskStands, IsReopenRefusal};
ghost use Rattle.syn_replica.specs.ErrorRefusals.{refusal_of};
ghost use Rattle.syn_replica.specs.Refusals.{IsOneOf, outside_refusals};

use super::Replica;
use crate::{ReplicaError, opening_laws};
use std::alloc::Global;
use syn_disk::Disk;

impl<D: Disk> Replica<D> {
    ghost use Rattle.syn_replica.specs.Replica.{pair_of, standing_shown, tried_shown, disk_of};
    ghost use Rattle.syn_replica.specs.Replica.{position_shown, Stands, KeepsBeforeOrAfter};
    ghost use Rattle.syn_replica.specs.Growth.{KeepsUp, WithTried};
    ghost use Rattle.syn_replica.specs.Calls.{Reopens};
    ghost use Rattle.syn_replica.specs.Machines.{IsMachine, Journal, ReadsDisk};

    /// Opens the replica's own disk again. A replica that was halted runs again.
    ///
    /// Refused 9 where a device call fails, 18 where the disk holds no image, 19 where it means
    /// nothing that a replica of the pair holds or gives fewer events than the replica remembers,
    /// and 11 where memory is refused. After 11 the replica is as it was, halted or not; after any
    /// other refusal it is halted. One that was halted then shows what it showed. Nothing is
    /// written.
    pub fn reopen(&mut self, alloc: Global) -> Result<(), ReplicaError>
        // It shows what the disk gives, and stands for each history that the disk stands for.
        ensures given { OnOk result
            (DiskGives (pair_of self.new) (D.seen (disk_of self.old)) (standing_shown self.new)) }
        ensures each { OnOk result ((history : History)
            → DiskStands (pair_of self.new) (D.seen (disk_of self.old)) history
            → Stands self.new history) }

        // Where a call was refused 9, it leaves the history before the call, or that with the event
        // that was being written.
        ensures before_or_after { (history : History) (event : Event)
            → KeepsBeforeOrAfter self.old history event (D.seen (disk_of self.old))
            → OnOk result (Stands self.new history ⊎ Stands self.new (history ++ event ∷ [])) }

        // A replica that keeps up with a history stands for it again, or for it with the event that
        // was tried last. It is refused 9 and 11 alone.
        ensures keeps_up { (history : History) → KeepsUp self.old history → MatchResult result
            (λ _. WithTried (Stands self.new) (tried_shown self.old) history)
            (IsOneOf outside_refusals) }

        // So is it wherever its disk stands for a history that is not shorter than what it
        // remembers.
        ensures lawful { (history : History)
            → DiskStands (pair_of self.old) (D.seen (disk_of self.old)) history
            → position_shown self.old ≤ length history
            → IfErr result (IsOneOf outside_refusals) }

        // Each refusal has its cause.
        ensures refusals { IfErr result (λ e. IsReopenRefusal e (pair_of self.old)
            (position_shown self.old) (D.seen (disk_of self.old))) }
        ensures unchanged { (history : History) → Stands self.old history
            → IfErr result (λ e. (refusal_of e ≡ Device) ⊎ Stands self.new history) }
        ensures machine { Reopens self.old self.new (ended refusal_of result) }

        // What it is to the model's machine, also where its device fails or stops.
        ensures world { (number : ℕ) (machine : Journal) → IsMachine self.old number machine
            → ReadsDisk self.new number machine (ended refusal_of result) }
    {
        opening_laws();
        match self.journaled.reopen(alloc) {
            Ok(()) => {
                self.tried = None;
                Ok(())
            }
            Err(error) => Err(error),
        }
    }
}
