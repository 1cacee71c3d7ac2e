//! A checkpoint: what the history leaves is written as one image.
ghost use Rattle.std.specs.Prelude.{◌≡◌, ◌⊎◌, ◌+◌, ◌^◌, ◌<◌, ℕ, IfErr, OnOk, Err, length};
ghost use Rattle.syn_disk.specs.Stops.{LeavesOnly};
ghost use Rattle.syn_journal.specs.Endings.{ended};
ghost use Rattle.syn_journal.specs.Layout.{longest_image};
ghost use Rattle.syn_model.specs.History.{History};
ghost use Rattle.syn_model.specs.Image.{image_spelling};
ghost use Rattle.syn_model.specs.Refusal.{Full};
ghost use Rattle.syn_replica.specs.ErrorRefusals.{refusal_of};
ghost use Rattle.syn_replica.specs.Refusals.{IsOneOf, checkpoint_refusals};

use super::Replica;
use crate::{ReplicaError, opening_laws};
use std::alloc::Global;
use syn_disk::Disk;
use syn_journal::JournalError;
use syn_model::history_laws;

impl<D: Disk> Replica<D> {
    ghost use Rattle.syn_replica.specs.Replica.{pair_of, standing_shown, disk_of, generation_shown};
    ghost use Rattle.syn_replica.specs.Replica.{IsHalted, Stands, KeepsOrCompacts};
    ghost use Rattle.syn_replica.specs.Calls.{Compacts};
    ghost use Rattle.syn_replica.specs.Machines.{IsMachine, Journal, WritesImage};

    /// Takes an image of what the history leaves in the place of the journal's records, so that
    /// there is room again. No answer of another call changes, but those that tell of the journal:
    /// its room and its generation, and whether a call is refused 8.
    ///
    /// Refused 10 while the replica is halted, 7 where the generation is the greatest, 11 where
    /// memory is refused, and 9 where a device call fails. Whenever the machine stops, the disk
    /// stands for the history.
    pub fn checkpoint(&mut self, alloc: Global) -> Result<(), ReplicaError>
        ensures acknowledged { (history : History) → Stands self.old history
            → OnOk result (Stands self.new history) }
        ensures any_moment { (history : History) → Stands self.old history
            → LeavesOnly D.moment D.left_since (disk_of self.old) (disk_of self.new)
            (KeepsOrCompacts self.old history) }
        ensures cause { IfErr result (λ e. refusal_of e ≡ Full
            → (generation_shown self.old + 1 ≡ 2 ^ 64) ⊎ (longest_image
            < length (image_spelling (pair_of self.old) (standing_shown self.old)))) }

        // The image of a history is never too long, so that the generation alone is a cause. It is
        // looked at before any memory is taken.
        ensures full { (history : History) → Stands self.old history → IfErr result
            (λ e. refusal_of e ≡ Full → generation_shown self.old + 1 ≡ 2 ^ 64) }
        ensures first { generation_shown self.old + 1 ≡ 2 ^ 64 → ¬ IsHalted self.old
            → result ≡ Err (ReplicaError.Journal JournalError.Full) }
        ensures refusals { IfErr result (IsOneOf checkpoint_refusals) }
        ensures machine { Compacts self.old self.new (ended refusal_of result) }

        // What it is to the model's machine, also where its device fails or stops.
        ensures world { (number : ℕ) (machine : Journal) → IsMachine self.old number machine
            → WritesImage self.new number machine (ended refusal_of result) }
    {
        opening_laws();
        history_laws();
        self.journaled.checkpoint(alloc)
    }
}
