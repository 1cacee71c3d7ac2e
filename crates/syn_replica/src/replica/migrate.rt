//! A migration: what a disk of version 1 holds is written in version 2.
ghost use Rattle.std.specs.Prelude.{◌≡◌, ◌⊎◌, ◌^◌, ◌<◌, ℕ, IfOk, IfErr};
ghost use Rattle.std.specs.Prelude.{IsErrAnd, MatchResult, None, Some};
ghost use Rattle.syn_disk.specs.Calls.{MakesAtLeast};
ghost use Rattle.syn_journal.specs.Endings.{CountsFailures, ReadsOrBreaks};
ghost use Rattle.syn_disk.specs.Stops.{LeavesOnly, Untouched};
ghost use Rattle.syn_journal.specs.Layout.{Value, HasJournal};
ghost use Rattle.syn_model.specs.History.{History};
ghost use Rattle.syn_model.specs.Image.{IsOldImage};
ghost use Rattle.syn_model.specs.Refusal.{Device};
ghost use Rattle.syn_model.specs.Version as model;
ghost use Rattle.syn_model.specs.Version.{One};
ghost use Rattle.syn_replica.specs.ErrorRefusals.{refusal_of};
ghost use Rattle.syn_replica.specs.Disks.{DiskGives, DiskKeepsIn, DiskStandsIn};
ghost use Rattle.syn_replica.specs.Disks.{IsOldDisk};
ghost use Rattle.syn_replica.specs.Migrating.{GivesInEither, KeepsOrMigrates, OrBefore};
ghost use Rattle.syn_replica.specs.Migrating.{IsMigrateRefusal, IsOldAndFull};
ghost use Rattle.syn_replica.specs.Refusals.{IsOneOf};
ghost use Rattle.syn_replica.specs.Refusals.{greatest_refusals, lawful_refusals};

use super::Replica;
use crate::{ReplicaError, opening_laws};
use std::alloc::Global;
use std::cell::Cell;
use syn_disk::Disk;
use syn_journal::Journaled;
use syn_model::history_laws;

impl<D: Disk> Replica<D> {
    ghost use Rattle.syn_replica.specs.Replica.{pair_of, standing_shown, tried_shown, disk_of};
    ghost use Rattle.syn_replica.specs.Replica.{Stands};
    ghost use Rattle.syn_replica.specs.Migrating.{IsRenewed};

    /// Opens what the disk holds, as `open` does for any pair. Where that is of version 1, it is
    /// read so, with its payloads, and written in version 2 by one checkpoint.
    ///
    /// Refused 9 where a device call fails, 18 where the disk holds no image, 19 where it means
    /// nothing that a replica holds, 7 where it is of version 1 and its generation is the greatest,
    /// and 11 where memory is refused; the disk comes back. After any refusal but 9 it is as it
    /// was, and so is one of version 2. Whenever the machine stops, the disk has what it had, in
    /// version 1 or in version 2.
    pub fn migrate(alloc: Global, disk: D) -> Result<Replica<D>, (ReplicaError, D)>
        // It shows what the disk gives, and stands for each history that the disk stands for, in
        // whichever version.
        ensures given { IfOk result (λ replica.
            GivesInEither (pair_of replica) (D.seen disk) (standing_shown replica)) }
        ensures migrated { IfOk result (λ replica. (version : model.Version) (number : ℕ)
            (history : History) → number < 2 ^ 64
            → DiskStandsIn version number (D.seen disk) history
            → (number ≡ pair_of replica) × Stands replica history) }
        ensures tried { IfOk result (λ replica. tried_shown replica ≡ None) }

        // Then the disk gives it in version 2: by the image alone, with the next generation, where
        // it was of version 1. Nothing else is written.
        ensures gives { IfOk result (λ replica.
            DiskGives (pair_of replica) (D.seen (disk_of replica)) (standing_shown replica)) }
        ensures image { (value : Value) (generation : ℕ)
            → HasJournal (D.seen disk) value generation → IsOldImage value.image
            → IfOk result (λ replica. IsRenewed replica generation) }
        ensures same { ¬ IsOldDisk (D.seen disk) → MatchResult result
            (λ replica. Untouched D.seen D.may_leave D.moment D.left_since disk (disk_of replica))
            (λ refused. Untouched D.seen D.may_leave D.moment D.left_since disk refused.1) }

        // What a stop leaves of a history in version 1, and what a read gives.
        ensures any_moment { (number : ℕ) (history : History) (left generation : ℕ)
            → number < 2 ^ 64 → DiskKeepsIn One number history left generation (D.seen disk)
            → MatchResult result
            (λ replica. LeavesOnly D.moment D.left_since disk (disk_of replica)
            (OrBefore (D.may_leave disk) (KeepsOrMigrates number history left generation)))
            (λ refused. LeavesOnly D.moment D.left_since disk refused.1
            (OrBefore (D.may_leave disk) (KeepsOrMigrates number history left generation))) }
        ensures seen { (number : ℕ) (history : History) (left generation : ℕ)
            → number < 2 ^ 64 → DiskKeepsIn One number history left generation (D.seen disk)
            → MatchResult result
            (λ replica. KeepsOrMigrates number history left generation (D.seen (disk_of replica)))
            (λ refused. KeepsOrMigrates number history left generation (D.seen refused.1)) }

        // Each refusal has its cause.
        ensures refusals { IfErr result (λ refused. IsMigrateRefusal refused.0 (D.seen disk)) }
        ensures greatest { IsOldAndFull (D.seen disk)
            → IsErrAnd result (λ refused. IsOneOf greatest_refusals refused.0) }
        ensures lawful { (version : model.Version) (number : ℕ) (history : History)
            → number < 2 ^ 64 → DiskStandsIn version number (D.seen disk) history
            → IfErr result (λ refused. IsOneOf lawful_refusals refused.0) }

        ensures untouched { IfErr result (λ refused. (refusal_of refused.0 ≡ Device)
            ⊎ Untouched D.seen D.may_leave D.moment D.left_since disk refused.1) }
        ensures failures { MatchResult result
            (λ replica. CountsFailures None (D.failures disk) (D.failures (disk_of replica)))
            (λ refused. CountsFailures (Some (refusal_of refused.0)) (D.failures disk)
            (D.failures refused.1)) }

        // A sync and then reads, whose number is not fixed, as an opening makes them. Where the
        // disk is of version 1 they come twice, and then the six device calls of a checkpoint.
        ensures calls { MatchResult result
            (λ replica. ReadsOrBreaks 1 None (D.arms disk) (D.arms (disk_of replica)))
            (λ refused. ReadsOrBreaks 1 (Some (refusal_of refused.0)) (D.arms disk)
            (D.arms refused.1)) }
        ensures writes { IsOldDisk (D.seen disk) → IfOk result
            (λ replica. MakesAtLeast 8 (D.arms disk) (D.arms (disk_of replica))) }
    {
        opening_laws();
        history_laws();
        let (error, disk) = match Replica::open(alloc, disk, None) {
            Ok(replica) => return Ok(replica),
            Err(refused) => refused,
        };
        match error {
            ReplicaError::OldVersion => match Journaled::migrate(alloc, disk) {
                Ok(journaled) => Ok(Replica {
                    journaled,
                    tried: None,
                    digests: Cell::new(None),
                }),
                Err(refused) => Err(refused),
            },
            _ => Err((error, disk)),
        }
    }
}
