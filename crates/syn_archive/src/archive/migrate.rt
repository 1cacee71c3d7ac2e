//! A migration: an archive of the first version is written as one image of the second.
ghost use Rattle.std.specs.Prelude.{◌≡◌, ◌⊎◌, ◌+◌, ◌<◌, ◌^◌, ℕ, None, Some, IfOk, IfErr, IsErrAnd};
ghost use Rattle.std.specs.Prelude.{MatchResult};
ghost use Rattle.syn_archive.specs.Disks.{DiskKeepsIn, DiskStandsIn, IsAtGreatest};
ghost use Rattle.syn_archive.specs.Disks.{IsMigrateRefusal, IsOldDisk, KeepsOrMigrates};
ghost use Rattle.syn_archive.specs.Refusals.{refusal_of};
ghost use Rattle.syn_disk.specs.Calls.{MakesAtLeast};
ghost use Rattle.syn_disk.specs.Stops.{LeavesOnly, Untouched};
ghost use Rattle.syn_journal.specs.Journal as journal;
ghost use Rattle.syn_journal.specs.Layout.{image_alone};
ghost use Rattle.syn_journal.specs.Endings.{CountsFailures, ReadsOrBreaks};
ghost use Rattle.syn_model.specs.Archive.{Archive as KeptArchive};
ghost use Rattle.syn_model.specs.MarkSpelling.{archive_spelling};
ghost use Rattle.syn_model.specs.Version.{One, Version};

use super::Archive;
use crate::error::ArchiveError;
use crate::laws::opening_laws;
use std::alloc::Global;
use syn_disk::Disk;
use syn_journal::Journaled;
use syn_model::archive_laws;

impl<D: Disk> Archive<D> {
    ghost use Rattle.syn_archive.specs.Archive.{disk_of, generation_shown, journal_of, pair_of};
    ghost use Rattle.syn_archive.specs.Archive.{shown, Stands};

    /// Opens what the disk holds, of whatever pair. An archive of the first version is read with
    /// what was kept since its image, and written as one image of the second.
    ///
    /// Refused 9 where a device call fails, 18 where the disk holds no image, and 19 where its
    /// layout is broken or it means no archive in any version. Refused 7 where the archive is of
    /// the first version and its generation is the greatest that can be written, and 11 where
    /// memory is refused. The disk comes back. Nothing is written where it is of the second
    /// version, nor before any refusal but 9.
    pub fn migrate(alloc: Global, disk: D) -> Result<Archive<D>, (ArchiveError, D)>
        // It shows what the disk stood for in its version, and stands for it in the second.
        ensures given { IfOk result (λ archive. (version : Version)
            × DiskStandsIn version (pair_of archive) (D.seen disk) (shown archive)) }
        ensures stands { IfOk result (λ archive. Stands archive (shown archive)) }
        ensures migrated { IfOk result (λ archive. (version : Version) (number : ℕ)
            (kept : KeptArchive) → number < 2 ^ 64 → DiskStandsIn version number (D.seen disk) kept
            → (number ≡ pair_of archive) × Stands archive kept) }

        // One of the first version is written as one image, with the next generation.
        ensures image { IfOk result (λ archive. (number : ℕ) (kept : KeptArchive)
            (left generation : ℕ) → number < 2 ^ 64
            → DiskKeepsIn One number kept left generation (D.seen disk)
            → (generation_shown archive ≡ generation + 1)
            × journal.Stands (journal_of archive) (image_alone (archive_spelling number kept))) }

        // Nothing else is written.
        ensures same { ¬ IsOldDisk (D.seen disk) → MatchResult result
            (λ archive. Untouched D.seen D.may_leave D.moment D.left_since disk (disk_of archive))
            (λ refused. Untouched D.seen D.may_leave D.moment D.left_since disk refused.1) }

        // A stop leaves what it might have left before, the archive as it was in the first version,
        // or its image alone with the next generation. A read gives one of the last two.
        ensures any_moment { (number : ℕ) (kept : KeptArchive) (left generation : ℕ)
            → number < 2 ^ 64 → DiskKeepsIn One number kept left generation (D.seen disk)
            → MatchResult result
            (λ archive. LeavesOnly D.moment D.left_since disk (disk_of archive) (λ bytes.
            D.may_leave disk bytes ⊎ KeepsOrMigrates number kept left generation bytes))
            (λ refused. LeavesOnly D.moment D.left_since disk refused.1 (λ bytes.
            D.may_leave disk bytes ⊎ KeepsOrMigrates number kept left generation bytes)) }
        ensures seen { (number : ℕ) (kept : KeptArchive) (left generation : ℕ)
            → number < 2 ^ 64 → DiskKeepsIn One number kept left generation (D.seen disk)
            → MatchResult result
            (λ archive. KeepsOrMigrates number kept left generation (D.seen (disk_of archive)))
            (λ refused. KeepsOrMigrates number kept left generation (D.seen refused.1)) }

        // Each refusal has its cause. No image of an archive is too long, so that the generation
        // alone is a cause of 7.
        ensures refusals { IfErr result (λ refused. IsMigrateRefusal refused.0 (D.seen disk)) }
        ensures lawful { (version : Version) (number : ℕ) (kept : KeptArchive) → number < 2 ^ 64
            → DiskStandsIn version number (D.seen disk) kept → IfErr result (λ refused.
            (refused.0 ≡ ArchiveError.Full) ⊎ ((refused.0 ≡ ArchiveError.Device)
            ⊎ (refused.0 ≡ ArchiveError.Memory))) }
        ensures greatest { IsAtGreatest (D.seen disk) → IsErrAnd result (λ refused.
            (refused.0 ≡ ArchiveError.Full) ⊎ ((refused.0 ≡ ArchiveError.Device)
            ⊎ (refused.0 ≡ ArchiveError.Memory))) }
        ensures untouched { IfErr result (λ refused. (refused.0 ≡ ArchiveError.Device)
            ⊎ Untouched D.seen D.may_leave D.moment D.left_since disk refused.1) }
        ensures failures { MatchResult result
            (λ archive. CountsFailures None (D.failures disk) (D.failures (disk_of archive)))
            (λ refused. CountsFailures (Some (refusal_of refused.0)) (D.failures disk)
            (D.failures refused.1)) }

        // A sync and then reads, whose number is not fixed, as an opening makes them. For an
        // archive of the first version they come twice, and then the six device calls of a
        // checkpoint. After 9 the last of them failed.
        ensures calls { MatchResult result
            (λ archive. ReadsOrBreaks 1 None (D.arms disk) (D.arms (disk_of archive)))
            (λ refused. ReadsOrBreaks 1 (Some (refusal_of refused.0)) (D.arms disk)
            (D.arms refused.1)) }
        ensures writes { IsOldDisk (D.seen disk) → IfOk result (λ archive.
            MakesAtLeast 8 (D.arms disk) (D.arms (disk_of archive))) }
    {
        opening_laws();
        archive_laws();
        let (error, disk) = match Archive::open(alloc, disk, None) {
            Ok(archive) => return Ok(archive),
            Err(refused) => refused,
        };
        match error {
            ArchiveError::OldVersion => match Journaled::migrate(alloc, disk) {
                Ok(journaled) => Ok(Archive { journaled }),
                Err(refused) => Err(refused),
            },
            _ => Err((error, disk)),
        }
    }
}
