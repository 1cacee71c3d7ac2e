//! An opening: an archive finds out what a disk, or its own, stands for.
ghost use Rattle.std.specs.Prelude.{◌≡◌, ◌⊎◌, ◌<◌, ◌^◌, ℕ, None, Some, IfOk, IfErr, IsErrAnd, OnOk};
ghost use Rattle.std.specs.Prelude.{MatchResult};
ghost use Rattle.syn_journal.specs.Endings.{Reads, ended};
ghost use Rattle.syn_model.specs.Archive.{Archive as KeptArchive, Kept, after_kept};
ghost use Rattle.syn_archive.specs.Disks.{DiskStands, IsOldDisk, IsOpenRefusal, IsReopenRefusal};
ghost use Rattle.syn_archive.specs.Disks.{IsWanted};
ghost use Rattle.syn_archive.specs.Refusals.{refusal_of};

use super::Archive;
use crate::error::ArchiveError;
use crate::laws::opening_laws;
use std::alloc::Global;
use syn_disk::Disk;
use syn_journal::Journaled;

impl<D: Disk> Archive<D> {
    ghost use Rattle.syn_archive.specs.Archive.{pair_of, shown, disk_of, Stands};
    ghost use Rattle.syn_archive.specs.Archive.{KeepsBeforeOrAfter};
    ghost use Rattle.syn_archive.specs.Calls.{Reopens};
    ghost use Rattle.syn_archive.specs.Machines.{IsMachine, Journal, ReadsDisk, Starts};
    ghost use Rattle.syn_archive.specs.Keepings.{of_archive};
    ghost use Rattle.syn_journal.specs.Machines.{Rests, RestsStill};

    /// Opens what the disk holds.
    ///
    /// Refused 9 where a device call fails, 18 where the disk holds no image, 26 where its image is
    /// of the first version, 19 where its layout is broken or it means nothing that an archive
    /// holds, 20 where it is of another pair than the one given, and 11 where memory is refused.
    /// The disk comes back, and nothing is written.
    pub fn open(alloc: Global, disk: D, pair: Option<u64>) -> Result<Archive<D>, (ArchiveError, D)>
        // It shows what the disk stands for, and stands for each archive that the disk stands for.
        ensures given { IfOk result (λ archive.
            DiskStands (pair_of archive) (D.seen disk) (shown archive)) }
        ensures stands { IfOk result (λ archive. Stands archive (shown archive)) }
        ensures each { IfOk result (λ archive. (number : ℕ) (kept : KeptArchive) → number < 2 ^ 64
            → DiskStands number (D.seen disk) kept
            → (number ≡ pair_of archive) × Stands archive kept) }
        ensures wanted { IfOk result (λ archive. (asked : ℕ) → pair ≡ Some asked
            → asked ≡ pair_of archive) }

        // Each refusal has its cause. No two causes hold of one disk, and none of a lawful one,
        // which is refused 9 and 11 alone.
        ensures refusals { IfErr result (λ refused. IsOpenRefusal refused.0 pair (D.seen disk)) }
        ensures lawful { (number : ℕ) (kept : KeptArchive) → number < 2 ^ 64
            → DiskStands number (D.seen disk) kept → IsWanted pair number
            → IfErr result (λ refused.
            (refused.0 ≡ ArchiveError.Device) ⊎ (refused.0 ≡ ArchiveError.Memory)) }

        // A disk of the first version is refused for that, or 9 or 11.
        ensures old { IsOldDisk (D.seen disk) → IsErrAnd result (λ refused.
            (refused.0 ≡ ArchiveError.OldVersion) ⊎ ((refused.0 ≡ ArchiveError.Device)
            ⊎ (refused.0 ≡ ArchiveError.Memory))) }

        // A sync and then reads, whose number is not fixed; after 9 the last of them failed.
        ensures device { MatchResult result
            (λ archive. Reads D.Disk None disk (disk_of archive))
            (λ refused. Reads D.Disk (Some (refusal_of refused.0)) disk refused.1) }

        // What it is to the model's machine of the pair, which was down.
        ensures world { (number : ℕ) (machine : Journal) → pair ≡ Some number → number < 2 ^ 64
            → Rests D.arms D.may_leave (of_archive number) disk machine → MatchResult result
            (λ archive. Starts archive number machine)
            (λ refused. RestsStill D.arms D.may_leave (of_archive number) refused.1 machine
            (refusal_of refused.0)) }
    {
        opening_laws();
        let journaled = Journaled::open(alloc, disk, pair)?;
        Ok(Archive { journaled })
    }

    /// Opens the archive's own disk again. An archive that was halted runs again.
    ///
    /// Refused 9 where a device call fails, 18 where the disk holds no image, 19 where its layout
    /// is broken or it means no archive of the pair, and 11 where memory is refused. After 11 the
    /// archive is as it was, halted or not; after any other refusal it is halted. One that was
    /// halted then shows what it showed. Nothing is written.
    pub fn reopen(&mut self, alloc: Global) -> Result<(), ArchiveError>
        // It shows what the disk stands for, and stands for each archive that the disk stands for.
        ensures given { OnOk result
            (DiskStands (pair_of self.new) (D.seen (disk_of self.old)) (shown self.new)) }
        ensures each { OnOk result ((kept : KeptArchive)
            → DiskStands (pair_of self.new) (D.seen (disk_of self.old)) kept
            → Stands self.new kept) }

        // Where a call was refused 9, it leaves the archive before the call, or that with what was
        // being kept.
        ensures before_or_after { (kept : KeptArchive) (what : Kept)
            → KeepsBeforeOrAfter self.old kept what (D.seen (disk_of self.old))
            → OnOk result (Stands self.new kept ⊎ Stands self.new (after_kept kept what)) }

        // Each refusal has its cause.
        ensures refusals { IfErr result (λ e.
            IsReopenRefusal e (pair_of self.old) (D.seen (disk_of self.old))) }
        ensures unchanged { (kept : KeptArchive) → Stands self.old kept
            → IfErr result (λ e. (e ≡ ArchiveError.Device) ⊎ Stands self.new kept) }

        // A sync and then reads, whose number is not fixed; after 9 the last of them failed.
        ensures machine { Reopens self.old self.new (ended refusal_of result) }

        // What it is to the model's machine, also where its device fails or stops.
        ensures world { (number : ℕ) (machine : Journal) → IsMachine self.old number machine
            → ReadsDisk self.new number machine (ended refusal_of result) }
    {
        opening_laws();
        self.journaled.reopen(alloc)
    }
}
