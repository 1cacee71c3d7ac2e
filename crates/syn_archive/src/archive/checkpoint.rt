//! A checkpoint: all that an archive keeps is written as one image.
ghost use Rattle.std.specs.Prelude.{◌≡◌, ◌⊎◌, ◌↔◌, ◌+◌, ◌<◌, ◌^◌, ℕ, length, OnOk, IfErr};
ghost use Rattle.std.specs.Prelude.{Err};
ghost use Rattle.syn_disk.specs.Stops.{LeavesOnly};
ghost use Rattle.syn_journal.specs.Layout.{longest_image};
ghost use Rattle.syn_journal.specs.Endings.{ended};
ghost use Rattle.syn_model.specs.Archive.{Archive as KeptArchive};
ghost use Rattle.syn_model.specs.MarkSpelling.{archive_spelling};
ghost use Rattle.syn_archive.specs.Refusals.{IsOfCheckpoint, refusal_of};

use super::Archive;
use crate::error::ArchiveError;
use std::alloc::Global;
use syn_disk::Disk;
use syn_model::archive_laws;

impl<D: Disk> Archive<D> {
    ghost use Rattle.syn_archive.specs.Archive.{pair_of, shown, disk_of, generation_shown};
    ghost use Rattle.syn_archive.specs.Archive.{Stands, KeepsOrCompacts};
    ghost use Rattle.syn_archive.specs.Calls.{Compacts};
    ghost use Rattle.syn_archive.specs.Machines.{CompactsImage, IsMachine, Journal};

    /// Writes the marks and the last session as one image, so that the journal has room again.
    ///
    /// Refused 10 while the archive is halted, 7 where the generation is the greatest that can be
    /// written, 11 where memory is refused, and 9 where a device call fails. After 9 the archive is
    /// halted; it shows the same in each case.
    pub fn checkpoint(&mut self, alloc: Global) -> Result<(), ArchiveError>
        ensures acknowledged { (kept : KeptArchive) → Stands self.old kept
            → OnOk result (Stands self.new kept) }
        ensures any_moment { (kept : KeptArchive) → Stands self.old kept
            → LeavesOnly D.moment D.left_since (disk_of self.old) (disk_of self.new)
            (KeepsOrCompacts self.old kept) }
        ensures full { result ≡ Err ArchiveError.Full
            → (generation_shown self.old + 1 ≡ 2 ^ 64) ⊎ (longest_image
            < length (archive_spelling (pair_of self.old) (shown self.old))) }

        // No image of an archive is too long, so that the generation alone is a cause.
        ensures greatest { (kept : KeptArchive) → Stands self.old kept
            → ((result ≡ Err ArchiveError.Full) ↔ (generation_shown self.old + 1 ≡ 2 ^ 64)) }
        ensures refusals { IfErr result IsOfCheckpoint }

        // Six device calls where it succeeds. After 9 the last that was made failed.
        ensures machine { Compacts self.old self.new (ended refusal_of result) }

        // What it is to the model's machine, also where its device fails or stops.
        ensures world { (number : ℕ) (machine : Journal) → IsMachine self.old number machine
            → CompactsImage self.new number machine (ended refusal_of result) }
    {
        archive_laws();
        self.journaled.checkpoint(alloc)
    }
}
