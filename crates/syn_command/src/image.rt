//! An image of either kind.
ghost use Rattle.std.specs.Prelude.{◌≡◌, ◌⊎◌, ◌<◌, ◌^◌, ℕ, IfOk, IfErr, MatchResult, Ok, take};
ghost use Rattle.syn_archive.specs.Disks as archive;
ghost use Rattle.syn_disk.specs.Stops.{LeavesOnly, Untouched};
ghost use Rattle.syn_journal.specs.Layout.{Value, meaning};
ghost use Rattle.syn_model.specs.Archive as model;
ghost use Rattle.syn_model.specs.History.{History};
ghost use Rattle.syn_model.specs.Refusal.{Device};
ghost use Rattle.syn_model.specs.Version.{One, Version};
ghost use Rattle.syn_replica.specs.Disks as replica;
ghost use Rattle.syn_replica.specs.Migrating.{KeepsOrMigrates, OrBefore};
ghost use Rattle.syn_command.specs.Errors.{refusal_of};
ghost use Rattle.syn_command.specs.Images.{IsFormatRefusal, IsFormatted, IsImageRefusal};
ghost use Rattle.syn_command.specs.Images.{IsMigrationRefusal, IsOldDisk, IsOn, StandsForArchive};
ghost use Rattle.syn_command.specs.Images.{StandsForHistory, disk_under, letters_of};

use crate::error::CommandError;
use std::alloc::Global;
use syn_archive::{Archive, ArchiveError};
use syn_cli::ImageKind;
use syn_disk::Disk;
use syn_replica::Replica;

/// An image that was opened.
#[derive(Drop)]
pub enum OpenedImage<D: Disk> {
    Replica(Replica<D>),
    Archive(Archive<D>),
}

/// Opens what the disk holds: an archive where its image begins with an archive's letters, else a
/// replica.
///
/// Refused 9 where a device call fails, 18 where the disk holds no image, 26 where that is of
/// version 1, 19 where it holds neither an archive nor a replica, and 11 where memory is refused.
/// Nothing is written.
pub fn open_image<D: Disk + Drop>(alloc: Global, disk: D) -> Result<OpenedImage<D>, CommandError>
    ensures given { IfOk result (λ image. IsOn (D.seen disk) image) }
    ensures letters { IfOk result (λ image. (value : Value) → meaning (D.seen disk) ≡ Ok value
        → take 4 value.image ≡ letters_of image) }
    ensures archive { (number : ℕ) (kept : model.Archive) → number < 2 ^ 64
        → archive.DiskStands number (D.seen disk) kept
        → IfOk result (StandsForArchive number kept) }
    ensures replica { (number : ℕ) (history : History) → number < 2 ^ 64
        → replica.DiskStands number (D.seen disk) history
        → IfOk result (StandsForHistory number history) }
    ensures refusals { IfErr result (IsImageRefusal (D.seen disk)) }
    ensures untouched { IfOk result (λ image.
        Untouched D.seen D.may_leave D.moment D.left_since disk (disk_under image)) }
{
    match Archive::open(alloc, disk, None) {
        Ok(archive) => Ok(OpenedImage::Archive(archive)),
        Err((ArchiveError::Damaged, disk)) => match Replica::open(alloc, disk, None) {
            Ok(replica) => Ok(OpenedImage::Replica(replica)),
            Err((error, _)) => Err(CommandError::Replica(error)),
        },
        Err((error, _)) => Err(CommandError::Archive(error)),
    }
}

/// Makes what the disk holds an image of version 2: an archive where its image begins with an
/// archive's letters, else a replica. One of version 2 stays as it is.
///
/// Refused 9 where a device call fails, 18 where the disk holds no image, 19 where it holds neither
/// an archive nor a replica, 7 where it is of version 1 and its generation is the greatest, and 11
/// where memory is refused; the disk comes back. Only after 9 may something be written.
pub fn migrate_image<D: Disk + Drop>(
    alloc: Global,
    disk: D,
) -> Result<OpenedImage<D>, (CommandError, D)>
    // It stands for what the disk stands for, in whichever version, and the disk then gives it in
    // version 2.
    ensures archive { (version : Version) (number : ℕ) (kept : model.Archive) → number < 2 ^ 64
        → archive.DiskStandsIn version number (D.seen disk) kept
        → IfOk result (StandsForArchive number kept) }
    ensures replica { (version : Version) (number : ℕ) (history : History) → number < 2 ^ 64
        → replica.DiskStandsIn version number (D.seen disk) history
        → IfOk result (StandsForHistory number history) }
    ensures given { IfOk result (λ image. IsOn (D.seen (disk_under image)) image) }

    // A disk whose image is not of version 1 stays as it is.
    ensures same { ¬ IsOldDisk (D.seen disk) → MatchResult result
        (λ image. Untouched D.seen D.may_leave D.moment D.left_since disk (disk_under image))
        (λ refused. Untouched D.seen D.may_leave D.moment D.left_since disk refused.1) }

    // A stop leaves what a disk of version 1 has, in version 1 or in version 2.
    ensures archive_moments { (number : ℕ) (kept : model.Archive) (left generation : ℕ)
        → number < 2 ^ 64 → archive.DiskKeepsIn One number kept left generation (D.seen disk)
        → MatchResult result
        (λ image. LeavesOnly D.moment D.left_since disk (disk_under image)
        (OrBefore (D.may_leave disk) (archive.KeepsOrMigrates number kept left generation)))
        (λ refused. LeavesOnly D.moment D.left_since disk refused.1
        (OrBefore (D.may_leave disk) (archive.KeepsOrMigrates number kept left generation))) }
    ensures replica_moments { (number : ℕ) (history : History) (left generation : ℕ)
        → number < 2 ^ 64 → replica.DiskKeepsIn One number history left generation (D.seen disk)
        → MatchResult result
        (λ image. LeavesOnly D.moment D.left_since disk (disk_under image)
        (OrBefore (D.may_leave disk) (KeepsOrMigrates number history left generation)))
        (λ refused. LeavesOnly D.moment D.left_since disk refused.1
        (OrBefore (D.may_leave disk) (KeepsOrMigrates number history left generation))) }

    ensures refusals { IfErr result (λ refused. IsMigrationRefusal (D.seen disk) refused.0) }
    ensures untouched { IfErr result (λ refused. (refusal_of refused.0 ≡ Device)
        ⊎ Untouched D.seen D.may_leave D.moment D.left_since disk refused.1) }
{
    match Archive::migrate(alloc, disk) {
        Ok(archive) => Ok(OpenedImage::Archive(archive)),
        Err((ArchiveError::Damaged, disk)) => match Replica::migrate(alloc, disk) {
            Ok(replica) => Ok(OpenedImage::Replica(replica)),
            Err((error, disk)) => Err((CommandError::Replica(error), disk)),
        },
        Err((error, disk)) => Err((CommandError::Archive(error), disk)),
    }
}

/// Formats the disk as an image of the kind, for the pair.
///
/// Refused 11 where memory is refused, and 9 where a device call fails.
pub fn format_image<D: Disk + Drop>(
    alloc: Global,
    disk: D,
    kind: ImageKind,
    pair: u64,
) -> Result<OpenedImage<D>, CommandError>
    ensures formatted { IfOk result (IsFormatted kind pair) }
    ensures refusals { IfErr result (IsFormatRefusal kind) }
{
    match kind {
        ImageKind::Replica => match Replica::format(alloc, disk, pair) {
            Ok(replica) => Ok(OpenedImage::Replica(replica)),
            Err((error, _)) => Err(CommandError::Replica(error)),
        },
        ImageKind::Archive => match Archive::format(alloc, disk, pair) {
            Ok(archive) => Ok(OpenedImage::Archive(archive)),
            Err((error, _)) => Err(CommandError::Archive(error)),
        },
    }
}
