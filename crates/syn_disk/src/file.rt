//! A disk in a file.
ghost use Rattle.std.specs.Prelude.{◌≡◌, ◌≤◌, ◌<◌, ◌+◌, true, false, Bool, ℕ, List, length, take};
ghost use Rattle.std.specs.Prelude.{drop, IfOk, OnOk, OnErr};
ghost use Rattle.syn_disk.specs.Arms.{no_arms};
ghost use Rattle.syn_disk.specs.Disk.{overwritten, Torn, Follows, NothingNew, Only, Elapses};
ghost use Rattle.syn_disk.specs.declared.disk.TheConstants.{DISK_SIZE};
ghost use Rattle.syn_disk.specs.Lock.{StillHeld};
ghost use Rattle.syn_disk.specs.declared.file.host.Access.{Access};

use crate::error::OpenError;
use crate::{DeviceFailed, Disk, Tally};
use std::alloc::Global;

mod disk_bytes;
pub mod host;
pub mod locked;
pub mod mirror;

use host::{Access, OsFile};
use mirror::MirroredFile;

/// A file of `DISK_SIZE` bytes, by what each call on it leaves.
///
/// It is sound as long as no write and no sync of it failed. After a failed write nobody knows what
/// the file holds. After a failed sync the system may drop what was written and take it for synced,
/// so that no later sync can be believed. Nothing is to be asked of such a file any more.
pub trait DiskFile {
    /// The bytes that a read gives.
    ghost seen: { Self → List ℕ };

    /// The contents that a stop at this moment may leave.
    ghost may_leave: { Self → List ℕ → Type 0 };

    /// The moment, as a number that does not fall.
    ghost moment: { Self → ℕ };

    /// The contents that a stop at some moment from that one on might have left, during a call or
    /// between two.
    ghost left_since: { Self → ℕ → List ℕ → Type 0 };

    /// No write and no sync has failed.
    ghost is_sound: { Self → Bool };

    /// The system's lock for this access is held on the file.
    ghost is_held: { Self → Access → Type 0 };

    /// Fills `into` with the bytes from `at` on.
    fn read(&mut self, at: usize, into: &mut [u8]) -> Result<(), DeviceFailed>
        requires fits { at + length into.old ≤ DISK_SIZE }
        requires sound { is_sound self.old ≡ true }
        ensures bytes { OnOk result (into.new ≡ take (length into.old) (drop at (seen self.old))) }
        ensures seen { seen self.new ≡ seen self.old }
        ensures stop { NothingNew (may_leave self.old) (may_leave self.new) }
        ensures time { Elapses (moment self.old) (moment self.new)
            (left_since self.old) (left_since self.new) (may_leave self.new) }
        ensures sound { is_sound self.new ≡ true }
        ensures lock { StillHeld (is_held self.old) (is_held self.new) };

    /// Until the next sync that succeeds a stop may leave any bytes in the range, also where the
    /// write failed. Where it fails the file may be sound no more.
    fn write(&mut self, at: usize, bytes: &[u8]) -> Result<(), DeviceFailed>
        requires fits { at + length bytes.now ≤ DISK_SIZE }
        requires sound { is_sound self.old ≡ true }
        ensures written { OnOk result (seen self.new ≡ overwritten (seen self.old) at bytes.now) }
        ensures torn { OnErr result (Torn at (length bytes.now) (seen self.old) (seen self.new)) }
        ensures stop { Follows (Torn at (length bytes.now)) (may_leave self.old)
            (may_leave self.new) }
        ensures time { Elapses (moment self.old) (moment self.new)
            (left_since self.old) (left_since self.new) (may_leave self.new) }
        ensures sound { OnOk result (is_sound self.new ≡ true) }
        ensures lock { StillHeld (is_held self.old) (is_held self.new) };

    /// After it a stop leaves what a read gives. Where it fails the file may be sound no more.
    fn sync(&mut self) -> Result<(), DeviceFailed>
        requires sound { is_sound self.old ≡ true }
        ensures durable { OnOk result (Only (seen self.old) (may_leave self.new)) }
        ensures seen { seen self.new ≡ seen self.old }
        ensures stop { NothingNew (may_leave self.old) (may_leave self.new) }
        ensures time { Elapses (moment self.old) (moment self.new)
            (left_since self.old) (left_since self.new) (may_leave self.new) }
        ensures sound { OnOk result (is_sound self.new ≡ true) }
        ensures lock { StillHeld (is_held self.old) (is_held self.new) };

    /// This moment is one of those since an earlier one.
    ghost counts_now: { (file : Self) (t : ℕ) (c : List ℕ) → t ≤ moment file → may_leave file c
        → left_since file t c };

    /// Since this moment there is no other.
    ghost only_now: { (file : Self) (c : List ℕ) → left_since file (moment file) c
        → may_leave file c };

    /// A stop may leave what a read gives.
    ghost seen_may_stay: { (file : Self) → may_leave file (seen file) };

    /// A stop leaves a whole file.
    ghost whole: { (file : Self) (t : ℕ) (c : List ℕ) → left_since file t c
        → length c ≡ DISK_SIZE };
}

/// A disk in a file.
///
/// Once a write or a sync failed, each call fails until the file is opened again.
#[derive(Drop)]
pub struct FileDisk<F: DiskFile> {
    file: F,
    /// A write or a sync failed.
    is_lost: bool,
    failed: Tally,
    ghost sound: { is_lost ≡ false → F.is_sound file ≡ true },
}

impl<H: OsFile> FileDisk<MirroredFile<H>> {
    ghost use Rattle.syn_disk.specs.FileDisk.{file_of, failures_of};
    ghost use Rattle.syn_disk.specs.Mirrored.{seen_of, MayBeLeft, host_of};

    /// The disk in a file that was opened, which is locked if it was not before. It is synced
    /// first, so that a stop leaves what a read gives.
    ///
    /// It is refused 12 where another process has the lock, 9 where the file is of another length
    /// than a disk, or cannot be locked, read or synced, and 11 for lack of memory.
    pub fn of_file(
        alloc: Global,
        file: H,
        access: Access,
    ) -> Result<FileDisk<MirroredFile<H>>, OpenError>
        ensures durable { IfOk result
            (λ disk. Only (seen_of (file_of disk)) (MayBeLeft (file_of disk))) }
        ensures held { IfOk result (λ disk. H.is_held (host_of (file_of disk)) access) }
        ensures failures { IfOk result (λ disk. failures_of disk ≡ 0) }
    {
        FileDisk::over(MirroredFile::open(alloc, file, access)?)
    }
}

impl<F: DiskFile + Drop> FileDisk<F> {
    ghost use Rattle.syn_disk.specs.FileDisk.{file_of, failures_of};

    /// The disk in a file. The file is synced first, so that a stop leaves what a read gives.
    ///
    /// It is refused 9 where the file cannot be synced.
    pub fn over(mut file: F) -> Result<FileDisk<F>, OpenError>
        requires { F.is_sound file ≡ true }
        ensures seen { IfOk result (λ disk. F.seen (file_of disk) ≡ F.seen file) }
        ensures lock { IfOk result (λ disk. StillHeld (F.is_held file) (F.is_held (file_of disk))) }
        ensures durable { IfOk result (λ disk. Only (F.seen file) (F.may_leave (file_of disk))) }
        ensures failures { IfOk result (λ disk. failures_of disk ≡ 0) }
    {
        file.sync().map_err(|_| OpenError::Sync)?;
        Ok(FileDisk {
            file,
            is_lost: false,
            failed: Tally::new(),
        })
    }

    /// The file.
    pub fn into_file(self) -> F
        ensures { result ≡ file_of self }
    {
        self.file
    }

    // Counts a call that failed.
    fn fail(&mut self) -> DeviceFailed
        ensures file { file_of self.new ≡ file_of self.old }
        ensures counted { failures_of self.new ≡ failures_of self.old + 1 }
    {
        self.failed.add_one();
        DeviceFailed
    }
}

impl<F: DiskFile + Drop> Disk for FileDisk<F> {
    ghost use Rattle.syn_disk.specs.FileDisk.{file_of, failures_of};

    ghost seen = { λ d. F.DiskFile.seen d.file };

    ghost may_leave = { λ d. F.DiskFile.may_leave d.file };

    ghost moment = { λ d. F.DiskFile.moment d.file };

    ghost left_since = { λ d. F.DiskFile.left_since d.file };

    ghost failures = { λ d. d.failed };

    ghost arms = { λ _. no_arms };

    ghost counts_now = { λ d. F.DiskFile.counts_now d.file };

    ghost only_now = { λ d. F.DiskFile.only_now d.file };

    ghost seen_may_stay = { λ d. F.DiskFile.seen_may_stay d.file };

    ghost whole = { λ d. F.DiskFile.whole d.file };

    fn read(&mut self, at: usize, into: &mut [u8]) -> Result<(), DeviceFailed> {
        if self.is_lost || self.file.read(at, into).is_err() {
            return Err(self.fail());
        }
        Ok(())
    }

    /// After one that fails each call fails.
    fn write(&mut self, at: usize, bytes: &[u8]) -> Result<(), DeviceFailed> {
        if self.is_lost {
            return Err(self.fail());
        }
        self.is_lost = true;
        if self.file.write(at, bytes).is_err() {
            return Err(self.fail());
        }
        self.is_lost = false;
        Ok(())
    }

    /// After one that fails each call fails.
    fn sync(&mut self) -> Result<(), DeviceFailed> {
        if self.is_lost {
            return Err(self.fail());
        }
        self.is_lost = true;
        if self.file.sync().is_err() {
            return Err(self.fail());
        }
        self.is_lost = false;
        Ok(())
    }

    fn is_cut(&self) -> bool {
        false
    }
}
