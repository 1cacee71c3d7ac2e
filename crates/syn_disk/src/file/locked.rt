//! A disk that is locked, before anything of it is read.
ghost use Rattle.std.specs.Prelude.{◌≡◌, IfOk};
ghost use Rattle.syn_disk.specs.Disk.{Only};
ghost use Rattle.syn_disk.specs.declared.file.host.Access.{Access};

use crate::Disk;
use crate::error::OpenError;
use crate::file::FileDisk;
use crate::file::host::{Access, OsFile, take_lock};
use crate::file::mirror::MirroredFile;
use std::alloc::Global;
use std::fs::{Files, OpenOptions};

/// A disk that is locked, and of which nothing was read yet. To read it may be the work of another
/// thread.
pub trait LockedDisk {
    type Disk: Disk;

    /// It was locked for this access, and the lock is held.
    ghost is_locked: { Self → Access → Type 0 };

    /// The lock for this access is held on the disk.
    ghost is_held: { Self.Disk → Access → Type 0 };

    /// Reads the disk.
    ///
    /// It is refused 9 where it is of another length than a disk or the device fails, and 11 for
    /// lack of memory.
    fn into_disk(self, alloc: Global) -> Result<Self::Disk, OpenError>
        ensures held { (access : Access) → is_locked self access
            → IfOk result (λ disk. is_held disk access) };
}

/// A file of the system that was opened and locked, and of which nothing was read yet.
#[derive(Drop)]
pub struct LockedFile<H> {
    file: H,
    access: Access,
}

impl<H: OsFile> LockedFile<H> {
    ghost use Rattle.syn_disk.specs.Locked.{IsLockedFile};

    /// Opens the file at the path for this access, and takes the system's lock on it. With `Write`
    /// no other process can open it meanwhile. With `Read` others may read it and none may write
    /// it, and neither the file nor its folder has to be writable.
    ///
    /// It is refused 12 where another process has the file open, to write where this one reads; 9
    /// where the file is missing or cannot be locked; and 11 for lack of memory.
    pub fn open<R: Files<File = H>>(
        files: &R,
        path: &str,
        access: Access,
    ) -> Result<LockedFile<H>, OpenError>
        ensures locked { IfOk result (λ locked. IsLockedFile H.is_held locked access) }
    {
        let writes = access == Access::Write;
        let file = OpenOptions::new()
            .read(true)
            .write(writes)
            .open(files, path)?;
        take_lock(&file, access)?;
        Ok(LockedFile { file, access })
    }
}

impl<H: OsFile> LockedDisk for LockedFile<H> {
    ghost use Rattle.syn_disk.specs.FileDisk.{file_of, failures_of};
    ghost use Rattle.syn_disk.specs.Locked.{IsLockedFile};
    ghost use Rattle.syn_disk.specs.Mirrored.{MayBeLeft, host_of, seen_of};

    type Disk = FileDisk<MirroredFile<H>>;

    ghost is_locked = { λ locked. IsLockedFile H.is_held locked };

    ghost is_held = { λ disk. H.is_held (host_of (file_of disk)) };

    /// The disk in the file. It is synced first, so that a stop leaves what a read gives. Each
    /// write fails where it was locked to read.
    fn into_disk(self, alloc: Global) -> Result<FileDisk<MirroredFile<H>>, OpenError>
        ensures held { (access : Access) → IsLockedFile H.is_held self access
            → IfOk result (λ disk. H.is_held (host_of (file_of disk)) access) }
        ensures durable { IfOk result
            (λ disk. Only (seen_of (file_of disk)) (MayBeLeft (file_of disk))) }
        ensures failures { IfOk result (λ disk. failures_of disk ≡ 0) }
    {
        FileDisk::of_file(alloc, self.file, self.access)
    }
}
