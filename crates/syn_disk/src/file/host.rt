//! What a disk in a file asks of the operating system, beside reads, writes and syncs.
ghost use Rattle.std.specs.Prelude.{OnOk};
ghost use Rattle.syn_disk.specs.declared.file.host.Access.{Access};

use crate::error::OpenError;
use std::fs::{File, OpenFile, TryLockError};
use std::io;
use std::ops::Range;
use std::os::fd::AsRawFd;
use std::os::unix::fs::FileExt;

/// What a file is opened for.
#[derive(Clone, Copy, Debug, PartialEq, Eq)]
pub enum Access {
    Read,
    Write,
}

/// An open file of the operating system.
pub trait OsFile: FileExt + OpenFile + Drop {
    /// The system's lock for this access was taken through the file, and is held as long as the
    /// file is open.
    ghost is_held: { Self → Access → Type 0 };

    /// Takes the system's lock on the file: to write it alone, and to read it beside others that
    /// read. It does not wait. The lock is held until the file and each clone of it are closed;
    /// taken again through the file for the same access, it is kept.
    fn try_lock(&self, access: Access) -> Result<(), TryLockError>
        ensures held { OnOk result (is_held self.now access) };

    /// Where the next bytes that the file keeps begin and end, from `from` on; none where it keeps
    /// no more. What it does not keep reads as zeros.
    fn next_data(&self, from: u64) -> io::Result<Option<Range<u64>>>;

    /// Lets the system forget what it has in memory of the file and takes for synced. After a sync
    /// that failed in an earlier process that may be other than what the device has.
    fn forget(&self);
}

/// Takes the system's lock on a file that was opened, as `try_lock` does.
///
/// It is refused 12 where another process has the lock, 9 where the file cannot be locked, and 11
/// for lack of memory.
pub fn take_lock<H: OsFile>(file: &H, access: Access) -> Result<(), OpenError>
    ensures held { OnOk result (H.is_held file.now access) }
{
    match file.try_lock(access) {
        Ok(()) => Ok(()),
        Err(TryLockError::WouldBlock) => Err(OpenError::Busy),
        Err(TryLockError::Error(error)) => Err(OpenError::from(error)),
    }
}

/// `lseek`'s word for the next bytes that a file keeps.
const SEEK_DATA: i32 = 3;

/// `lseek`'s word for the end of such bytes.
const SEEK_HOLE: i32 = 4;

/// The error of `lseek` where a file keeps no more bytes.
const ENXIO: i32 = 6;

impl OsFile for File {
    // No contract says what the system's lock does: we trust that a lock that was taken is held.
    ghost is_held = { λ _ _. Unit {0} };

    fn try_lock(&self, access: Access) -> Result<(), TryLockError> {
        match access {
            Access::Read => File::try_lock_shared(self),
            Access::Write => File::try_lock(self),
        }
    }

    fn next_data(&self, from: u64) -> io::Result<Option<Range<u64>>> {
        let Some(start) = seek(self, from, SEEK_DATA)? else {
            return Ok(None);
        };
        let end = seek(self, start, SEEK_HOLE)?;
        Ok(end.map(|end| start..end))
    }

    fn forget(&self) {
        // It is advice, and a system that does not take it is none the worse.
        let _ = libc::posix_fadvise(self.as_raw_fd(), 0, 0, libc::POSIX_FADV_DONTNEED);
    }
}

// The place that `lseek` finds from `from` on; none where it is after the end of the file. Where
// the file system does not tell, all is kept.
fn seek(file: &File, from: u64, whence: i32) -> io::Result<Option<u64>> {
    let found = libc::lseek(file.as_raw_fd(), from.cast_signed(), whence);
    if found >= 0 {
        return Ok(Some(found.cast_unsigned()));
    }
    match os::errno() {
        ENXIO => Ok(None),
        libc::EINVAL if whence == SEEK_HOLE => Ok(Some(u64::MAX)),
        libc::EINVAL => Ok(Some(from)),
        error => Err(io::Error::from_raw_os_error(error)),
    }
}
