//! A file of the operating system, with its bytes in memory.
ghost use Rattle.std.specs.Prelude.{◌≡◌, ◌≤◌, ◌<◌, [], true, false, not, refl, length, IfOk};
ghost use Rattle.syn_disk.specs.Moments.{LeftSince};
ghost use Rattle.syn_disk.specs.Mirror.{FileMayLeave, bytes_of, length-bytes};
ghost use Rattle.syn_disk.specs.MomentLaws.{now_counts, only_now};

use crate::error::OpenError;
use crate::file::DiskFile;
use crate::file::disk_bytes::DiskBytes;
use crate::file::host::{Access, OsFile, take_lock};
use crate::{DISK_SIZE, DeviceFailed, History};
use std::alloc::Global;
use std::io;

/// A file of the operating system, with its bytes in memory. A read takes them from there.
///
/// No contract can say what the system's file holds. One sentence is taken as given: as long as no
/// write and no sync failed, it holds what is in memory, a stop spoils no byte but those written
/// since the last sync, and a sync that succeeds makes it durable.
#[derive(Drop)]
pub struct MirroredFile<H> {
    file: H,
    bytes: DiskBytes,
    /// The ranges that were written since the last sync.
    unsynced: History<usize, usize>,
    history: History<DiskBytes, History<usize, usize>>,
    /// Nothing was written since the last sync, so that another one has nothing to do.
    is_synced: bool,
    /// A write or a sync failed, so that the file need not hold what is in memory.
    has_failed: bool,
    ghost synced: { is_synced ≡ true → unsynced ≡ [] },
}

impl<H: OsFile> MirroredFile<H> {
    ghost use Rattle.syn_disk.specs.Mirrored.{has_failed_of, host_of};

    /// Takes the system's lock on a file that was opened, and reads what the file keeps.
    ///
    /// It is refused 12 where another process has the lock, 9 where the file is of another length
    /// than a disk, or cannot be locked or read, and 11 for lack of memory.
    pub fn open(alloc: Global, file: H, access: Access) -> Result<MirroredFile<H>, OpenError>
        ensures sound { IfOk result (λ file. has_failed_of file ≡ false) }
        ensures held { IfOk result (λ file. H.is_held (host_of file) access) }
    {
        take_lock(&file, access)?;
        let length = file.metadata()?.len();
        if length != DISK_SIZE as u64 {
            return Err(OpenError::Length(length));
        }
        if access == Access::Write {
            file.forget();
        }
        let mut bytes = DiskBytes::new(alloc)?;
        load(&file, &mut bytes)?;
        let mut unsynced = History::new();
        unsynced.note(&0, &DISK_SIZE);
        Ok(MirroredFile {
            file,
            bytes,
            unsynced,
            history: History::new(),
            is_synced: false,
            has_failed: false,
        })
    }
}

// Reads what the file has into bytes that are all zero, each stretch of it at once.
fn load<H: OsFile>(file: &H, bytes: &mut DiskBytes) -> io::Result<()> {
    let mut at = 0;
    for _ in 0..DISK_SIZE {
        let Some(data) = file.next_data(at as u64)? else {
            return Ok(());
        };
        let from = within(data.start).max(at);
        let to = within(data.end);
        if to <= from {
            return Ok(());
        }
        bytes.load(file, from, to)?;
        at = to;
    }
    Ok(())
}

// The place, or the end of a disk where it is after that.
fn within(place: u64) -> usize
    ensures { result ≤ DISK_SIZE }
{
    place.min(DISK_SIZE as u64) as usize
}

impl<H: OsFile> DiskFile for MirroredFile<H> {
    ghost seen = { λ f. bytes_of f.bytes };

    ghost may_leave = { λ f. FileMayLeave (f.bytes, f.unsynced) };

    ghost moment = { λ f. length f.history };

    ghost left_since = { λ f. LeftSince FileMayLeave f.history (f.bytes, f.unsynced) };

    ghost is_sound = { λ f. not f.has_failed };

    ghost is_held = { λ f. H.is_held f.file };

    ghost counts_now = { λ f t c le left.
        now_counts FileMayLeave f.history (f.bytes, f.unsynced) c t le left };

    ghost only_now = { λ f c left. only_now FileMayLeave f.history (f.bytes, f.unsynced) c left };

    ghost seen_may_stay = { λ f. record { whole = length-bytes f.bytes; kept = λ i none. refl } };

    ghost whole = { λ f t c left. left.2.whole };

    fn read(&mut self, at: usize, into: &mut [u8]) -> Result<(), DeviceFailed> {
        self.history.note(&self.bytes, &self.unsynced);
        self.bytes.read(at, into);
        Ok(())
    }

    fn write(&mut self, at: usize, bytes: &[u8]) -> Result<(), DeviceFailed> {
        self.history.note(&self.bytes, &self.unsynced);
        self.is_synced = false;
        self.unsynced.note(&at, &bytes.len());
        self.bytes.write(at, bytes);
        match self.file.write_all_at(bytes, at as u64) {
            Ok(()) => Ok(()),
            Err(_) => {
                self.has_failed = true;
                Err(DeviceFailed)
            }
        }
    }

    fn sync(&mut self) -> Result<(), DeviceFailed> {
        self.history.note(&self.bytes, &self.unsynced);
        if self.is_synced {
            return Ok(());
        }
        match self.file.sync_data() {
            Ok(()) => {
                self.unsynced = History::new();
                self.is_synced = true;
                Ok(())
            }
            Err(_) => {
                self.has_failed = true;
                Err(DeviceFailed)
            }
        }
    }
}
