//! A disk of a fixed size, by what a read gives and what a stop of the machine may leave.
//!
//! Between two syncs that succeed, each range that was written may hold any bytes after a stop, and
//! the bytes outside these ranges stay. After a sync that succeeded a stop leaves what a read
//! gives. After a restart reads give what the stop left, and a further stop without writes leaves
//! the same. A write that fails leaves any bytes in its range, and a read or a sync that fails
//! changes nothing that a read gives. A count, which only clauses see, grows exactly when a call
//! fails. No call takes memory.
//!
//! The disk of the product is in a file of the system (`file`). The disks for tests and for
//! simulated machines stand in `simulated`.
//!
//! # What it promises
//!
//! Contracts see a `Disk` by four things: `seen` is what a read would give, and `may_leave` what a
//! stop now may leave. `left_since` is what a stop at a moment since may have left, and `failures`
//! how many calls failed.
//!
//! - `read` gives the bytes seen, and leaves nothing new.
//! - `write` puts the bytes where it succeeds. Where it fails, or a stop comes before the next
//!   sync, the places written may hold any bytes, and every other place is as it was.
//! - `sync`, where it succeeds, leaves exactly what is seen (`durable`). Where it fails, nothing is
//!   promised of it.
//! - Every call says which moments it spans (`time`), so that a promise "at any moment of the call"
//!   can be made above.
//! - Every call goes on with the disk's arms, what it was told to refuse (`arms`), and succeeds
//!   only where they let it (`allowed`). A disk that nobody can tell has no arms. `is_cut` says
//!   whether they have stopped its machine.
//!
//! For tests and simulated machines: `MemDisk` is memory whose stops lose, keep or spoil what was
//! not synced. `Restart` gives one of the contents that a stop may leave, and that alone from then
//! on. `Limit` is a disk that can be armed; `Cut` makes one of any disk, and counts one failure for
//! each call that it refuses.
//!
//! A disk that keeps its bytes in memory may use what these stand on: parts of bytes in memory
//! (`crate::bytes`), and what only clauses read of earlier calls (`History`, `Tally`).
//!
//! # A disk in a file
//!
//! The disk of the product is `FileDisk`, over any `DiskFile`. That trait says what each call on a
//! file leaves of its bytes, and that no call may follow a write or a sync that failed. `FileDisk`
//! keeps the contract of `Disk` over each such file. It syncs the file as it is opened (`durable`,
//! of each way to open one), and fails each call once a write or a sync failed. `MirroredFile` is a
//! `DiskFile` over a file of the system, with its bytes in memory.
//!
//! `LockedFile::open` opens a file and takes the system's lock on it, for the access that is named
//! (`locked`). Nothing is read. `take_lock` takes the lock on a file that its caller opened
//! (`held`). `into_disk` reads the file, and needs no `Files`, so that it may run in another
//! thread. Where a disk is opened, that lock is held (`held`, of `into_disk` and of `of_file`). A
//! read, a write and a sync of a `DiskFile` let no lock go (`lock` of each).
//! `OsFile` says of a file which lock is held on it (`is_held`). An opening beside a writer is
//! refused 12, and so is one to write beside readers. Two things are taken as given: what the
//! system's lock keeps out, and that the system's file follows the memory. Which file a path opens
//! no clause says, since the standard library's say nothing of it.
#![tactic(auto)]

pub mod bytes;
mod disk;
mod error;
mod file;
mod history;
mod simulated;

pub use disk::{DISK_SIZE, DeviceFailed, Disk, PART_SIZE};
pub use error::OpenError;
pub use file::host::{Access, OsFile, take_lock};
pub use file::locked::{LockedDisk, LockedFile};
pub use file::mirror::MirroredFile;
pub use file::{DiskFile, FileDisk};
pub use history::{History, Tally};
pub use simulated::cut::Cut;
pub use simulated::leaves::Leaves;
pub use simulated::limit::{Arm, Limit};
pub use simulated::memory::MemDisk;
pub use simulated::restart::Restart;
