//! Disks that are opened by their names, and the images on them.
ghost use Rattle.std.specs.Prelude.{IfOk};

use std::alloc::Global;
use syn_archive::Archive;
use syn_command::{CommandError, OpenedImage, open_image};
use syn_disk::{Access, Disk, LockedDisk, OpenError};
use syn_history::Identity;
use syn_replica::Replica;

/// What is kept beside an archive.
#[derive(Clone, Copy, Debug, PartialEq, Eq)]
pub enum Beside {
    /// What is known of the two sides of an archive.
    Sides,
    /// What is known of the replica that a folder's marks are of.
    Replica,
}

/// Disks that have names.
pub trait NamedDisks {
    /// A disk that is open.
    type Disk: Disk + Drop + Send;

    /// A disk that is locked, and of which nothing was read yet.
    type Locked: LockedDisk<Disk = Self::Disk> + Drop + Send;

    /// Takes the lock on the disk of that name. With `Write` no other process can open it
    /// meanwhile. With `Read` others may read it and none may write it; the disk need not be
    /// writable, and each write fails.
    ///
    /// It is refused 12 where another process has it, to write where this one reads; 9 where there
    /// is none or the device fails; and 11 for lack of memory.
    fn lock(&self, name: &str, access: Access) -> Result<Self::Locked, OpenError>
        ensures locked { IfOk result (λ locked. Self.Locked.is_locked locked access) };

    /// Makes a new archive of the pair, of a name that no disk has. A stop leaves it whole, or no
    /// disk of that name.
    ///
    /// Refused 9 where the device fails, and 11 for lack of memory.
    fn make_archive(&self, alloc: Global, name: &str, pair: u64) -> Result<(), CommandError>;

    /// Makes the disk of that name, or a new one, an archive of the pair without marks, whose last
    /// session has this number. What was known of the sides of an old one there is taken away.
    ///
    /// Refused 12 where it is in use, 9 where the device fails, and 11 for lack of memory.
    fn format_after(
        &self,
        alloc: Global,
        name: &str,
        pair: u64,
        last_session: u64,
    ) -> Result<(), CommandError>;

    /// What the replica's disk of that name is known by. It lies beside the disk. With `Write`,
    /// where it is missing, it is drawn at random and kept, whole and durably, before this returns;
    /// the caller has the disk's lock. With `Read` there is none then.
    ///
    /// Refused 9 where it cannot be read or written, or where the file of its name is somebody
    /// else's; and 11 for lack of memory.
    fn identity(
        &self,
        alloc: Global,
        name: &str,
        access: Access,
    ) -> Result<Option<Identity>, CommandError>;

    /// What was kept last beside the archive of that name; none where nothing was.
    ///
    /// Refused 9 where it cannot be read, or where the file of its name is somebody else's; and 11
    /// for lack of memory.
    fn read_beside(
        &self,
        alloc: Global,
        name: &str,
        what: Beside,
    ) -> Result<Option<Vec<u8>>, CommandError>;

    /// Keeps these bytes beside the archive of that name. A stop leaves them whole, or what was
    /// kept before.
    ///
    /// Refused 9 where they cannot be written, and 11 for lack of memory.
    fn write_beside(
        &self,
        alloc: Global,
        name: &str,
        what: Beside,
        bytes: &[u8],
    ) -> Result<(), CommandError>;
}

/// The replica of that name, which no other process may open meanwhile.
pub fn replica_in<N: NamedDisks>(
    alloc: Global,
    disks: &N,
    name: &str,
) -> Result<Replica<N::Disk>, CommandError> {
    replica_on(alloc, disks.lock(name, Access::Write)?)
}

/// The archive of that name, which no other process may open meanwhile.
pub fn archive_in<N: NamedDisks>(
    alloc: Global,
    disks: &N,
    name: &str,
) -> Result<Archive<N::Disk>, CommandError> {
    archive_on(alloc, disks.lock(name, Access::Write)?)
}

/// The archive of that name, to be read. Its disk need not be one that can be written.
pub fn archive_to_read<N: NamedDisks>(
    alloc: Global,
    disks: &N,
    name: &str,
) -> Result<Archive<N::Disk>, CommandError> {
    archive_on(alloc, disks.lock(name, Access::Read)?)
}

/// The image of that name, to be read. Its disk need not be one that can be written.
pub fn image_to_read<N: NamedDisks>(
    alloc: Global,
    disks: &N,
    name: &str,
) -> Result<OpenedImage<N::Disk>, CommandError> {
    let locked = disks.lock(name, Access::Read)?;
    open_image(alloc, locked.into_disk(alloc)?)
}

/// The replica of that name, to be read. Its disk need not be one that can be written.
pub fn replica_to_read<N: NamedDisks>(
    alloc: Global,
    disks: &N,
    name: &str,
) -> Result<Replica<N::Disk>, CommandError> {
    replica_on(alloc, disks.lock(name, Access::Read)?)
}

/// The replica on the disk that was locked.
pub(crate) fn replica_on<L: LockedDisk>(
    alloc: Global,
    locked: L,
) -> Result<Replica<L::Disk>, CommandError>
where
    L::Disk: Drop,
{
    let disk = locked.into_disk(alloc)?;
    Replica::open(alloc, disk, None).map_err(|(error, _)| CommandError::from(error))
}

/// The archive on the disk that was locked.
pub(crate) fn archive_on<L: LockedDisk>(
    alloc: Global,
    locked: L,
) -> Result<Archive<L::Disk>, CommandError>
where
    L::Disk: Drop,
{
    let disk = locked.into_disk(alloc)?;
    Archive::open(alloc, disk, None).map_err(|(error, _)| CommandError::from(error))
}
