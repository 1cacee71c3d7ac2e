//! The images of a session, opened side by side.
use crate::named::{NamedDisks, archive_on, replica_on};
use crate::pairs::{PairKeeper, status_in};
use std::alloc::Global;
use std::thread::{Threads, join};
use syn_archive::Archive;
use syn_command::CommandError;
use syn_disk::{Access, Disk, LockedDisk, OpenError};
use syn_pair::KnownSides;
use syn_path::Side;
use syn_replica::Replica;

/// The images of a session, open.
#[derive(Drop)]
pub(crate) struct Images<D: Disk> {
    pub left: Replica<D>,
    pub right: Replica<D>,
    pub archive: Archive<D>,
}

/// The images on the disks that were locked. What was not locked is refused so; where several are
/// refused, the first of left, right and archive is told.
///
/// Each image is read by a thread, where one can be made, and the left by this one.
pub(crate) fn images_on<H: Threads + Sync, L: LockedDisk + Drop + Send>(
    rt: &H,
    alloc: Global,
    left: Result<L, OpenError>,
    right: Result<L, OpenError>,
    archive: Result<L, OpenError>,
) -> Result<Images<L::Disk>, CommandError>
where
    L::Disk: Drop + Send,
{
    let (right, (archive, left)) = join(
        rt,
        move || replica_on(alloc, right?),
        move || {
            join(
                rt,
                move || archive_on(alloc, archive?),
                move || replica_on(alloc, left?),
            )
        },
    );
    Ok(Images {
        left: left?,
        right: right?,
        archive: archive?,
    })
}

/// What both replicas say of themselves, which have these names. Where `access` is to write, their
/// disks get identities if they have none.
///
/// Refused 9 where an identity cannot be read or written, and 11 where memory is refused.
pub(crate) fn status_of_images<D: Disk, N: NamedDisks>(
    alloc: Global,
    disks: &N,
    access: Access,
    names: (&str, &str),
    images: &Images<D>,
    keeper: &PairKeeper<'_, N>,
) -> Result<KnownSides, CommandError> {
    let (left, right) = names;
    let status = |name: &str, replica: &Replica<D>, side: Side| {
        status_in(alloc, disks, name, access, replica, side, keeper.known())
    };
    Ok(KnownSides {
        left: status(left, &images.left, Side::Left)?,
        right: status(right, &images.right, Side::Right)?,
    })
}
