//! What a session of images that have names, or of served replicas, would do.

use crate::asking::{Addresses, ask_both};
use crate::named::{NamedDisks, archive_to_read};
use crate::pairs::PairKeeper;
use crate::side_by_side::{Images, images_on, status_of_images};
use std::alloc::Global;
use std::io::Write;
use std::net::{Net, TcpStream};
use std::thread::Threads;
use syn_cli::{Between, Pairing};
use syn_command::{CommandError, Outcome, outcome_planned, plan_between};
use syn_daemon::Sides;
use syn_disk::{Access, Disk, OpenError};
use syn_mark::MarkTree;
use syn_pair::KnownSides;
use syn_path::Side;
use syn_print::{counts_of, show_plan};
use syn_recon::{Compared, compare};
use syn_sync::Unwatched;
use syn_user::SideConnection;

/// Prints what a session of the replicas and their archive would do, and answers what there is to
/// do. Nothing is written, and no session begins.
///
/// Refused as an opening to read is, left first and the archive last. Of servers it is refused 9
/// where an address cannot be reached, and as a session ends early that scans both sides. Of files
/// it is refused 12 where both are one, 11 where memory is refused, and 7, 14 and 20 as the session
/// would be. Of both it is refused 12, 14 and 20 where the sides and the archive do not belong
/// together.
pub fn print_plan<H: Net<Stream = TcpStream> + Threads + Sync, N: NamedDisks, O: Write>(
    rt: &H,
    alloc: Global,
    disks: &N,
    pairing: Pairing<'_>,
    output: &mut O,
) -> Result<Outcome, CommandError> {
    let Pairing {
        between,
        archive,
        preference,
    } = pairing;
    match between {
        Between::Servers { left, right } => {
            let keeper = PairKeeper::open(alloc, disks, archive)?;
            let archive = archive_to_read(alloc, disks, archive)?;
            let sides = Sides::reach(rt, left, right, &mut Unwatched)?;
            let (addresses, known) = (Addresses { left, right }, keeper.known());
            let found = ask_both(rt, alloc, addresses, &sides, known, &mut Unwatched)?;
            keeper.check(&archive, &found)?;
            let mut left = SideConnection::new(alloc, sides.left(), sides.left());
            let mut right = SideConnection::new(alloc, sides.right(), sides.right());
            let compared = plan_between(alloc, &mut left, &mut right, archive.tree(), preference)?;
            print_compared(alloc, &compared, archive.tree(), output)
        }
        Between::Files { left, right } => {
            if left == right {
                return Err(CommandError::Open(OpenError::Busy));
            }
            let keeper = PairKeeper::open(alloc, disks, archive)?;
            let left_disk = disks.lock(left, Access::Read);
            let right_disk = disks.lock(right, Access::Read);
            let archive = disks.lock(archive, Access::Read);
            let images = images_on(rt, alloc, left_disk, right_disk, archive)?;
            let found = status_of_images(
                alloc,
                disks,
                Access::Read,
                (left, right),
                &images,
                &keeper,
            )?;
            print_plan_of_images(alloc, &images, &keeper, &found, preference, output)
        }
    }
}

/// Prints what a session of the images would do.
fn print_plan_of_images<D: Disk, N: NamedDisks, O: Write>(
    alloc: Global,
    images: &Images<D>,
    keeper: &PairKeeper<'_, N>,
    found: &KnownSides,
    preference: Option<Side>,
    output: &mut O,
) -> Result<Outcome, CommandError> {
    let Images {
        left,
        right,
        archive,
    } = images;
    let session = archive.last_session().saturating_add(1);
    left.check_begin(archive.pair(), session)?;
    right.check_begin(archive.pair(), session)?;
    keeper.check(archive, found)?;
    let compared = compare(alloc, left.tree(), right.tree(), archive.tree(), preference)?;
    print_compared(alloc, &compared, archive.tree(), output)
}

/// Prints the plan of two sides with the marks that both agreed on, and answers what there is to
/// do.
pub(crate) fn print_compared<O: Write>(
    alloc: Global,
    compared: &Compared,
    archive: &MarkTree,
    output: &mut O,
) -> Result<Outcome, CommandError> {
    let Compared { left, right, items } = compared;
    show_plan(alloc, items, left.tree(), right.tree(), archive, output)?;
    Ok(outcome_planned(items.len(), counts_of(items).conflicts))
}
