//! A world starts from three disks that were just formatted.
ghost use Rattle.std.specs.Prelude.{◌≡◌, [], IfErr, IfOk};
ghost use Rattle.syn_disk.specs.Arms.{no_arms};
ghost use Rattle.syn_disk.specs.Cut.{arms_of};
ghost use Rattle.syn_runs.specs.Headline.{formatted};
ghost use Rattle.syn_world.specs.Starts.{CanStart};
ghost use Rattle.syn_model.specs.Archive.{new_archive};
ghost use Rattle.syn_archive.specs.Keepings.{of_archive};
ghost use Rattle.syn_replica.specs.Keepings.{of_side};
ghost use Rattle.syn_simulate.specs.Starts.{IsOutside, StartsFormatted};
ghost use Rattle.syn_world.specs.Openings.{StandFor};

use crate::error::SimulateError;
use std::alloc::{AllocError, Global};
use syn_archive::Archive;
use syn_disk::{Cut, Disk, Leaves, MemDisk};
use syn_replica::Replica;
use syn_runs::run_laws;
use syn_world::{Disks, World};

/// The number of the pair that is simulated.
const PAIR: u64 = 1;

/// A world of pair 1 from three disks in memory that are formatted here: two replicas with no
/// events, and an archive with no session. The i-th stop of a machine leaves of its disk what the
/// i-th of its list says, and after these `Leaves::Lose`.
///
/// Refused 11 where memory is refused, and 9 where a device call fails, as none of a disk in memory
/// does.
pub fn formatted_world(
    alloc: Global,
    stops: Disks<Vec<Leaves>>,
) -> Result<World<Cut<MemDisk>>, SimulateError>
    ensures opened { IfOk result (StartsFormatted 1) }
    ensures refused { IfErr result IsOutside }
{
    let disks = formatted_disks(alloc, blank_disks(alloc, stops)?)?;
    match World::open(alloc, disks) {
        Ok(world) => Ok(world),
        Err((why, disks)) => {
            drop(disks);
            Err(SimulateError::Refused(why))
        }
    }
}

/// Three disks of zeros, at which nothing is armed.
fn blank_disks(alloc: Global, stops: Disks<Vec<Leaves>>) -> Result<Disks<Cut<MemDisk>>, AllocError>
    ensures left { IfOk result (λ disks. arms_of disks.left ≡ no_arms) }
    ensures right { IfOk result (λ disks. arms_of disks.right ≡ no_arms) }
    ensures archive { IfOk result (λ disks. arms_of disks.archive ≡ no_arms) }
{
    Ok(Disks {
        left: Cut::new(MemDisk::new(alloc, stops.left)?),
        right: Cut::new(MemDisk::new(alloc, stops.right)?),
        archive: Cut::new(MemDisk::new(alloc, stops.archive)?),
    })
}

/// Formats the disks as two replicas and the archive of a pair.
fn formatted_disks<D: Disk + Drop>(
    alloc: Global,
    blank: Disks<D>,
) -> Result<Disks<D>, SimulateError>
    requires left { D.arms blank.left ≡ no_arms }
    requires right { D.arms blank.right ≡ no_arms }
    requires archive { D.arms blank.archive ≡ no_arms }
    ensures stand { IfOk result (λ disks. StandFor D.seen D.arms 1 disks formatted) }
    ensures refused { IfErr result IsOutside }
{
    run_laws();
    let left = formatted_side(alloc, blank.left)?;
    let right = formatted_side(alloc, blank.right)?;
    let archive = formatted_archive(alloc, blank.archive)?;
    Ok(Disks {
        left,
        right,
        archive,
    })
}

/// Formats the disk as a replica with no events.
fn formatted_side<D: Disk + Drop>(alloc: Global, disk: D) -> Result<D, SimulateError>
    requires { D.arms disk ≡ no_arms }
    ensures starts { IfOk result (λ made. CanStart (of_side 1) (D.arms made) (D.seen made) []) }
    ensures refused { IfErr result IsOutside }
{
    match Replica::format(alloc, disk, PAIR) {
        Ok(replica) => Ok(replica.into_disk()),
        Err((error, _)) => Err(SimulateError::Refused(error.refusal())),
    }
}

/// Formats the disk as an archive with no session.
fn formatted_archive<D: Disk + Drop>(alloc: Global, disk: D) -> Result<D, SimulateError>
    requires { D.arms disk ≡ no_arms }
    ensures starts { IfOk result (λ made. CanStart (of_archive 1) (D.arms made) (D.seen made)
        new_archive) }
    ensures refused { IfErr result IsOutside }
{
    match Archive::format(alloc, disk, PAIR) {
        Ok(archive) => Ok(archive.into_disk()),
        Err((error, _)) => Err(SimulateError::Refused(error.refusal())),
    }
}
