//! Reads what a replica's disk has of its events.
ghost use Rattle.std.specs.Prelude.{◌≡◌, ◌≤◌, ◌+◌, ◌++◌, IfErr, IfOk, None, OnOk};
ghost use Rattle.syn_model.specs.Limits.{greatest};
ghost use Rattle.syn_print.specs.Known.{AddsEvents, TellsLast, entries_of, touched};
ghost use Rattle.syn_print.specs.inner.Damages.{AreNoEvents, HasGreatest, IsReadRefusal};
ghost use Rattle.syn_replica.specs.Disks.{IsOpenRefusal};
ghost use Rattle.syn_replica.specs.Readings.{bytes_of_each};

use crate::log::{Logged, What};
use std::alloc::Global;
use syn_disk::Disk;
use syn_history::Touch;
use syn_image::is_old_replica;
use syn_journal::Journal;
use syn_replica::{ReplicaError, opening_laws, read_event, read_image};
use syn_wire::Version;

/// What the disk of a replica has of its last events, the oldest first.
///
/// Refused 9 where a device call fails, 18 where the disk holds no image, 26 where the image is of
/// version 1, 19 where it holds no replica, and 11 where memory is refused. Nothing is written.
pub fn read_log<D: Disk + Drop>(alloc: Global, disk: D) -> Result<Vec<Logged>, ReplicaError>
    ensures told { IfOk result (λ logged. TellsLast (D.seen disk) logged.items) }

    // Each refusal has its cause, as where a replica is opened.
    ensures cause { IfErr result (λ e. IsOpenRefusal e None (D.seen disk)) }
{
    opening_laws();
    let opened = match Journal::open(alloc, disk) {
        Ok(opened) => opened,
        Err((error, _)) => return Err(ReplicaError::Journal(error)),
    };
    if is_old_replica(&opened.contents.image) {
        return Err(ReplicaError::OldVersion);
    }
    let image = read_image(alloc, Version::Two, &opened.contents.image)?;
    let mut logged = Vec::new(alloc);
    let (older, newer) = image.trail.touches();
    push_touches(alloc, &mut logged, older)?;
    push_touches(alloc, &mut logged, newer)?;
    push_events(
        alloc,
        &mut logged,
        image.trail.position(),
        &opened.contents.payloads,
    )?;
    Ok(logged)
}

/// Puts the touches after what is there.
///
/// Refused 19 where one has the greatest position, and 11 where memory is refused.
fn push_touches(
    alloc: Global,
    logged: &mut Vec<Logged>,
    touches: &[Touch],
) -> Result<(), ReplicaError>
    ensures added { OnOk result
        (entries_of logged.new.items ≡ entries_of logged.old.items ++ touched touches.now) }
    ensures cause { IfErr result (λ e. IsReadRefusal e (HasGreatest touches.now)) }
{
    for touch in touches {
        let position = position_after(touch.position())?;
        let path = touch.path().copy(alloc)?;
        let what = What::Touched(path);
        logged.push(Logged { position, what })?;
    }
    Ok(())
}

/// Puts the events that the payloads are after what is there, the first at the position.
///
/// Refused 19 where they are no events, or more than there are positions for, and 11 where memory
/// is refused.
fn push_events(
    alloc: Global,
    logged: &mut Vec<Logged>,
    first: u64,
    payloads: &[Vec<u8>],
) -> Result<(), ReplicaError>
    ensures added { OnOk result
        (AddsEvents first (bytes_of_each payloads.now) logged.old.items logged.new.items) }
    ensures cause { IfErr result
        (λ e. IsReadRefusal e (AreNoEvents first (bytes_of_each payloads.now))) }
{
    let mut position = first;
    for payload in payloads {
        position = position_after(position)?;
        let Some(event) = read_event(alloc, Version::Two, payload)? else {
            return Err(ReplicaError::Damaged);
        };
        let what = What::Whole(event);
        logged.push(Logged { position, what })?;
    }
    Ok(())
}

/// The position with the event that was at this one. Refused 19 where there is none.
fn position_after(position: u64) -> Result<u64, ReplicaError>
    ensures next { IfOk result (λ next. next ≡ position + 1) }
    ensures cause { IfErr result (λ e. IsReadRefusal e (greatest ≤ position)) }
{
    match position.checked_add(1) {
        Some(next) => Ok(next),
        None => Err(ReplicaError::Damaged),
    }
}
