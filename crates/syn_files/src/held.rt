//! What a disk holds that is to be made an image.

use crate::named::NamedDisks;
use std::alloc::Global;
use syn_command::{CommandError, OpenedImage, open_image};
use syn_disk::{Access, DISK_SIZE, DeviceFailed, Disk, LockedDisk};
use syn_refusal::Refusal;

/// Each half of a disk begins with a gate, a generation of 8 bytes and a length of 4; then an image
/// begins with these letters.
const LETTERS: [[u8; 4]; 2] = [*b"SYNR", *b"SYNA"];

/// So many bytes are read at once where a disk is looked through.
const BLOCK: usize = 256;

/// What a disk holds that is to be made an image.
#[derive(Clone, Copy, Debug, PartialEq, Eq)]
pub enum Held {
    /// Nothing that anybody would miss: no image, one without a history, or what a format leaves
    /// that was cut off.
    Nothing,
    /// A replica that has so many events.
    Replica { events: u64 },
    /// An archive whose last session has this number, with so many marks.
    Archive { session: u64, marks: usize },
    /// An image of version 1.
    OldVersion,
    /// Bytes that are no image that opens.
    Strange,
}

/// What the disk of that name holds. Nothing is written.
///
/// Refused as the lock to read and the reading of a disk are, and 11 where memory is refused.
pub fn held_in<N: NamedDisks>(alloc: Global, disks: &N, name: &str) -> Result<Held, CommandError> {
    let mut disk = disks.lock(name, Access::Read)?.into_disk(alloc)?;
    let Ok(may_be_cut_off) = may_be_cut_off(&mut disk) else {
        return Err(CommandError::from(Refusal::Device));
    };
    match open_image(alloc, disk) {
        Ok(OpenedImage::Replica(replica)) => Ok(replica_of(replica.position())),
        Ok(OpenedImage::Archive(archive)) => {
            let marks = archive.tree().as_slice().len().saturating_sub(1);
            Ok(archive_of(archive.last_session(), marks))
        }
        Err(error) => match error.refusal() {
            Refusal::OldVersion => Ok(Held::OldVersion),
            Refusal::NoImage if may_be_cut_off => Ok(Held::Nothing),
            Refusal::NoImage | Refusal::Damaged => Ok(Held::Strange),
            _ => Err(error),
        },
    }
}

/// A replica that has so many events.
fn replica_of(events: u64) -> Held {
    if events == 0 {
        Held::Nothing
    } else {
        Held::Replica { events }
    }
}

/// An archive whose last session has this number, with so many marks.
fn archive_of(session: u64, marks: usize) -> Held {
    if session == 0 && marks == 0 {
        Held::Nothing
    } else {
        Held::Archive { session, marks }
    }
}

/// Whether the disk is as a format leaves it that was cut off: both gates are closed, and there is
/// the beginning of an image, or nothing at all.
fn may_be_cut_off<D: Disk>(disk: &mut D) -> Result<bool, DeviceFailed> {
    let mut first = [0; 17];
    let mut second = [0; 17];
    disk.read(0, &mut first)?;
    disk.read(DISK_SIZE / 2, &mut second)?;
    if first[0] != 0 || second[0] != 0 {
        return Ok(false);
    }
    if begins_image(&first) || begins_image(&second) {
        return Ok(true);
    }
    is_empty(disk)
}

/// Whether the half that begins so has the beginning of an image after its gate.
fn begins_image(half: &[u8; 17]) -> bool {
    let letters = [half[13], half[14], half[15], half[16]];
    LETTERS.contains(&letters)
}

/// Whether each byte of the disk is 0, as in a file that was only made long enough.
fn is_empty<D: Disk>(disk: &mut D) -> Result<bool, DeviceFailed> {
    let mut bytes = [0; BLOCK];
    for block in 0..DISK_SIZE / BLOCK {
        disk.read(block * BLOCK, &mut bytes)?;
        if bytes.iter().any(|byte| *byte != 0) {
            return Ok(false);
        }
    }
    Ok(true)
}
