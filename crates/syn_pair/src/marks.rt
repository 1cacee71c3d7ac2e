//! The replica that a folder's marks are of.
ghost use Rattle.std.specs.Prelude.{◌≡◌, IfErr, IfOk, IfSome, OnOk};
ghost use Rattle.syn_pair.specs.Folders.{stamp_of};
ghost use Rattle.syn_pair.specs.Known.{stated_of};
ghost use Rattle.syn_pair.specs.Marks.{AreNotOf, AreOf, marked_spelling, refusal_of};
ghost use Rattle.syn_pair.specs.Sides.{side_of};
ghost use Rattle.syn_refusal.specs.Refusals.{cause_of};

use crate::check::{Cause, check_history};
use crate::folder::{FolderStamp, read_stamp};
use crate::known::read_side;
use crate::side::SideStatus;
use std::alloc::Global;
use syn_message::write_stated;
use syn_refusal::Refusal;
use syn_wire::{ReadError, Reader, WireError};

/// "SYNM" and the version.
const FRONT: [u8; 5] = *b"SYNM\x01";

/// What is known of the replica and of the folder that marks are of.
#[derive(Debug, Drop)]
pub struct MarkedReplica {
    /// What it said of itself when folder and replica were last in step.
    pub known: SideStatus,
    /// Whether an older copy of it was found since. What the marks say is of no use beside such a
    /// one, however many events it gets later.
    pub is_parted: bool,
    /// What the folder is known by.
    pub folder: FolderStamp,
}

/// Why a folder's marks are not of a replica.
#[derive(Clone, Copy, Debug, PartialEq, Eq)]
pub enum MarksMismatch {
    /// An older copy of the replica was found before.
    Parted,
    /// It is another replica than the one that is known, or an older one.
    Of(Cause),
}

impl MarksMismatch {
    /// Which refusal it is: 20.
    pub fn refusal(&self) -> Refusal
        ensures { cause_of result ≡ refusal_of self.now }
    {
        match self {
            MarksMismatch::Parted => Refusal::WrongPair,
            MarksMismatch::Of(cause) => cause.refusal(),
        }
    }

    /// Whether the replica parts from the marks here: an older copy of it was found. Beside another
    /// replica they stay what they are.
    pub fn parts(&self) -> bool {
        match self {
            MarksMismatch::Parted | MarksMismatch::Of(Cause::OtherReplica) => false,
            MarksMismatch::Of(_) => true,
        }
    }
}

impl MarkedReplica {
    /// Whether the marks are of the replica that was found so. It has to have been asked about the
    /// place that is known.
    ///
    /// Refused 20 where it is another replica or an older one, or an older one was found before.
    pub fn check(&self, found: &SideStatus) -> Result<(), MarksMismatch>
        ensures of { OnOk result (AreOf self.now (side_of found.now)) }
        ensures not_of { IfErr result (AreNotOf self.now (side_of found.now)) }
    {
        if self.is_parted {
            return Err(MarksMismatch::Parted);
        }
        match check_history(&self.known, found) {
            Ok(()) => Ok(()),
            Err(cause) => Err(MarksMismatch::Of(cause)),
        }
    }

    /// The bytes of it: "SYNM", the version 1, a byte that is 1 where the replica has parted from
    /// the marks, the stamp of the folder, and what the replica stated.
    ///
    /// Refused 11 where memory is refused.
    pub fn encode(&self, alloc: Global) -> Result<Vec<u8>, WireError>
        ensures { IfOk result (λ bytes. bytes.items
            ≡ marked_spelling self.now.is_parted (stamp_of self.now.folder)
            (stated_of self.now.known)) }
    {
        let mut bytes = Vec::new(alloc);
        bytes.extend_from_slice(&FRONT)?;
        bytes.push(u8::from(self.is_parted))?;
        self.folder.write(&mut bytes)?;
        write_stated(&mut bytes, self.known.identity, &self.known.status)?;
        Ok(bytes)
    }

    /// What these bytes are; none where they are no such bytes.
    ///
    /// Refused 11 where memory is refused.
    pub fn decode(alloc: Global, bytes: &[u8]) -> Result<Option<MarkedReplica>, WireError>
        ensures { IfOk result (λ read. IfSome read (λ marked. bytes.now
            ≡ marked_spelling marked.is_parted (stamp_of marked.folder) (stated_of marked.known))) }
    {
        match read_marked(&mut Reader::new(bytes), alloc) {
            Ok(marked) => Ok(Some(marked)),
            Err(ReadError::Malformed) => Ok(None),
            Err(ReadError::Memory) => Err(WireError::Memory),
        }
    }
}

fn read_marked(reader: &mut Reader<'_>, alloc: Global) -> Result<MarkedReplica, ReadError>
    ensures { IfOk result (λ marked. reader.old
        ≡ marked_spelling marked.is_parted (stamp_of marked.folder) (stated_of marked.known)) }
{
    if reader.array::<5>()? != FRONT {
        return Err(ReadError::Malformed);
    }
    let is_parted = match reader.byte()? {
        0 => false,
        1 => true,
        _ => return Err(ReadError::Malformed),
    };
    let folder = read_stamp(reader)?;
    let known = read_side(reader, alloc)?;
    reader.end()?;
    Ok(MarkedReplica {
        known,
        is_parted,
        folder,
    })
}
