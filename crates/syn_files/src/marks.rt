//! The replica and the folder that marks are of, which are known beside them.

use crate::named::{Beside, NamedDisks};
use crate::pairs::status_at;
use std::alloc::Global;
use syn_command::CommandError;
use syn_daemon::KeepsMarks;
use syn_disk::Disk;
use syn_history::Identity;
use syn_pair::{FolderStamp, LAST_PLACE, MarkedReplica, SideStatus};
use syn_refusal::Refusal;
use syn_replica::Replica;

/// What is known of the replica and of the folder that marks are of. Marks tell what was removed.
/// Beside another replica or another folder, or an older copy of one of them, they would have files
/// removed that nobody has removed.
#[derive(Drop)]
pub(crate) struct MarksKeeper<'a, N> {
    alloc: Global,
    disks: &'a N,
    /// The name of the marks' disk.
    marks: &'a str,
    known: Option<MarkedReplica>,
}

impl<'a, N: NamedDisks> MarksKeeper<'a, N> {
    /// What is kept beside the marks of that name, if anything is. To begin anew, nothing is known.
    ///
    /// Refused 9 where it cannot be read, or where the file of its name is somebody else's; 19
    /// where it is nothing that was kept so; and 11 where memory is refused.
    pub fn open(
        alloc: Global,
        disks: &'a N,
        marks: &'a str,
        is_anew: bool,
    ) -> Result<MarksKeeper<'a, N>, CommandError> {
        let known = match disks.read_beside(alloc, marks, Beside::Replica)? {
            Some(bytes) if !is_anew => Some(decode(alloc, &bytes)?),
            _ => None,
        };
        Ok(MarksKeeper {
            alloc,
            disks,
            marks,
            known,
        })
    }

    /// Whether anything is known of the replica.
    pub fn is_known(&self) -> bool {
        self.known.is_some()
    }

    /// What the replica says of itself, which has this identity, asked about the place that is
    /// known.
    ///
    /// Refused 11 where memory is refused.
    pub fn ask<D: Disk>(
        &self,
        identity: Option<Identity>,
        replica: &Replica<D>,
    ) -> Result<SideStatus, CommandError> {
        let place = match &self.known {
            Some(marked) => marked.known.status.place,
            None => LAST_PLACE,
        };
        status_at(self.alloc, identity, replica, place)
    }

    /// Whether the marks are of the replica that was found so. Nothing is written.
    ///
    /// Refused 20 where they are not.
    pub fn check(&self, found: &SideStatus) -> Result<(), CommandError> {
        match &self.known {
            Some(marked) => marked.check(found).map_err(CommandError::Marks),
            None => Ok(()),
        }
    }

    /// The same. Where an older copy was found, that is kept: the marks are refused from then on,
    /// however many events the replica gets, until they are begun anew.
    ///
    /// Refused as `check` is, and 9 where that cannot be kept.
    pub fn check_to_use(&mut self, found: &SideStatus) -> Result<(), CommandError> {
        let checked = self.check(found);
        if let Err(CommandError::Marks(mismatch)) = &checked {
            if mismatch.parts() {
                self.part()?;
            }
        }
        checked
    }

    /// Keeps that the replica has parted from the marks.
    fn part(&mut self) -> Result<(), CommandError> {
        let Some(marked) = &mut self.known else {
            return Ok(());
        };
        marked.is_parted = true;
        keep(self.alloc, self.disks, self.marks, marked)
    }
}

impl<N: NamedDisks> KeepsMarks for MarksKeeper<'_, N> {
    fn folder(&self) -> Option<FolderStamp> {
        match &self.known {
            Some(marked) => Some(marked.folder),
            None => None,
        }
    }

    fn keep(&self, replica: SideStatus, folder: FolderStamp) -> Result<(), Refusal> {
        let (alloc, marks) = (self.alloc, self.marks);
        let marked = MarkedReplica {
            known: replica,
            is_parted: false,
            folder,
        };
        let Ok(bytes) = marked.encode(alloc) else {
            return Err(Refusal::Memory);
        };
        match self
            .disks
            .write_beside(alloc, marks, Beside::Replica, &bytes)
        {
            Ok(()) => Ok(()),
            Err(error) => Err(error.refusal()),
        }
    }
}

/// What was kept in these bytes.
fn decode(alloc: Global, bytes: &[u8]) -> Result<MarkedReplica, CommandError> {
    match MarkedReplica::decode(alloc, bytes) {
        Ok(Some(marked)) => Ok(marked),
        Ok(None) => Err(CommandError::from(Refusal::Damaged)),
        Err(_) => Err(CommandError::Memory),
    }
}

/// Keeps it beside the marks of that name, whole and durably.
fn keep<N: NamedDisks>(
    alloc: Global,
    disks: &N,
    marks: &str,
    marked: &MarkedReplica,
) -> Result<(), CommandError> {
    let Ok(bytes) = marked.encode(alloc) else {
        return Err(CommandError::Memory);
    };
    disks.write_beside(alloc, marks, Beside::Replica, &bytes)
}
