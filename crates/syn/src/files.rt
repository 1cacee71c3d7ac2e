//! The disks in files of the system, by their names.

use crate::beside::{draw_identity, read_beside, read_identity, write_beside};
use crate::format::{NewImage, format};
use std::alloc::Global;
use std::fs::Files;
use syn_command::CommandError;
use syn_disk::{Access, FileDisk, LockedFile, MirroredFile, OpenError, OsFile};
use syn_files::{Beside, NamedDisks};
use syn_history::Identity;

/// The disks in files. The name of one is the path of its file.
#[derive(Drop)]
pub struct DisksInFiles<'a, F>(pub &'a F);

impl<F: Files> NamedDisks for DisksInFiles<'_, F>
where
    F::File: OsFile + Send,
{
    type Disk = FileDisk<MirroredFile<F::File>>;

    type Locked = LockedFile<F::File>;

    fn lock(&self, name: &str, access: Access) -> Result<LockedFile<F::File>, OpenError> {
        LockedFile::open(self.0, name, access)
    }

    fn make_archive(&self, alloc: Global, name: &str, pair: u64) -> Result<(), CommandError> {
        let part = format!(in alloc; "{name}.new")?;
        let image = NewImage::Archive { last_session: 0 };
        format(alloc, self.0, &part, image, pair, false)?;
        Ok(self.0.rename(&part, name)?)
    }

    fn format_after(
        &self,
        alloc: Global,
        name: &str,
        pair: u64,
        last_session: u64,
    ) -> Result<(), CommandError> {
        let image = NewImage::Archive { last_session };
        format(alloc, self.0, name, image, pair, false)
    }

    fn identity(
        &self,
        alloc: Global,
        name: &str,
        access: Access,
    ) -> Result<Option<Identity>, CommandError> {
        match read_identity(alloc, self.0, name)? {
            None if access == Access::Write => Ok(Some(draw_identity(alloc, self.0, name)?)),
            found => Ok(found),
        }
    }

    fn read_beside(
        &self,
        alloc: Global,
        name: &str,
        what: Beside,
    ) -> Result<Option<Vec<u8>>, CommandError> {
        read_beside(alloc, self.0, name, what)
    }

    fn write_beside(
        &self,
        alloc: Global,
        name: &str,
        what: Beside,
        bytes: &[u8],
    ) -> Result<(), CommandError> {
        write_beside(alloc, self.0, name, what, bytes)
    }
}
