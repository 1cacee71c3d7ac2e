//! How a folder of the system looks from outside: what its metadata tells, and no contents.
ghost use Rattle.std.specs.Prelude.{◌≡◌, ◌↔◌, IsTrue};
ghost use Rattle.syn_folder.specs.Glimpses.{LookSame};

use crate::error::FolderError;
use crate::system::listing::is_listed;
use crate::system::looking::{is_gone, read_names};
use crate::system::looks::Look;
use crate::system::walking::MOST_LOOKED;
use std::alloc::Global;
use std::fs::Files;
use std::{io, str};

/// How a folder looks by its names, and by the numbers, modes, lengths and times of what stands in
/// it. A glimpse reads no file.
#[derive(Drop)]
pub struct Glimpse {
    /// The names in each directory, as the system lists them.
    names: Vec<u8>,
    looks: Vec<Look>,
}

impl Glimpse {
    /// The same names were listed, and what stood there looked the same.
    ///
    /// So nothing was written, made, moved or removed between the two, as far as the system's clock
    /// tells: it takes two changes that are very close for one. Of a folder with very much in it
    /// this is never said.
    pub fn is_same(&self, other: &Glimpse) -> bool
        ensures { IsTrue result ↔ LookSame self.now other.now }
    {
        if self.looks.len() > MOST_LOOKED || self.names != other.names {
            return false;
        }
        are_alike(self.looks.as_slice(), other.looks.as_slice())
    }
}

/// Each looks as the other one in its place, and there are as many.
fn are_alike(looks: &[Look], others: &[Look]) -> bool
    ensures { IsTrue result ↔ (looks.now ≡ others.now) }
{
    looks == others
}

/// Looks at the folder of this name and at all that stands in it on its file system. A folder that
/// is missing looks as nothing does.
///
/// Refused 9 where the system refuses it otherwise than for what is gone or may not be read, and 11
/// where memory is refused.
pub fn take_glimpse<F: Files>(
    alloc: Global,
    files: &F,
    root: &str,
) -> Result<Glimpse, FolderError> {
    let mut seen = Glimpse {
        names: Vec::new(alloc),
        looks: Vec::new(alloc),
    };
    let mut pending = Vec::new(alloc);
    match files.metadata(root) {
        Ok(there) => {
            seen.looks.push(Look::of(&there))?;
            pending.push(String::from_str(alloc, root)?)?;
        }
        Err(error) if is_hidden(&error) => return Ok(seen),
        Err(error) => return Err(FolderError::System(error)),
    }
    for _looked in 0..MOST_LOOKED {
        let Some(mut system_path) = pending.pop() else {
            break;
        };
        // After the slash the system follows a symbolic link, which only the folder itself may be.
        system_path.push('/')?;
        if seen.looks.len() <= MOST_LOOKED {
            seen.look_into(alloc, files, system_path.as_str(), &mut pending)?;
        }
    }
    Ok(seen)
}

impl Glimpse {
    /// What looks so lies on the file system of the folder itself.
    fn lies_here(&self, look: &Look) -> bool {
        match self.looks.first() {
            Some(folder) => look.lies_with(folder),
            None => true,
        }
    }

    /// Notes what the directory at the system's path lists, and how each of that looks. The
    /// directories in it are to be looked into next.
    fn look_into<F: Files>(
        &mut self,
        alloc: Global,
        files: &F,
        system_path: &str,
        pending: &mut Vec<String>,
    ) -> Result<(), FolderError> {
        let listing = match read_names(alloc, files, system_path) {
            Ok(listing) => listing,
            Err(error) if is_hidden(&error) => return Ok(()),
            Err(error) => return Err(FolderError::System(error)),
        };
        self.names.extend_from_slice(&listing)?;
        for name in listing.split(|byte| *byte == 0) {
            if is_listed(name) {
                self.look_at(alloc, files, system_path, name, pending)?;
            }
        }
        Ok(())
    }

    /// Notes how what has the name in the directory at the system's path looks. A name that is no
    /// text has no look of its own.
    fn look_at<F: Files>(
        &mut self,
        alloc: Global,
        files: &F,
        directory: &str,
        name: &[u8],
        pending: &mut Vec<String>,
    ) -> Result<(), FolderError> {
        let Ok(name) = str::from_utf8(name) else {
            return Ok(());
        };
        let mut system_path = String::from_str(alloc, directory)?;
        system_path.push_str(name)?;
        match files.symlink_metadata(system_path.as_str()) {
            Ok(there) => {
                let look = Look::of(&there);
                if there.is_dir() && self.lies_here(&look) {
                    pending.push(system_path)?;
                }
                self.looks.push(look)?;
                Ok(())
            }
            Err(error) if is_hidden(&error) => Ok(()),
            Err(error) => Err(FolderError::System(error)),
        }
    }
}

/// What stands there is gone, or may not be seen.
fn is_hidden(error: &io::Error) -> bool {
    is_gone(error) || error.kind() == io::ErrorKind::PermissionDenied
}
