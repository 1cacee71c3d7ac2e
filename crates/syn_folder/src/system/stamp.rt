//! The file `.syn/folder`, by which a folder is known beside its marks.

use crate::error::FolderError;
use crate::system::listing::OWN;
use crate::system::open_dir::{OpenDir, is_none_there};
use crate::system::own::made_in;
use std::alloc::Global;
use std::fs::{Files, OpenFile, OpenOptions};
use std::io::{self, ErrorKind, Read, Write};

/// The name of the file.
const STAMP: &str = "folder";

/// The name of one that is being written.
const STAMP_PART: &str = "folder.part";

/// The most bytes of it that are read.
const MOST_BYTES: u64 = 64;

/// Random bytes of the system.
const RANDOM: &str = "/dev/urandom";

/// The file `.syn/folder` of a folder that is open. It is read and written in the directory that
/// was open then, whatever gets the folder's name meanwhile.
#[derive(Drop)]
pub struct StampFile<'a, F> {
    files: &'a F,
    root: &'a str,
    /// The folder's directory, unless the folder is missing.
    top: Option<OpenDir>,
}

impl<'a, F: Files> StampFile<'a, F> {
    /// That of the folder of this name, whose directory is open; none where the folder is missing.
    pub(super) fn new(files: &'a F, root: &'a str, top: Option<&OpenDir>) -> io::Result<Self> {
        let top = match top {
            Some(top) => Some(top.open_in(".")?),
            None => None,
        };
        Ok(StampFile { files, root, top })
    }

    /// That of the folder of this name, which may be missing.
    ///
    /// Refused 9 where the system refuses to open it, and 11 where memory is refused.
    pub fn open(alloc: Global, files: &'a F, root: &'a str) -> Result<Self, FolderError> {
        match OpenDir::open(alloc, root) {
            Ok(top) => Ok(StampFile::new(files, root, Some(&top))?),
            Err(error) if error.kind() == ErrorKind::NotFound => {
                Ok(StampFile::new(files, root, None)?)
            }
            Err(error) => Err(FolderError::System(error)),
        }
    }

    /// What stands in it; nothing where it is missing, and no more than 64 bytes.
    ///
    /// Refused 9 where the system refuses it, and 11 where memory is refused.
    pub fn read(&self, alloc: Global) -> Result<Vec<u8>, FolderError> {
        let mut bytes = Vec::new(alloc);
        let Some(own) = self.own()? else {
            return Ok(bytes);
        };
        let mut options = OpenOptions::new();
        let file = match options
            .read(true)
            .open(self.files, own.place(alloc, STAMP)?.as_str())
        {
            Ok(file) => file,
            Err(error) if is_none_there(&error) => return Ok(bytes),
            Err(error) => return Err(FolderError::System(error)),
        };
        file.take(MOST_BYTES).read_to_end(&mut bytes)?;
        Ok(bytes)
    }

    /// Gives it these bytes: a stop leaves it whole, or as it was. The folder is made where it is
    /// missing.
    ///
    /// Refused 9 where the system refuses it, and 11 where memory is refused.
    pub fn write(&mut self, alloc: Global, bytes: &[u8]) -> Result<(), FolderError> {
        let own = self.own_made(alloc)?;
        let (part, whole) = (own.place(alloc, STAMP_PART)?, own.place(alloc, STAMP)?);
        // One that was cut off was nobody's stamp yet.
        let _ = self.files.remove_file(part.as_str());
        let mut options = OpenOptions::new();
        options.write(true).create_new(true);
        let mut file = options.open(self.files, part.as_str())?;
        file.write_all(bytes)?;
        file.sync_data()?;
        self.files.rename(part.as_str(), whole.as_str())?;
        own.sync(alloc, self.files)?;
        Ok(())
    }

    /// Random bytes of the system.
    ///
    /// Refused 9 where the system refuses them.
    pub fn draw<const N: usize>(&self) -> Result<[u8; N], FolderError> {
        let mut drawn = [0; N];
        let mut options = OpenOptions::new();
        let mut random = options.read(true).open(self.files, RANDOM)?;
        random.read_exact(&mut drawn)?;
        Ok(drawn)
    }

    /// The folder's `.syn`; none where it has none.
    fn own(&self) -> io::Result<Option<OpenDir>> {
        let Some(top) = &self.top else {
            return Ok(None);
        };
        match top.open_in(OWN) {
            Ok(own) => Ok(Some(own)),
            Err(error) if is_none_there(&error) => Ok(None),
            Err(error) => Err(error),
        }
    }

    /// The same, which is made where it is missing, and so is the folder.
    fn own_made(&mut self, alloc: Global) -> io::Result<OpenDir> {
        if self.top.is_none() {
            make_folder(self.files, self.root)?;
            self.top = Some(OpenDir::open(alloc, self.root)?);
        }
        let Some(top) = &self.top else {
            return Err(io::Error::from(ErrorKind::NotFound));
        };
        let is_there = top.open_in(OWN).is_ok();
        let own = made_in(alloc, self.files, top, OWN)?;
        if !is_there {
            top.sync(alloc, self.files)?;
        }
        Ok(own)
    }
}

/// Makes the folder of this name, unless it is there by now.
pub(super) fn make_folder<F: Files>(files: &F, root: &str) -> io::Result<()> {
    match files.create_dir(root) {
        Err(error) if error.kind() != ErrorKind::AlreadyExists => Err(error),
        _ => Ok(()),
    }
}
