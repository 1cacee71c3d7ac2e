//! Directories of the system that are open, and what is named in them.

use std::alloc::{AllocError, Global};
use std::fs::{Files, OpenFile, OpenOptions};
use std::io;

/// A directory of the system that is open. What is named in it is named through it, wherever the
/// directory is moved, and whatever gets its name.
pub(super) struct OpenDir {
    fd: i32,
}

impl Drop for OpenDir {
    fn drop(self) {
        let OpenDir { fd } = self;
        libc::close(fd);
    }
}

impl OpenDir {
    /// Opens the directory at the system's path, which may be a symbolic link to one.
    pub(super) fn open(alloc: Global, system_path: &str) -> io::Result<OpenDir> {
        let mut whole = String::from_str(alloc, system_path)?;
        whole.push('/')?;
        opened(os::open_dir_at(libc::AT_FDCWD, whole.as_str().as_bytes()))
    }

    /// Opens the directory that has the name in this one, and no symbolic link to one.
    pub(super) fn open_in(&self, name: &str) -> io::Result<OpenDir> {
        opened(os::open_dir_at(self.fd, name.as_bytes()))
    }

    /// The path of the system to the directory itself, as long as it is open.
    pub(super) fn itself(&self, alloc: Global) -> Result<String, AllocError> {
        let number = self.fd;
        format!(in alloc; "/proc/self/fd/{number}")
    }

    /// The path of the system to what has the name in it. No symbolic link stands above that.
    pub(super) fn place(&self, alloc: Global, name: &str) -> Result<String, AllocError> {
        let number = self.fd;
        format!(in alloc; "/proc/self/fd/{number}/{name}")
    }

    /// Syncs the names in it.
    pub(super) fn sync<F: Files>(&self, alloc: Global, files: &F) -> io::Result<()> {
        let itself = self.itself(alloc)?;
        let mut options = OpenOptions::new();
        options.read(true).open(files, itself.as_str())?.sync_all()
    }
}

/// The directory that was opened as this number, or why the system opened none.
fn opened(fd: i32) -> io::Result<OpenDir> {
    if fd < 0 {
        Err(io::Error::from_raw_os_error(os::errno()))
    } else {
        Ok(OpenDir { fd })
    }
}

/// Nothing is there any more, or something that is no directory.
pub(super) fn is_none_there(error: &io::Error) -> bool {
    matches!(
        error.kind(),
        io::ErrorKind::NotFound | io::ErrorKind::NotADirectory | io::ErrorKind::FilesystemLoop
    )
}
