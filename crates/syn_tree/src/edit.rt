//! The edits that a user may make. `Tree` says what each does, and why it is refused.
ghost use Rattle.std.specs.Prelude.{◌≡◌, IfOk};
ghost use Rattle.syn_tree.specs.Edits.{edit_of};

use crate::mode::Mode;
use std::alloc::{AllocError, Global};
use syn_path::Path;

/// A change that a user makes at one path of a tree.
#[derive(Debug, Drop)]
pub enum Edit {
    /// Puts a file with these bytes, in the place of one that is there.
    Put(Path, Vec<u8>),
    /// Makes an empty directory where nothing is.
    MakeDir(Path),
    /// Takes out what is there, a directory with all below it.
    Remove(Path),
    /// Gives the file that is there this mode.
    Chmod(Path, Mode),
}

impl Edit {
    /// An equal one of its own. Refused where memory is refused.
    pub fn copy(&self, alloc: Global) -> Result<Edit, AllocError>
        ensures { IfOk result (λ copy. edit_of copy ≡ edit_of self.now) }
    {
        match self {
            Edit::Put(path, bytes) => {
                let path = path.copy(alloc)?;
                Ok(Edit::Put(path, Vec::from_slice(alloc, bytes)?))
            }
            Edit::MakeDir(path) => Ok(Edit::MakeDir(path.copy(alloc)?)),
            Edit::Remove(path) => Ok(Edit::Remove(path.copy(alloc)?)),
            Edit::Chmod(path, mode) => Ok(Edit::Chmod(path.copy(alloc)?, *mode)),
        }
    }
}
