//! What stands for a file or a directory where its bytes are not kept, as in an archive and in a
//! listing.
ghost use Rattle.std.specs.Prelude.{◌≡◌};
ghost use Rattle.syn_model.specs.Mark.{mark_of};
ghost use Rattle.syn_model.specs.Contents.{contents_with};
ghost use Rattle.syn_model.specs.Tree.{File};
ghost use Rattle.syn_mark.specs.Marks.{content_of};
ghost use Rattle.syn_tree.specs.Modes.{mode_of};

use sha2::{Digest, Sha256};
use std::alloc::{AllocError, Global};
use syn_placed::EntryKind;
use syn_tree::Mode;

/// What stands for a file or a directory.
#[derive(Clone, Copy, Debug, PartialEq, Eq, Drop)]
pub enum Mark {
    /// A file, by its mode and the SHA-256 digest of its bytes.
    File(Mode, [u8; 32]),
    /// A directory.
    Dir,
}

impl Mark {
    /// The mark of a file with this mode and these bytes. It takes no memory.
    pub fn of_file(mode: Mode, bytes: &[u8]) -> Mark
        ensures { content_of result
            ≡ mark_of (File (contents_with (mode_of mode) bytes.now)) }
    {
        Mark::File(mode, Sha256::digest(bytes))
    }
}

impl EntryKind for Mark {
    ghost use Rattle.syn_mark.specs.Marks.{content_of};
    ghost use Rattle.syn_tree.specs.Modes.{mode_of};

    ghost content = { content_of };

    fn is_directory(&self) -> bool {
        match self {
            Mark::File(..) => false,
            Mark::Dir => true,
        }
    }

    fn copy(&self, _alloc: Global) -> Result<Mark, AllocError> {
        Ok(*self)
    }
}
