//! The entries of a tree: keys of paths, each with a file or a directory.
ghost use Rattle.syn_tree.specs.Contents.{content_of};

use crate::content::Content;
use std::alloc::{AllocError, Global};
use syn_placed::{EntryKind, Keyed};

/// An entry of a tree.
pub type Entry = Keyed<Content>;

impl EntryKind for Content {
    ghost content = { content_of };

    fn is_directory(&self) -> bool {
        match self {
            Content::File(..) => false,
            Content::Dir => true,
        }
    }

    fn copy(&self, alloc: Global) -> Result<Content, AllocError> {
        match self {
            Content::File(mode, bytes) => Ok(Content::File(*mode, Vec::from_slice(alloc, bytes)?)),
            Content::Dir => Ok(Content::Dir),
        }
    }
}
