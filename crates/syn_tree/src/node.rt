//! A part of a tree by itself, as a replacement puts it. Unlike a whole tree it may be a file.
ghost use Rattle.std.specs.Prelude.{◌≡◌, true, false, IfOk};
ghost use Rattle.syn_model.specs.Limits.{fits_part, fits_paths};
ghost use Rattle.syn_model.specs.Path.{Path};
ghost use Rattle.syn_tree.specs.Lists.{FitsNowhere};
ghost use Rattle.syn_tree.specs.Nodes.{node_tree};

use crate::entries::Entries;
use crate::measures::LONGEST_FILE;
use crate::mode::Mode;
use std::alloc::{AllocError, Global};

/// What can stand at a path: a file, or a directory with what is below it.
#[derive(Debug, Drop)]
pub enum Node {
    /// A file, with its mode and its bytes.
    File(Mode, Vec<u8>),
    /// A directory, with what is below it.
    Dir(Entries),
}

impl Node {
    /// An equal one of its own. Refused where memory is refused.
    pub fn copy(&self, alloc: Global) -> Result<Node, AllocError>
        ensures { IfOk result (λ copy. node_tree copy ≡ node_tree self.now) }
    {
        match self {
            Node::File(mode, bytes) => Ok(Node::File(*mode, Vec::from_slice(alloc, bytes)?)),
            Node::Dir(entries) => Ok(Node::Dir(entries.copy(alloc)?)),
        }
    }

    /// Whether it keeps the limit of a file's bytes, as a directory does by its type.
    pub fn is_brief(&self) -> bool
        ensures brief { result ≡ true → fits_part (node_tree self.now) ≡ true }
        ensures long { result ≡ false → (at : Path) → FitsNowhere at (node_tree self.now) }
        ensures paths { fits_paths (node_tree self.now) ≡ true }
    {
        match self {
            Node::File(_, bytes) => bytes.len() <= LONGEST_FILE,
            Node::Dir(entries) => {
                let _ = entries.iter();
                true
            }
        }
    }
}
