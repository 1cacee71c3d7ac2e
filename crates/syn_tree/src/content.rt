//! What stands at a path of a tree: owned where it is put, and lent where it is found.
ghost use Rattle.std.specs.Prelude.{◌≡◌, Some};
ghost use Rattle.syn_model.specs.Tree.{is_directory_content};
ghost use Rattle.syn_tree.specs.Contents.{content_of, found_content};

use crate::mode::Mode;

/// What stands at a path.
#[derive(Debug, Drop)]
pub enum Content {
    /// A file, with its mode and its bytes.
    File(Mode, Vec<u8>),
    /// A directory.
    Dir,
}

/// What was found at a path.
#[derive(Debug, Drop)]
pub enum Found<'a> {
    /// A file, with its mode and its bytes.
    File(Mode, &'a [u8]),
    /// A directory.
    Dir,
}

impl Content {
    /// The same, lent.
    pub(crate) fn as_found(&self) -> Found<'_>
        ensures { found_content result ≡ content_of self.now }
    {
        match self {
            Content::File(mode, bytes) => Found::File(*mode, bytes),
            Content::Dir => Found::Dir,
        }
    }
}

impl Found<'_> {
    /// Whether it is a directory.
    pub fn is_directory(&self) -> bool
        ensures { result ≡ is_directory_content (Some (found_content self.now)) }
    {
        match self {
            Found::File(..) => false,
            Found::Dir => true,
        }
    }
}
