//! A path with what stands there. A tree and a tree of marks are lists of such entries.
ghost use Rattle.std.specs.Prelude.{◌≡◌, IfOk, Some};
ghost use Rattle.syn_model.specs.Tree.{is_directory_content};

use std::alloc::{AllocError, Global};
use std::marker::Model;
use syn_path::Path;

/// What may stand at a path: a file or a directory. Contracts see it as the model's content.
pub trait EntryKind: Drop + Sized {
    ghost use Rattle.syn_model.specs.Tree.{Content as Contained};

    ghost content: { Self → Contained };

    /// Whether it is a directory.
    fn is_directory(&self) -> bool
        ensures { result ≡ is_directory_content (Some (content self.now)) };

    /// The same, on its own. Refused where memory is refused.
    fn copy(&self, alloc: Global) -> Result<Self, AllocError>
        ensures { IfOk result (λ copied. content copied ≡ content self.now) };
}

/// A path with what stands there. Contracts see it as the pair of the two.
#[derive(Debug, Drop)]
pub struct Placed<C: EntryKind> {
    path: Path,
    content: C,
}

impl<C: EntryKind> Model for Placed<C> {
    ghost use Rattle.syn_model.specs.Tree.{Pair};

    ghost Value = { Pair };

    ghost view = { λ e. (e.path, C.content e.content) };
}

impl<C: EntryKind> Placed<C> {
    /// What stands at the path.
    pub fn new(path: Path, content: C) -> Placed<C>
        ensures { result ≡ (path, C.content content) }
    {
        Placed { path, content }
    }

    /// The path.
    pub fn path(&self) -> &Path
        ensures { result.now ≡ self.now.0 }
    {
        &self.path
    }

    /// What stands there.
    pub fn content(&self) -> &C
        ensures { C.content result.now ≡ self.now.1 }
    {
        &self.content
    }

    /// The path and what stands there.
    pub fn into_parts(self) -> (Path, C)
        ensures { (result.0, C.content result.1) ≡ self }
    {
        (self.path, self.content)
    }
}
