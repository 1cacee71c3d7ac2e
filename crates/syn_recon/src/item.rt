//! The items of a plan: what is to be done, each at one path.
ghost use Rattle.std.specs.Prelude.{◌≡◌};
ghost use Rattle.syn_model.specs.Decision.{path_of};
ghost use Rattle.syn_recon.specs.Items.{item_of};

use syn_path::Path;

/// What is to be done at a path.
#[derive(Debug, Drop)]
pub enum Item {
    /// What the right has goes to the left: only the right changed, or both did and the right is
    /// preferred.
    ToLeft(Path),
    /// What the left has goes to the right: only the left changed, or both did and the left is
    /// preferred.
    ToRight(Path),
    /// Both sides changed and have equal marks: the archive is to have them too.
    MarkSame(Path),
    /// Both sides have a directory and the archive has none: it is to have one too.
    MarkDir(Path),
    /// Nothing is done: both sides changed it and none is preferred, or it was no directory any
    /// more when its listing was asked for.
    Conflict(Path),
}

impl Item {
    /// The path that it is for.
    pub fn path(&self) -> &Path
        ensures { result.now ≡ path_of (item_of self.now) }
    {
        match self {
            Item::ToLeft(path) => path,
            Item::ToRight(path) => path,
            Item::MarkSame(path) => path,
            Item::MarkDir(path) => path,
            Item::Conflict(path) => path,
        }
    }
}
