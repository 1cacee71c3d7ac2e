//! Walks through a folder of the system: a look at each path that a replica can have.
ghost use Rattle.std.specs.Prelude.{◌≡◌, ◌≢◌, ◌++◌, ◌∷◌, [], false, All, IfOk, OnOk};
ghost use Rattle.std.specs.Prelude.{Contains};
ghost use Rattle.syn_model.specs.Path.{Bytes, Path as ModelPath};
ghost use Rattle.syn_folder.specs.Looks.{IsChildOf, IsEntered, IsFollowed, listed_in};

use crate::error::FolderError;
use crate::system::listing::children_of;
use crate::system::looking::{look_at, look_at_folder};
use crate::system::looks::{Look, Seen, Shown};
use std::alloc::Global;
use std::fs::Files;
use std::io;
use syn_path::{Key, Path};
use syn_tree::measures::MOST_BELOW;

/// How many files, directories and others of a folder are looked at.
pub(super) const MOST_LOOKED: usize = 65_536;

/// What is mounted in a directory of a folder.
#[derive(Clone, Copy, Debug, PartialEq, Eq)]
pub(super) enum Mounts {
    /// It is a part of the folder.
    Entered,
    /// It can stand in no replica, and is left alone.
    Apart,
}

impl Mounts {
    /// The look of the folder of this name, where only what lies on its file system is a part of
    /// it.
    fn bounds<F: Files>(self, files: &F, root: &str) -> io::Result<Option<Look>> {
        match self {
            Mounts::Entered => Ok(None),
            Mounts::Apart => Ok(Some(Look::of(&files.metadata(root)?))),
        }
    }
}

/// What was looked at in a folder.
#[derive(Drop)]
pub(super) struct Walk {
    /// The path of a replica that the folder is for.
    pub(super) at: Key,
    /// The folder, and what is in it, in path order.
    pub(super) looks: Vec<Seen>,
    /// What is still to be looked at, the last in path order first.
    pub(super) pending: Vec<Path>,
    /// How many of the looks show a file or a directory that a replica can have.
    nodes: usize,
}

/// Looks at all that stands in the folder, which is for the path `at` of a replica. Where there is
/// more than a replica may have, it ends early.
///
/// Refused 9 where the system refuses it, and 11 where memory is refused.
pub(super) fn walk_folder<F: Files>(
    alloc: Global,
    files: &F,
    root: &str,
    at: Key,
    mounts: Mounts,
) -> Result<Walk, FolderError>
    ensures at { IfOk result (λ walk. walk.at ≡ at) }
    ensures entered { IfOk result (λ walk. IsEntered walk.looks.items) }
    ensures followed { IfOk result (λ walk.
        IsFollowed at walk.looks.items walk.pending.items) }
{
    let mut walk = Walk {
        at,
        looks: Vec::new(alloc),
        pending: Vec::new(alloc),
        nodes: 0,
    };
    let bounds = mounts.bounds(files, root)?;
    let folder = look_at_folder(alloc, files, root)?;
    walk.take(alloc, Path::root(alloc), folder)?;
    for _looked in 0..MOST_LOOKED {
        let Some(path) = walk.pending.pop() else {
            break;
        };
        let shown = look_at(alloc, files, root, bounds, &path, walk.are_enough())?;
        walk.take(alloc, path, shown)?;
    }
    Ok(walk)
}

impl Walk {
    /// There are more files and directories than a replica may have.
    pub(super) fn is_over(&self) -> bool
        ensures all { result ≡ false → self.now.pending.items ≡ [] }
        ensures read { result ≡ false
            → All (λ seen. seen.shown ≢ Shown.Unread) self.now.looks.items }
    {
        !self.pending.is_empty() || self.are_enough() || has_unread(&self.looks)
    }

    /// There are more files and directories already than a replica may have.
    fn are_enough(&self) -> bool {
        self.nodes > MOST_BELOW + 1
    }

    /// Takes what was shown at the path. What a directory lists is to be looked at next.
    fn take(&mut self, alloc: Global, path: Path, shown: Shown) -> Result<(), FolderError>
        ensures at { self.new.at ≡ self.old.at }
        ensures looks { OnOk result (self.new.looks.items
            ≡ self.old.looks.items ++ record { path = path; shown = shown } ∷ []) }
        ensures followed { OnOk result (IsFollowed self.old.at self.old.looks.items
            (self.old.pending.items ++ path ∷ [])
            → IsFollowed self.old.at self.new.looks.items self.new.pending.items) }
    {
        self.nodes = self.nodes.saturating_add(usize::from(shown.is_node()));
        follow(alloc, &self.at, &path, &shown, &mut self.pending)?;
        self.looks.push(Seen { path, shown })?;
        Ok(())
    }
}

/// Puts to the pending paths those of what the directory lists that is shown at the path, as far as
/// a replica can have them: the last in path order first.
fn follow(
    alloc: Global,
    at: &Key,
    path: &Path,
    shown: &Shown,
    pending: &mut Vec<Path>,
) -> Result<(), FolderError>
    ensures kept { OnOk result ((child : ModelPath) → Contains pending.old.items child
        → Contains pending.new.items child) }
    ensures listed { OnOk result ((name : Bytes) (child : ModelPath)
        → Contains (listed_in shown.now) name → IsChildOf at.now path.now name child
        → Contains pending.new.items child) }
{
    let Shown::Directory(_, listing) = shown else {
        return Ok(());
    };
    let mut children = children_of(alloc, at, path, listing)?;
    children.reverse();
    pending.append(&mut children)?;
    Ok(())
}

/// One of the files was not read.
fn has_unread(looks: &[Seen]) -> bool
    ensures { result ≡ false → All (λ seen. seen.shown ≢ Shown.Unread) looks.now }
{
    for seen in looks {
        if let Shown::Unread = &seen.shown {
            return true;
        }
    }
    false
}
