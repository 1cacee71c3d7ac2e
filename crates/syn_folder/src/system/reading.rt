//! Reads a folder of the system twice, and compares what was seen.

ghost use Rattle.std.specs.Prelude.{◌≡◌, ◌≢◌, [], true, All, Contains, IfOk, OnOk};
ghost use Rattle.syn_folder.specs.Looks.{IsFolderRead, IsPicture, IsSameNode, IsSeenAgain};
ghost use Rattle.syn_folder.specs.declared.system.looks.Seen.{Seen as Look};

use crate::error::FolderError;
use crate::system::looks::{Seen, Shown};
use crate::system::picture::{FolderRead, picture};
use crate::system::walking::{Mounts, Walk, walk_folder};
use std::alloc::{AllocError, Global};
use std::fs::Files;
use syn_path::{Key, Path};

/// What stands in the folder, and what can not stand in a replica at the path `at`. Where there is
/// more than a replica may have, the folder itself is among that, and the tree is empty.
///
/// It is read twice. Refused 9 where the system refuses it, 13 where something changed meanwhile,
/// and 11 where memory is refused.
pub(super) fn read_folder<F: Files>(
    alloc: Global,
    files: &F,
    root: &str,
    at: Key,
    mounts: Mounts,
) -> Result<FolderRead, FolderError>
    ensures { IfOk result (λ read. IsFolderRead at read.tree read.strangers.items) }
{
    let first = walk_folder(alloc, files, root, at, mounts)?;
    if first.is_over() {
        let changed = changed_in(alloc, &first.looks)?;
        return unchanged(alloc, first, changed);
    }
    let second = walk_folder(alloc, files, root, at, mounts)?;
    let changed = changed_between(alloc, &first, &second)?;
    unchanged(alloc, second, changed)
}

/// What the walk saw, where these paths changed. Refused 13 where there are any, and 11 where
/// memory is refused.
fn unchanged(alloc: Global, walk: Walk, changed: Vec<Path>) -> Result<FolderRead, FolderError>
    ensures none { OnOk result (changed.items ≡ []) }
    ensures picture { IfOk result (λ read. IsPicture walk.at walk.looks.items walk.pending.items
        read.tree read.strangers.items) }
{
    if changed.is_empty() {
        picture(alloc, walk)
    } else {
        Err(FolderError::Changed(changed))
    }
}

/// The paths at which something changed while it was looked at.
fn changed_in(alloc: Global, looks: &[Seen]) -> Result<Vec<Path>, AllocError>
    ensures { IfOk result (λ changed. changed.items ≡ []
        → All (λ seen. seen.shown ≢ Shown.Changed) looks.now) }
{
    let mut changed = Vec::new(alloc);
    for seen in looks {
        if let Shown::Changed = &seen.shown {
            changed.push(seen.path.copy(alloc)?)?;
        }
    }
    Ok(changed)
}

/// The paths at which something changed during the two walks or between them. Where there is too
/// much in the end, nobody asks what was there before.
fn changed_between(alloc: Global, first: &Walk, second: &Walk) -> Result<Vec<Path>, AllocError>
    ensures { IfOk result (λ changed. changed.items ≡ []
        → All (λ seen. seen.shown ≢ Shown.Changed) second.now.looks.items) }
{
    let mut changed = changed_in(alloc, &second.looks)?;
    if !second.is_over() {
        note_all(alloc, &changed_in(alloc, &first.looks)?, &mut changed)?;
        note_changes(alloc, &first.looks, &second.looks, &mut changed)?;
    }
    Ok(changed)
}

/// Puts to the changed paths those at which the two walks saw another file or directory.
fn note_changes(
    alloc: Global,
    first: &[Seen],
    second: &[Seen],
    changed: &mut Vec<Path>,
) -> Result<(), AllocError>
    ensures kept { OnOk result (changed.new.items ≡ [] → changed.old.items ≡ []) }
    ensures again { OnOk result (changed.new.items ≡ []
        → All (λ seen. IsSeenAgain second.now seen) first.now) }
{
    note_gone(alloc, first, second, changed)?;
    for (index, other) in second.iter().enumerate() {
        let is_there = match first.get(index) {
            Some(one) => one.is_node_at(&other.path),
            None => false,
        };
        if other.shown.is_node()
            && !is_there
            && !first.iter().any(|one| one.is_node_at(&other.path))
        {
            note(alloc, &other.path, changed)?;
        }
    }
    Ok(())
}

/// Puts to the changed paths those at which the first walk saw a file or a directory that the
/// second did not see again.
fn note_gone(
    alloc: Global,
    first: &[Seen],
    second: &[Seen],
    changed: &mut Vec<Path>,
) -> Result<(), AllocError>
    ensures kept { OnOk result (changed.new.items ≡ [] → changed.old.items ≡ []) }
    ensures again { OnOk result (changed.new.items ≡ []
        → All (λ seen. IsSeenAgain second.now seen) first.now) }
{
    for (index, one) in first.iter().enumerate() {
        if one.shown.is_node() && !is_again(one, index, second) {
            note(alloc, &one.path, changed)?;
        }
    }
    Ok(())
}

/// The same file or directory was seen again, most likely at this place.
fn is_again(one: &Seen, index: usize, second: &[Seen]) -> bool
    ensures { result ≡ true → (other : Look) × Contains second.now other
        × IsSameNode other one.now }
{
    if let Some(other) = second.get(index) {
        if other.is_same_node(one) {
            return true;
        }
    }
    for other in second {
        if other.is_same_node(one) {
            return true;
        }
    }
    false
}

/// Puts the paths to the changed ones, unless they are among them.
fn note_all(alloc: Global, paths: &[Path], changed: &mut Vec<Path>) -> Result<(), AllocError>
    ensures { OnOk result (changed.new.items ≡ [] → changed.old.items ≡ []) }
{
    for path in paths {
        note(alloc, path, changed)?;
    }
    Ok(())
}

/// Puts the path to the changed ones, unless it is among them.
fn note(alloc: Global, path: &Path, changed: &mut Vec<Path>) -> Result<(), AllocError>
    ensures kept { OnOk result (changed.new.items ≡ [] → changed.old.items ≡ []) }
    ensures some { OnOk result (changed.new.items ≢ []) }
{
    if !changed.iter().any(|other| other == path) {
        changed.push(path.copy(alloc)?)?;
    }
    Ok(())
}
