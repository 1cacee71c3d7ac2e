//! Whether what stands at a path is what was read there.
ghost use Rattle.std.specs.FinMap.{entries};
ghost use Rattle.std.specs.Prelude.{◌≡◌, ◌++◌, ◌%◌, true, suc, filter, length, IfOk, IfSome};
ghost use Rattle.syn_folder.specs.Places.{HasContent, IsAsRead, IsOneAsRead};
ghost use Rattle.syn_model.specs.Contents.{contents_with};
ghost use Rattle.syn_placed.specs.Pairs.{is_below};
ghost use Rattle.syn_tree.specs.Modes.{mode_of};

use crate::system::listing::{OWN, count_listed};
use crate::system::looks::{Look, Looked, Seen, Shown};
use std::alloc::{AllocError, Global};
use syn_path::{Name, Path, PathError};
use syn_tree::{Found, Mode, Tree};

/// What was read of a folder.
#[derive(Clone, Copy)]
pub(super) struct WasRead<'a> {
    pub(super) tree: &'a Tree,
    /// How each file and directory looked, in path order.
    pub(super) looks: &'a [Looked],
}

/// What was seen at and below the path is what was read there: each file with its bytes, its mode,
/// and how it looked, and each directory with as many names. What was moved has another time of
/// change since.
///
/// Refused where memory is refused.
pub(super) fn is_as_read(
    alloc: Global,
    was: WasRead<'_>,
    path: &Path,
    seen: &[Seen],
    is_moved: bool,
) -> Result<bool, AllocError>
    ensures { IfOk result (λ same. same ≡ true → IsAsRead was.entry.tree.now path.now seen.now) }
{
    if seen.len() != count_within(was.tree, path) {
        return Ok(false);
    }
    for one in seen {
        if !is_one_as_read(alloc, was, path, one, is_moved)? {
            return Ok(false);
        }
    }
    Ok(true)
}

/// So much was read at and below the path.
fn count_within(tree: &Tree, path: &Path) -> usize
    ensures { result ≡ suc (length (filter (is_below path.now) (entries tree.now))) }
{
    tree.below(path).len() + 1
}

/// What was seen at one path is what was read there.
fn is_one_as_read(
    alloc: Global,
    was: WasRead<'_>,
    path: &Path,
    one: &Seen,
    is_moved: bool,
) -> Result<bool, AllocError>
    ensures { IfOk result (λ same. same ≡ true
        → IsOneAsRead was.entry.tree.now path.now one.now) }
{
    let Some(whole) = joined(alloc, path, one.path.names())? else {
        return Ok(false);
    };
    if !has_content(was.tree, &whole, &one.shown) {
        return Ok(false);
    }
    let is_top = one.path.names().is_empty();
    Ok(looks_alike(was, &whole, &one.shown, is_top && is_moved))
}

/// What is shown is what the tree has at the path.
fn has_content(tree: &Tree, path: &Path, shown: &Shown) -> bool
    ensures { result ≡ true → HasContent tree.now path.now shown.now }
{
    match (shown, tree.get(path)) {
        (Shown::Directory(_, _), Some(Found::Dir)) => true,
        (Shown::File(look, bytes), Some(Found::File(mode, old))) => {
            has_contents(*look, bytes.as_slice(), mode, old)
        }
        _ => false,
    }
}

/// A file that looks so and has these bytes has the mode and the other bytes.
fn has_contents(look: Look, bytes: &[u8], mode: Mode, old: &[u8]) -> bool
    ensures { result ≡ true
        → contents_with (look.mode % 512) bytes.now ≡ contents_with (mode_of mode) old.now }
{
    look.file_mode().is_same(mode) && bytes == old
}

/// It looks as it did when it was read: a file in all that the system tells, but for the time of
/// change of one that was moved, and a directory by its number and by how many names it has. None
/// of these is `.syn`.
fn looks_alike(was: WasRead<'_>, path: &Path, shown: &Shown, is_moved: bool) -> bool {
    let Some(old) = look_at(was.looks, path) else {
        return false;
    };
    match shown {
        Shown::Directory(look, listing) => {
            look.is_of_same(&old)
                && count_listed(listing) == was.tree.child_count(path)
                && !listing
                    .split(|byte| *byte == 0)
                    .any(|name| name == OWN.as_bytes())
        }
        Shown::File(look, _) if is_moved => look.is_moved_from(&old),
        Shown::File(look, _) => *look == old,
        _ => false,
    }
}

/// How what is at the path looked when it was read.
pub(super) fn look_at(looks: &[Looked], path: &Path) -> Option<Look> {
    match looks.binary_search_by(|one| one.path.cmp(path)) {
        Ok(at) => looks.get(at).map(|one| one.look),
        Err(_) => None,
    }
}

/// The path of what has these names below the path; none where no replica can have it.
///
/// Refused where memory is refused.
fn joined(alloc: Global, path: &Path, names: &[Name]) -> Result<Option<Path>, AllocError>
    ensures { IfOk result (λ found. IfSome found (λ whole. whole ≡ path.now ++ names.now)) }
{
    let mut whole = path.copy(alloc)?;
    for name in names {
        match whole.child(alloc, name) {
            Ok(child) => whole = child,
            Err(PathError::BadPath) => return Ok(None),
            Err(PathError::Memory) => return Err(AllocError),
        }
    }
    Ok(Some(whole))
}
