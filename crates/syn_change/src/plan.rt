//! The edits between two trees.
ghost use Rattle.std.specs.Prelude.{◌≡◌, ◌≢◌, ◌⊎◌, [], IfErr, IfOk, OnOk, Some, false, map};
ghost use Rattle.std.specs.List.{AllByRecursion, IsDistinct};
ghost use Rattle.syn_model.specs.Path.{is_root};
ghost use Rattle.syn_model.specs.Tree.{is_directory, replace, subtree};
ghost use Rattle.syn_tree.specs.Edits.{edit_of};
ghost use Rattle.syn_tree.specs.Lists.{replace_refusal};
ghost use Rattle.syn_tree.specs.Nodes.{part_of};
ghost use Rattle.syn_tree.specs.Refusals.{refusal_of};
ghost use Rattle.syn_change.specs.Changes.{AreChanges, GoesOn, IsAddition, IsNeeded, IsOverlaid};
ghost use Rattle.syn_change.specs.Changes.{IsRefusedAmong, after_edits, are_alike};
ghost use Rattle.syn_change.specs.inner.Shorter.{IsShorterFirst};

use crate::additions::put_missing;
use crate::removals::remove_extra;
use crate::shorter::put_shorter;
use std::alloc::Global;
use syn_path::Path;
use syn_tree::{Edit, Node, Tree, TreeError};

/// The edits that make the old tree the wanted one: first what is removed, a directory with all
/// below it, then the files that become shorter, and then the rest of what is put and made, in path
/// order. Each of them is needed, and equal trees need none.
///
/// Refused as the tree refuses one of them after some of the others, and 11 where memory is
/// refused. In this order no tree on the way passes a limit that both trees keep, though no clause
/// says so.
pub fn changes(alloc: Global, old: &Tree, wanted: &Tree) -> Result<Vec<Edit>, TreeError>
    ensures changes { IfOk result (λ edits.
        AreChanges old.now wanted.now (map edit_of edits.items)) }
    ensures none { old.now ≡ wanted.now → IfOk result (λ edits. edits.items ≡ []) }
    ensures refused { IfErr result (λ e. e ≢ TreeError.Memory
        → IsRefusedAmong (IsNeeded old.now wanted.now) old.now (refusal_of e)) }
{
    let mut work = copy_whole(alloc, old)?;
    let mut edits = Vec::new(alloc);
    remove_extra(alloc, old, &mut work, &mut edits, wanted)?;
    put_all(alloc, &mut work, &mut edits, wanted)?;
    Ok(edits)
}

/// The edits that put the other tree in the place of what is at and below the path. Each of them is
/// needed, and where it is there already, none is.
///
/// Refused 2 where the path's parent is no directory, 7 where the result would pass a limit, and 11
/// where memory is refused. Refused as `changes` refuses them, too.
pub fn changes_at(
    alloc: Global,
    old: &Tree,
    path: &Path,
    part: &Tree,
) -> Result<Vec<Edit>, TreeError>
    ensures changes { IfOk result (λ edits.
        AreChanges old.now (replace old.now path.now part.now) (map edit_of edits.items)) }
    ensures none { subtree old.now path.now ≡ part.now → IfOk result (λ edits. edits.items ≡ []) }
    ensures refused { IfErr result (λ e. e ≢ TreeError.Memory
        → ((is_root path.now ≡ false)
        × (replace_refusal old.now path.now part.now ≡ Some (refusal_of e)))
        ⊎ IsRefusedAmong (IsNeeded old.now (replace old.now path.now part.now)) old.now
        (refusal_of e)) }
{
    if path.names().is_empty() {
        return changes(alloc, old, part);
    }
    let part = part.subtree(alloc, &Path::root(alloc))?;
    changes_with(alloc, old, path, part)
}

/// The edits that put what is given in the place of what is at and below the path, or take that
/// out. Each of them is needed, and where it is so already, none is.
///
/// Refused 6 at the root, 2 where the path's parent is no directory, 7 where the result would pass
/// a limit, and 11 where memory is refused. Refused as `changes` refuses them, too.
pub fn changes_with(
    alloc: Global,
    old: &Tree,
    path: &Path,
    new: Option<Node>,
) -> Result<Vec<Edit>, TreeError>
    ensures changes { IfOk result (λ edits.
        AreChanges old.now (replace old.now path.now (part_of new)) (map edit_of edits.items)) }
    ensures none { subtree old.now path.now ≡ part_of new
        → IfOk result (λ edits. edits.items ≡ []) }
    ensures refused { IfErr result (λ e. e ≢ TreeError.Memory
        → (replace_refusal old.now path.now (part_of new) ≡ Some (refusal_of e))
        ⊎ IsRefusedAmong (IsNeeded old.now (replace old.now path.now (part_of new))) old.now
        (refusal_of e)) }
{
    let mut wanted = copy_whole(alloc, old)?;
    wanted.replace(alloc, path, new)?;
    changes(alloc, old, &wanted)
}

/// The edits that put into the old tree what the other has, and remove nothing: first the files
/// that become shorter, and then the rest in path order. Each of them is needed.
///
/// Refused 3 where a file would take the place of a directory, 4 where a directory would take the
/// place of a file, 7 where the result would pass a limit, and 11 where memory is refused.
pub fn puts(alloc: Global, old: &Tree, added: &Tree) -> Result<Vec<Edit>, TreeError>
    ensures made { IfOk result (λ edits.
        IsOverlaid old.now added.now (after_edits old.now (map edit_of edits.items))) }
    ensures needed { IfOk result (λ edits.
        AllByRecursion (IsAddition old.now added.now) (map edit_of edits.items)) }
    ensures once { IfOk result (λ edits. IsDistinct are_alike (map edit_of edits.items)) }
    ensures refused { IfErr result (λ e. e ≢ TreeError.Memory
        → IsRefusedAmong (IsAddition old.now added.now) old.now (refusal_of e)) }
{
    let mut work = copy_whole(alloc, old)?;
    let mut edits = Vec::new(alloc);
    put_all(alloc, &mut work, &mut edits, added)?;
    Ok(edits)
}

/// Plans and makes what `work` lacks of the added tree: first the files that become shorter, and
/// then the rest in path order. Nothing is removed.
///
/// So no tree on the way takes more bytes than the larger of the first and the last. That is not
/// proved: what is proved is the order (`first`). Refused as `put_missing` is.
fn put_all(
    alloc: Global,
    work: &mut Tree,
    edits: &mut Vec<Edit>,
    added: &Tree,
) -> Result<(), TreeError>
    ensures overlaid { OnOk result (IsOverlaid work.old added.now work.new) }
    ensures edits { OnOk result (GoesOn (IsAddition work.old added.now) work.old edits.old.items
        work.new edits.new.items) }
    ensures first { OnOk result (IsShorterFirst work.old added.now edits.old.items
        edits.new.items) }
    ensures refused { IfErr result (λ e. e ≢ TreeError.Memory
        → IsRefusedAmong (IsAddition work.old added.now) work.old (refusal_of e)) }
{
    put_shorter(alloc, work, edits, added)?;
    put_missing(alloc, work, edits, added)
}

/// What is at and below the path, as a tree of its own.
///
/// Refused 5 where no directory is there, and 11 where memory is refused.
pub fn copy_part(alloc: Global, tree: &Tree, path: &Path) -> Result<Tree, TreeError>
    ensures part { IfOk result (λ part. part ≡ subtree tree.now path.now) }
    ensures refused { IfErr result (λ e. (e ≡ TreeError.Memory)
        ⊎ ((e ≡ TreeError.Absent) × (is_directory tree.now path.now ≡ false))) }
{
    // of a tree within its limits each part is, too
    let _ = tree.entries();
    match tree.subtree(alloc, path)? {
        Some(Node::Dir(entries)) => {
            let _ = entries.iter();
            Tree::from_entries(alloc, entries)
        }
        Some(Node::File(..)) => Err(TreeError::Absent),
        None => Err(TreeError::Absent),
    }
}

/// An equal tree of its own. Refused 11 where memory is refused.
fn copy_whole(alloc: Global, tree: &Tree) -> Result<Tree, TreeError>
    ensures ok { IfOk result (λ copy. copy ≡ tree.now) }
    ensures memory { IfErr result (λ e. e ≡ TreeError.Memory) }
{
    let _ = tree.entries();
    let root = Path::root(alloc);
    copy_part(alloc, tree, &root)
}
