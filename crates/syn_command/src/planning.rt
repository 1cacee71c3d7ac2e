//! The edits of an import, and which limits of a replica they would pass.
ghost use Rattle.std.specs.Prelude.{◌≡◌, [], IfErr, IfOk, map};
ghost use Rattle.syn_change.specs.Changes.{AreChanges};
ghost use Rattle.syn_command.specs.Imports.{IsPlanRefusal};
ghost use Rattle.syn_model.specs.Tree.{replace, subtree};
ghost use Rattle.syn_tree.specs.Edits.{edit_of};

use crate::error::CommandError;
use std::alloc::Global;
use std::io::Write;
use syn_change::changes_at;
use syn_folder::FolderError;
use syn_path::Path;
use syn_tree::measures::{MOST_BELOW, name_spelled};
use syn_tree::{Edit, LONGEST_SPELLING, MOST_CHILDREN, Tree, TreeError};

/// The edits that put the part in the place of what is at and below the path of the tree. Each of
/// them is needed, and where the part is there already, none is.
///
/// Refused 2 where the path's parent is no directory, and 11 where memory is refused. Refused 7
/// where the tree would pass a limit, which is told to `errors`.
pub fn plan_import<E: Write>(
    alloc: Global,
    tree: &Tree,
    path: &Path,
    part: &Tree,
    errors: &mut E,
) -> Result<Vec<Edit>, CommandError>
    ensures changes { IfOk result (λ edits.
        AreChanges tree.now (replace tree.now path.now part.now) (map edit_of edits.items)) }
    ensures none { subtree tree.now path.now ≡ part.now
        → IfOk result (λ edits. edits.items ≡ []) }
    ensures refused { IfErr result (IsPlanRefusal tree.now path.now part.now) }
{
    match changes_at(alloc, tree, path, part) {
        Ok(edits) => Ok(edits),
        Err(error) => {
            if error == TreeError::Full {
                tell_limits(alloc, tree, path, part, errors);
            }
            Err(CommandError::Folder(FolderError::Tree(error)))
        }
    }
}

/// Tells which limits of a replica the tree would pass with the part at the path.
fn tell_limits<E: Write>(alloc: Global, tree: &Tree, path: &Path, part: &Tree, errors: &mut E) {
    let below = nodes_with(tree, path, part).saturating_sub(1);
    let bytes = bytes_with(tree, path, part);
    if below > MOST_BELOW {
        let _ = writeln!(
            errors,
            "syn: with it at {path} the replica would have {below} files and directories, \
             and it may have {MOST_BELOW}"
        );
    }
    if bytes > LONGEST_SPELLING {
        let _ = writeln!(
            errors,
            "syn: with it at {path} the replica would take {bytes} bytes in all, \
             and it may take {LONGEST_SPELLING}"
        );
    }
    if is_new_in_full_directory(alloc, tree, path) {
        let _ = writeln!(
            errors,
            "syn: with {path} its directory would have more than {MOST_CHILDREN} names"
        );
    }
}

/// How many nodes the tree would have with the part at the path, the root among them.
fn nodes_with(tree: &Tree, path: &Path, part: &Tree) -> usize {
    let there = match tree.get(path) {
        Some(_) => tree.below(path).len().saturating_add(1),
        None => 0,
    };
    tree.node_count()
        .saturating_sub(there)
        .saturating_add(part.node_count())
}

/// How many bytes would spell the tree with the part at the path.
fn bytes_with(tree: &Tree, path: &Path, part: &Tree) -> usize {
    let name = name_spelled(&path.key());
    let there = match tree.get(path) {
        Some(_) => tree.part_length(path).saturating_add(name),
        None => 0,
    };
    tree.spelling_length()
        .saturating_sub(there)
        .saturating_add(part.spelling_length())
        .saturating_add(name)
}

/// Nothing is at the path, and its directory has the most names. Where memory is refused, it is not
/// known.
fn is_new_in_full_directory(alloc: Global, tree: &Tree, path: &Path) -> bool {
    let Ok(Some(above)) = path.parent(alloc) else {
        return false;
    };
    tree.get(path).is_none() && tree.child_count(&above) >= MOST_CHILDREN
}
