//! The edits that put a part of the folder into the replica.
ghost use Rattle.std.specs.Prelude.{◌≡◌, IfOk, map};
ghost use Rattle.syn_change.specs.Changes.{AreChanges};
ghost use Rattle.syn_mark.specs.Marks.{or_absent};
ghost use Rattle.syn_model.specs.Mark.{mark};
ghost use Rattle.syn_model.specs.Tree.{replace, subtree};
ghost use Rattle.syn_tree.specs.Edits.{edit_of};

use crate::marks::{MarkedPart, marked_part};
use std::alloc::Global;
use syn_change::changes_with;
use syn_mark::MarkTree;
use syn_path::Path;
use syn_tree::{Edit, Tree, TreeError};

/// What is to be done at a path of a replica.
#[derive(Drop)]
pub(crate) struct PlannedEdits {
    pub edits: Vec<Edit>,
    /// The marks of what is there then.
    pub marks: Option<MarkTree>,
}

/// The edits that put what the folder has at and below the path into the replica's tree.
///
/// Refused 2 where the parent of the path is no directory there, 7 where the tree would pass a
/// limit, and 11 where memory is refused.
pub(crate) fn plan_part(
    alloc: Global,
    folder: &Tree,
    replica: &Tree,
    path: &Path,
) -> Result<PlannedEdits, TreeError>
    ensures changes { IfOk result (λ planned. AreChanges replica.now
        (replace replica.now path.now (subtree folder.now path.now))
        (map edit_of planned.edits.items)) }
    ensures marks { IfOk result
        (λ planned. or_absent planned.marks ≡ mark (subtree folder.now path.now)) }
{
    let MarkedPart { node, marks } = marked_part(alloc, folder, path)?;
    let edits = changes_with(alloc, replica, path, node)?;
    Ok(PlannedEdits { edits, marks })
}
