//! What is recorded in an archive of marks.
ghost use Rattle.std.specs.Prelude.{◌≡◌, IfOk, OnOk, option_map};
ghost use Rattle.syn_archive.specs.Archive.{Stands, disk_of, marks_shown, pair_of};
ghost use Rattle.syn_disk.specs.Stops.{LeavesOnly};
ghost use Rattle.syn_mark.specs.Marks.{or_absent};
ghost use Rattle.syn_model.specs.Archive.{Archive as Kept};
ghost use Rattle.syn_model.specs.Mark.{mark};
ghost use Rattle.syn_model.specs.Plan.{with_directory};
ghost use Rattle.syn_model.specs.Tree.{Tree as Pairs, replace, subtree};
ghost use Rattle.syn_tree.specs.Nodes.{part_of};
ghost use Rattle.syn_reconcile.specs.Settlings.{KeepsMarks};
ghost use Rattle.syn_reconcile.specs.Stops.{HasEitherMarks};

use std::alloc::Global;
use syn_archive::{Archive, ArchiveError};
use syn_disk::Disk;
use syn_mark::{MarkTree, mark_of};
use syn_path::Path;
use syn_tree::{Node, Tree, TreeError};

/// More bytes than a record of marks takes: 1,024 nodes, each with the longest name and a digest.
const LONGEST_RECORD: usize = 131_072;

/// What stands at a path with all below it, or that nothing does, and the marks of that.
#[derive(Drop)]
pub(crate) struct MarkedPart {
    pub node: Option<Node>,
    pub marks: Option<MarkTree>,
}

/// What the tree has at and below the path, with its marks.
///
/// Refused 7 where it has more than 4,096 nodes, and 11 where memory is refused.
pub(crate) fn marked_part(alloc: Global, tree: &Tree, path: &Path) -> Result<MarkedPart, TreeError>
    ensures part { IfOk result (λ part. part_of part.node ≡ subtree tree.now path.now) }
    ensures marks { IfOk result
        (λ part. or_absent part.marks ≡ mark (subtree tree.now path.now)) }
{
    let node = tree.subtree(alloc, path)?;
    let marks = marks_of(alloc, node.as_ref())?;
    Ok(MarkedPart { node, marks })
}

/// The marks of what stands at a path with all below it, or that nothing does.
///
/// Refused 7 where it has more than 4,096 nodes, and 11 where memory is refused.
fn marks_of(alloc: Global, node: Option<&Node>) -> Result<Option<MarkTree>, TreeError>
    ensures { IfOk result (λ marks. or_absent marks
        ≡ mark (part_of (option_map (λ there. there.now) node.entry))) }
{
    match node {
        Some(node) => Ok(Some(mark_of(alloc, node)?)),
        None => Ok(None),
    }
}

/// Records the marks at and below the path, or that nothing is there. Room is made in the journal
/// as it is needed.
///
/// Refused as the archive refuses it.
pub(crate) fn record<A: Disk>(
    alloc: Global,
    archive: &mut Archive<A>,
    path: &Path,
    marks: Option<MarkTree>,
) -> Result<(), ArchiveError>
    ensures recorded { (kept : Kept) → Stands archive.old kept → OnOk result
        (KeepsMarks (replace (marks_shown archive.old) path.now (or_absent marks)) archive.new) }
    ensures pair { pair_of archive.new ≡ pair_of archive.old }

    // Whenever the machine stops, the disk has the marks without the record or with it.
    ensures any_moment { (kept : Kept) → Stands archive.old kept
        → LeavesOnly A.moment A.left_since (disk_of archive.old) (disk_of archive.new)
        (HasEitherMarks (pair_of archive.old) (marks_shown archive.old)
        (replace (marks_shown archive.old) path.now (or_absent marks))) }
{
    make_room(alloc, archive)?;
    archive.record(alloc, path, marks.as_ref())?;
    Ok(())
}

/// Records a directory at the path. Room is made in the journal as it is needed.
///
/// Refused as the archive refuses it.
pub(crate) fn record_dir<A: Disk>(
    alloc: Global,
    archive: &mut Archive<A>,
    path: &Path,
) -> Result<(), ArchiveError>
    ensures recorded { (kept : Kept) → Stands archive.old kept → OnOk result
        (KeepsMarks (with_directory (marks_shown archive.old) path.now) archive.new) }
    ensures pair { pair_of archive.new ≡ pair_of archive.old }
    ensures any_moment { (kept : Kept) → Stands archive.old kept
        → LeavesOnly A.moment A.left_since (disk_of archive.old) (disk_of archive.new)
        (HasEitherMarks (pair_of archive.old) (marks_shown archive.old)
        (with_directory (marks_shown archive.old) path.now)) }
{
    make_room(alloc, archive)?;
    archive.record_dir(alloc, path)?;
    Ok(())
}

/// Makes room in the journal, where there may be too little for a record.
fn make_room<A: Disk>(alloc: Global, archive: &mut Archive<A>) -> Result<(), ArchiveError>
    ensures made { (kept : Kept) → Stands archive.old kept → OnOk result (Stands archive.new kept) }
    ensures pair { pair_of archive.new ≡ pair_of archive.old }
    ensures any_moment { (kept : Kept) (any : Pairs) → Stands archive.old kept
        → LeavesOnly A.moment A.left_since (disk_of archive.old) (disk_of archive.new)
        (HasEitherMarks (pair_of archive.old) (marks_shown archive.old) any) }
{
    if archive.room() < LONGEST_RECORD {
        archive.checkpoint(alloc)
    } else {
        Ok(())
    }
}
