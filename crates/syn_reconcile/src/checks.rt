//! What is refused before a folder and a replica are compared.
ghost use Rattle.std.specs.Prelude.{◌≡◌, ◌<◌, OnOk, IfErr};
ghost use Rattle.std.specs.FinMap.{len};
ghost use Rattle.syn_archive.specs.Archive.{pair_of as marks_pair};
ghost use Rattle.syn_reconcile.specs.Checks.{IsEmptied};

use crate::error::ReconcileError;
use syn_archive::Archive;
use syn_disk::Disk;
use syn_folder::{EditedFolder, Stranger};
use syn_mark::MarkTree;
use syn_path::Side;
use syn_tree::Tree;

/// What is done where the folder or the replica has nothing, and the marks have something.
#[derive(Clone, Copy, Debug, PartialEq, Eq)]
pub enum WhenEmpty {
    /// It is refused: a folder that is not mounted must not empty the other side.
    Refuse,
    /// That everything is gone is carried as any other change.
    Carry,
}

/// Refuses 20 where the marks are of another pair.
pub(crate) fn check_pair<A: Disk>(pair: u64, archive: &Archive<A>) -> Result<(), ReconcileError>
    ensures pair { OnOk result (marks_pair archive.now ≡ pair) }
{
    if archive.pair() == pair {
        Ok(())
    } else {
        Err(ReconcileError::OtherPair)
    }
}

/// Refuses 5 where the folder or the replica has nothing and the marks have something.
pub(crate) fn check_empty(
    folder: &Tree,
    replica: &Tree,
    archive: &MarkTree,
) -> Result<(), ReconcileError>
    ensures full { OnOk result
        (1 < len archive.now → (1 < len folder.now) × (1 < len replica.now)) }
    ensures refused { IfErr result (IsEmptied folder.now replica.now archive.now) }
{
    if archive.node_count() <= 1 {
        Ok(())
    } else if folder.node_count() <= 1 {
        Err(ReconcileError::Empty(Side::Left))
    } else if replica.node_count() <= 1 {
        Err(ReconcileError::Empty(Side::Right))
    } else {
        Ok(())
    }
}

/// Refuses 7 where the folder itself can stand in no replica: it has more than one may.
pub(crate) fn check_whole<F: EditedFolder>(folder: &F) -> Result<(), ReconcileError> {
    for stranger in folder.strangers() {
        if is_whole(stranger) {
            return Err(ReconcileError::TooMany);
        }
    }
    Ok(())
}

/// It is the folder itself.
fn is_whole(stranger: &Stranger) -> bool {
    match &stranger.path {
        Some(path) => path.names().is_empty(),
        None => false,
    }
}
