//! Makes a part of a replica what another tree is.
ghost use Rattle.std.specs.Prelude.{◌≡◌, ◌⊎◌, ◌++◌, [], false, map};
ghost use Rattle.std.specs.Prelude.{IfErr, IfOk, OnOk};
ghost use Rattle.syn_folder.specs.Strangers.{directory_at, skipped};
ghost use Rattle.syn_model.specs.History.{History};
ghost use Rattle.syn_model.specs.Tree.{subtree};
ghost use Rattle.syn_replica.specs.Edits.{event_by};
ghost use Rattle.syn_disk.specs.Stops.{LeavesOnly};
ghost use Rattle.syn_replica.specs.Replica.{Stands, disk_of, pair_of, tree_shown};
ghost use Rattle.syn_replica.specs.WithRoom.{IsUnmade, NoneOrAll};
ghost use Rattle.syn_command.specs.Errors.{IsOfEdits, IsOfFolder, refusal_of};
ghost use Rattle.syn_command.specs.Imports.{IsImported, IsPlanRefusal, LeavesImport, disk_left};

use crate::error::CommandError;
use crate::planning::plan_import;
use crate::teller::{Teller, lines_of};
use std::alloc::Global;
use std::io::Write;
use syn_cli::OnStranger;
use syn_disk::Disk;
use syn_folder::{Folder, FolderError, all_known, skipping};
use syn_path::Path;
use syn_replica::Replica;
use syn_tree::{Edit, Tree};

/// What a folder is imported as.
#[derive(Clone, Copy, Debug)]
pub struct Import<'a> {
    /// Whose edits the folder's changes are.
    pub user: u32,
    /// Where in the replica the folder goes.
    pub path: &'a Path,
    /// What becomes of what can stand in no replica.
    pub on_stranger: OnStranger,
}

/// Makes what is at and below the path what stands in the folder, by edits of the user, all of them
/// or none. Where it is that already, no edit is made. Where something that can stand in no replica
/// is skipped, the replica keeps what it has there. What is skipped is told, and then each edit.
///
/// Refused 7 where something can stand in no replica and is not skipped, and as `import_part` is.
/// The disk comes back.
pub fn import_folder<D: Disk, F: Folder, E: Write>(
    alloc: Global,
    replica: Replica<D>,
    import: Import<'_>,
    folder: &F,
    teller: &mut Teller<'_, E>,
) -> Result<Replica<D>, (CommandError, D)>
    ensures known { import.entry.on_stranger ≡ OnStranger.Refuse
        → OnOk result (F.strangers folder.now ≡ []) }
    ensures part { (history : History) → Stands replica history → F.strangers folder.now ≡ []
        → IfOk result (λ new. subtree (tree_shown new) import.entry.path.now ≡ F.tree folder.now) }
    ensures imported { (history : History) → Stands replica history
        → IfOk result (IsImported history import.entry.user import.entry.path.now
        (skipped (directory_at (tree_shown replica) import.entry.path.now) (F.tree folder.now)
        (F.strangers folder.now))) }

    // Whenever the machine stops, the disk has the history, or that with all of the edits.
    ensures any_moment { (history : History) → Stands replica history
        → LeavesOnly D.moment D.left_since (disk_of replica) (disk_left result)
        (LeavesImport (pair_of replica) history import.entry.user import.entry.path.now
        (skipped (directory_at (tree_shown replica) import.entry.path.now) (F.tree folder.now)
        (F.strangers folder.now))) }

    // Where it is what the folder is already, no edit is made.
    ensures none { (history : History) → Stands replica history → F.strangers folder.now ≡ []
        → subtree (tree_shown replica) import.entry.path.now ≡ F.tree folder.now
        → IfOk result (λ new. Stands new history) }

    // Where it is refused otherwise than 9, no edit is made: a stop leaves the history then, too.
    ensures unmade { (history : History) → Stands replica history → IfErr result
        (λ refused. IsUnmade replica history (refusal_of refused.0) refused.1) }
    ensures refused { IfErr result (λ refused. IsOfFolder refused.0
        → refused.1 ≡ disk_of replica) }
    ensures refusals { IfErr result (λ refused. IsOfFolder refused.0 ⊎ IsOfEdits refused.0) }
{
    match part_of(
        alloc,
        folder,
        import.on_stranger,
        replica.tree(),
        import.path,
        teller.errors,
    ) {
        Ok(part) => import_part(alloc, replica, import.user, import.path, &part, teller),
        Err(error) => Err((CommandError::from(error), replica.into_disk())),
    }
}

/// What of the folder goes to the path of the tree: all of it, or what can stand in a replica,
/// with what the tree has in the place of the rest, which is told to `errors`.
///
/// Refused 7 where something can stand in no replica and is not skipped, or is the folder itself,
/// and 11 where memory is refused.
pub fn part_of<F: Folder, E: Write>(
    alloc: Global,
    folder: &F,
    on_stranger: OnStranger,
    tree: &Tree,
    path: &Path,
    errors: &mut E,
) -> Result<Tree, FolderError>
    ensures known { on_stranger ≡ OnStranger.Refuse → OnOk result (F.strangers folder.now ≡ []) }
    ensures part { IfOk result (λ part. part ≡ skipped (directory_at tree.now path.now)
        (F.tree folder.now) (F.strangers folder.now)) }
{
    match on_stranger {
        OnStranger::Refuse => all_known(alloc, folder)?,
        OnStranger::Skip => {}
    }
    let part = skipping(alloc, folder, tree, path)?;
    for stranger in folder.strangers() {
        let _ = writeln!(errors, "syn: skipped {stranger}");
    }
    Ok(part)
}

/// Puts the tree in the place of what is at and below the path, by edits of the user, all of them
/// or none. Where it is there already, no edit is made. Each edit is told, once they are made.
///
/// Refused 2 where the path's parent is no directory, and 7 where the replica would pass a limit:
/// that limit is told, too. Else it is refused as the replica refuses edits, or the
/// checkpoint that makes room for them where there may be too little. The disk comes back.
pub fn import_part<D: Disk, E: Write>(
    alloc: Global,
    replica: Replica<D>,
    user: u32,
    path: &Path,
    part: &Tree,
    teller: &mut Teller<'_, E>,
) -> Result<Replica<D>, (CommandError, D)>
    ensures part { (history : History) → Stands replica history
        → IfOk result (λ new. subtree (tree_shown new) path.now ≡ part.now) }
    ensures imported { (history : History) → Stands replica history
        → IfOk result (IsImported history user path.now part.now) }

    // Whenever the machine stops, the disk has the history, or that with all of the edits.
    ensures any_moment { (history : History) → Stands replica history
        → LeavesOnly D.moment D.left_since (disk_of replica) (disk_left result)
        (LeavesImport (pair_of replica) history user path.now part.now) }

    // Where the tree is there already, no edit is made.
    ensures none { (history : History) → Stands replica history
        → subtree (tree_shown replica) path.now ≡ part.now
        → IfOk result (λ new. Stands new history) }

    // Where it is refused otherwise than 9, no edit is made: a stop leaves the history then, too.
    ensures unmade { (history : History) → Stands replica history → IfErr result
        (λ refused. IsUnmade replica history (refusal_of refused.0) refused.1) }

    // What is refused by the plan is refused before anything is written, and for a cause.
    ensures refused { IfErr result (λ refused. IsOfFolder refused.0
        → refused.1 ≡ disk_of replica) }
    ensures cause { IfErr result (λ refused. IsOfFolder refused.0
        → IsPlanRefusal (tree_shown replica) path.now part.now refused.0) }
    ensures refusals { IfErr result (λ refused. IsOfFolder refused.0 ⊎ IsOfEdits refused.0) }
{
    match plan_import(alloc, replica.tree(), path, part, teller.errors) {
        Ok(edits) => make_edits(alloc, replica, user, edits, teller),
        Err(error) => Err((CommandError::from(error), replica.into_disk())),
    }
}

/// Makes the edits, as edits of the user, and tells them then.
fn make_edits<D: Disk, E: Write>(
    alloc: Global,
    replica: Replica<D>,
    user: u32,
    edits: Vec<Edit>,
    teller: &mut Teller<'_, E>,
) -> Result<Replica<D>, (CommandError, D)>
    ensures made { (history : History) → Stands replica history
        → IfOk result (λ new. Stands new (history ++ map (event_by user) edits.items)) }
    ensures any_moment { (history : History) → Stands replica history
        → LeavesOnly D.moment D.left_since (disk_of replica) (disk_left result)
        (NoneOrAll (pair_of replica) history (map (event_by user) edits.items)) }
    ensures unmade { (history : History) → Stands replica history → IfErr result
        (λ refused. IsUnmade replica history (refusal_of refused.0) refused.1) }
    ensures refused { IfErr result (λ refused. ¬ IsOfFolder refused.0) }
    ensures refusals { IfErr result (λ refused. IsOfEdits refused.0) }
{
    let lines = match lines_of(alloc, &edits, teller.verbosity) {
        Ok(lines) => lines,
        Err(error) => return Err((CommandError::from(error), replica.into_disk())),
    };
    match replica.edit_all_with_room(alloc, user, edits) {
        Ok(edited) => {
            let _ = teller.errors.write_all(lines.as_bytes());
            Ok(edited)
        }
        Err((error, disk)) => Err((CommandError::from(error), disk)),
    }
}
