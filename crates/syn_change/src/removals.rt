//! What is to be removed, so that one tree has nothing that cannot stay where another is wanted.
ghost use Rattle.std.specs.Prelude.{◌≡◌, IfErr, OnOk, Some};
ghost use Rattle.std.specs.FinMap.{get};
ghost use Rattle.syn_tree.specs.Contents.{found_content};
ghost use Rattle.syn_change.specs.Changes.{GoesOn, IsLess, IsRemoval, IsTrimmed, IsWithout};
ghost use Rattle.syn_change.specs.Changes.{Removes, can_stay};

use crate::additions::make;
use std::alloc::Global;
use syn_path::Path;
use syn_tree::{Edit, Found, Tree, TreeError};

/// Plans and makes the removals of what the wanted tree has not, or has as another kind. Of what is
/// removed with a directory nothing is removed by itself.
///
/// Refused 11 where memory is refused.
pub(crate) fn remove_extra(
    alloc: Global,
    old: &Tree,
    work: &mut Tree,
    edits: &mut Vec<Edit>,
    wanted: &Tree,
) -> Result<(), TreeError>
    requires { work.old ≡ old.now }
    ensures trimmed { OnOk result (IsTrimmed wanted.now work.new) }
    ensures less { OnOk result (IsLess work.old wanted.now work.new) }
    ensures edits { OnOk result (GoesOn (IsRemoval work.old wanted.now) work.old edits.old.items
        work.new edits.new.items) }
    ensures memory { IfErr result (λ e. e ≡ TreeError.Memory) }
{
    let _ = wanted.entries();
    for pair in old.entries() {
        let path = pair.path(alloc)?;
        remove_entry(alloc, work, edits, wanted, &path)?;
    }
    Ok(())
}

/// Plans and makes the removal of what is at the path, unless it can stay there.
///
/// Refused 11 where memory is refused.
fn remove_entry(
    alloc: Global,
    work: &mut Tree,
    edits: &mut Vec<Edit>,
    wanted: &Tree,
    path: &Path,
) -> Result<(), TreeError>
    ensures without { OnOk result (IsWithout work.old wanted.now path.now work.new) }
    ensures edits { OnOk result (GoesOn (Removes work.old wanted.now path.now) work.old
        edits.old.items work.new edits.new.items) }
    ensures memory { IfErr result (λ e. e ≡ TreeError.Memory) }
{
    let _ = work.entries();
    let _ = wanted.entries();
    let Some(there) = work.get(path) else {
        return Ok(());
    };
    if is_wanted(&there, wanted, path) {
        return Ok(());
    }
    make(alloc, work, edits, Edit::Remove(path.copy(alloc)?))
}

/// The wanted tree has the same kind at the path.
fn is_wanted(there: &Found<'_>, wanted: &Tree, path: &Path) -> bool
    ensures { result ≡ can_stay (Some (found_content there.now)) (get wanted.now path.now) }
{
    match wanted.get(path) {
        Some(found) => found.is_directory() == there.is_directory(),
        None => false,
    }
}
