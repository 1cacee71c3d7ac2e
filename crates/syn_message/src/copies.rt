//! Equal values of their own.
ghost use Rattle.std.specs.Prelude.{◌≡◌, IfOk};

use std::alloc::{AllocError, Global};
use syn_mark::Mark;
use syn_path::Name;

/// Equal entries. Refused where memory is refused.
pub(crate) fn copy_entries(
    alloc: Global,
    entries: &[(Name, Mark)],
) -> Result<Vec<(Name, Mark)>, AllocError>
    ensures { IfOk result (λ copy. copy.items ≡ entries.now) }
{
    let mut copy = Vec::with_capacity(alloc, entries.len())?;
    for (name, mark) in entries {
        let name = name.copy(alloc)?;
        copy.push((name, *mark))?;
    }
    Ok(copy)
}
