//! Entries with another beginning of their paths.
ghost use Rattle.std.specs.Prelude.{◌≡◌, ◌≢◌, ◌++◌, ◌∷◌, [], true, false, IfOk, IfErr, OnOk};
ghost use Rattle.std.specs.List.{list_all};
ghost use Rattle.syn_model.specs.Path.{IsPath};
ghost use Rattle.syn_model.specs.Limits.{fits_path};
ghost use Rattle.syn_placed.specs.Pairs.{under};
ghost use Rattle.syn_tree.specs.Lists.{stripped};

use std::alloc::{AllocError, Global};
use syn_path::{Name, Path, PathError};
use syn_placed::{EntryKind, Placed};
use syn_tree::TreeError;

/// Equal names, put after those that are there. Refused where memory is refused.
fn push_names(alloc: Global, names: &mut Vec<Name>, source: &[Name]) -> Result<(), AllocError>
    ensures { OnOk result (names.new.items ≡ names.old.items ++ source.now) }
{
    for name in source {
        names.push(name.copy(alloc)?)?;
    }
    Ok(())
}

/// The path of these names with the others after them.
///
/// Refused 1 where it would pass the limits of a path, and 11 where memory is refused.
fn joined(alloc: Global, above: &[Name], below: &[Name]) -> Result<Path, PathError>
    ensures ok { IfOk result (λ path. (path ≡ above.now ++ below.now) × IsPath path) }
    ensures bad { IfErr result (λ e. e ≡ PathError.BadPath → ¬ IsPath (above.now ++ below.now)) }
{
    let mut names = Vec::new(alloc);
    push_names(alloc, &mut names, above)?;
    push_names(alloc, &mut names, below)?;
    Path::from_names(names)
}

/// Puts the entries after those that are there, each with the path before its own.
///
/// Refused 7 where a path would pass its limits, and 11 where memory is refused.
pub(crate) fn push_under<C: EntryKind>(
    alloc: Global,
    list: &mut Vec<Placed<C>>,
    at: &Path,
    source: Vec<Placed<C>>,
) -> Result<(), TreeError>
    ensures ok { OnOk result (list.new.items ≡ list.old.items ++ under at.now source.items) }
    ensures paths { OnOk result (list_all (λ pair. fits_path pair.0) (under at.now source.items)
        ≡ true) }
    ensures full { IfErr result (λ e. e ≢ TreeError.Memory → (e ≡ TreeError.Full)
        × (list_all (λ pair. fits_path pair.0) (under at.now source.items) ≡ false)) }
{
    for entry in source {
        let (path, content) = entry.into_parts();
        let path = joined(alloc, at.names(), path.names())?;
        list.push(Placed::new(path, content))?;
    }
    Ok(())
}

/// The entries below the path, each without the path before its own. Refused where memory is
/// refused.
pub(crate) fn below<C: EntryKind>(
    alloc: Global,
    list: &[Placed<C>],
    at: &Path,
) -> Result<Vec<Placed<C>>, AllocError>
    ensures { IfOk result (λ copies. copies.items ≡ stripped at.now list.now) }
{
    let mut copies = Vec::new(alloc);
    for entry in list {
        push_below(alloc, &mut copies, at, entry)?;
    }
    Ok(copies)
}

/// Puts an entry below the path after those that are there, without the path before its own.
fn push_below<C: EntryKind>(
    alloc: Global,
    copies: &mut Vec<Placed<C>>,
    at: &Path,
    entry: &Placed<C>,
) -> Result<(), AllocError>
    ensures { OnOk result (copies.new.items ≡ copies.old.items
        ++ stripped at.now (entry.now ∷ [])) }
{
    if !at.is_prefix(entry.path()) {
        return Ok(());
    }
    let (_, rest) = entry.path().names().split_at(at.names().len());
    if rest.is_empty() {
        return Ok(());
    }
    let mut names = Vec::new(alloc);
    push_names(alloc, &mut names, rest)?;
    let Ok(path) = Path::from_names(names) else {
        unreachable!()
    };
    let content = entry.content().copy(alloc)?;
    copies.push(Placed::new(path, content))?;
    Ok(())
}
