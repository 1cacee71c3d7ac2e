//! What stands at and below a path, as it is taken out of a tree and put into one.
ghost use Rattle.std.specs.Prelude.{◌≡◌, ◌≢◌, ◌++◌, ◌∷◌, [], true, false, IfOk, IfErr, OnOk};
ghost use Rattle.std.specs.Prelude.{option_map, option_and_then, IfSome};
ghost use Rattle.std.specs.List.{list_all};
ghost use Rattle.syn_model.specs.Path.{IsName, strip_prefix};
ghost use Rattle.syn_model.specs.Limits.{fits_path, only_name};
ghost use Rattle.syn_placed.specs.Pairs.{under};
ghost use Rattle.syn_tree.specs.Lists.{stripped, child_contents, contents_at, kinds_of};

use crate::content::Found;
use crate::entry::Entry;
use crate::error::TreeError;
use crate::lawful::is_path;
use std::alloc::{AllocError, Global};
use syn_path::{Key, Name};
use syn_placed::EntryKind;

/// Puts the entries after those that are there, each with the path before its own.
///
/// Refused 7 where a path would pass its limits, and 11 where memory is refused.
pub(crate) fn push_under(
    list: &mut Vec<Entry>,
    at: &Key,
    source: Vec<Entry>,
) -> Result<(), TreeError>
    ensures ok { OnOk result (list.new.items ≡ list.old.items ++ under at.now source.items) }
    ensures paths { OnOk result (list_all (λ pair. fits_path pair.0) (under at.now source.items)
        ≡ true) }
    ensures full { IfErr result (λ e. e ≢ TreeError.Memory → (e ≡ TreeError.Full)
        × (list_all (λ pair. fits_path pair.0) (under at.now source.items) ≡ false)) }
{
    is_path(at);
    for entry in source {
        is_path(entry.key());
        let Some(key) = entry.key().under(at) else {
            return Err(TreeError::Full);
        };
        list.push(entry.moved(&key))?;
    }
    Ok(())
}

/// The entries below the path, each without the path before its own. Refused where memory is
/// refused.
pub fn below(alloc: Global, list: &[Entry], at: &Key) -> Result<Vec<Entry>, AllocError>
    ensures { IfOk result (λ copies. copies.items ≡ stripped at.now list.now) }
{
    let mut copies = Vec::new(alloc);
    for entry in list {
        push_below(alloc, &mut copies, at, entry)?;
    }
    Ok(copies)
}

/// Puts an entry below the path after those that are there, without the path before its own.
fn push_below(
    alloc: Global,
    copies: &mut Vec<Entry>,
    at: &Key,
    entry: &Entry,
) -> Result<(), AllocError>
    ensures { OnOk result (copies.new.items ≡ copies.old.items
        ++ stripped at.now (entry.now ∷ [])) }
{
    let Some(key) = entry.key().below(at) else {
        return Ok(());
    };
    if key.is_root() {
        return Ok(());
    }
    let content = entry.content().copy(alloc)?;
    copies.push(Entry::new(alloc, &key, content)?)?;
    Ok(())
}

/// The names in the directory at the path, each with what stands there. Refused 11 where memory is
/// refused.
pub fn children<'a>(
    alloc: Global,
    list: &'a [Entry],
    above: &Key,
) -> Result<Vec<(Name, Found<'a>)>, TreeError>
    ensures ok { IfOk result
        (λ found. contents_at found.items ≡ child_contents above.now list.now) }
    ensures memory { IfErr result (λ e. e ≡ TreeError.Memory) }
{
    let mut found = Vec::new(alloc);
    for entry in list {
        if let Some(name) = child_name(above, entry.key()) {
            found.push((Name::from_bytes(alloc, name)?, entry.content().as_found()))?;
        }
    }
    Ok(found)
}

/// The bytes of the last name, where the path stands in the directory at the other.
fn child_name<'a>(above: &Key, key: &'a Key) -> Option<&'a [u8]>
    ensures name { option_map (λ name. name.now) result
        ≡ option_and_then only_name (strip_prefix above.now key.now) }
    ensures lawful { IfSome result (λ name. IsName name.now) }
{
    if key.is_child(above) {
        key.last_name()
    } else {
        None
    }
}

/// The names, each with whether it is a directory. Refused where memory is refused.
pub fn kinds(
    alloc: Global,
    children: Vec<(Name, Found<'_>)>,
) -> Result<Vec<(Name, bool)>, AllocError>
    ensures { IfOk result (λ names. names.items ≡ kinds_of (contents_at children.entry.items)) }
{
    let mut names = Vec::with_capacity(alloc, children.len())?;
    for (name, found) in children {
        names.push((name, found.is_directory()))?;
    }
    Ok(names)
}
