//! What is to be put and made, so that one tree has what another has.
ghost use Rattle.std.specs.Prelude.{◌≡◌, ◌≢◌, ◌↔◌, IfErr, IsTrue, None, OnOk, Some};
ghost use Rattle.std.specs.FinMap.{get};
ghost use Rattle.syn_model.specs.Contents.{contents_with};
ghost use Rattle.syn_model.specs.Event.{after_edit, put_mode};
ghost use Rattle.syn_model.specs.Path.{Bytes};
ghost use Rattle.syn_model.specs.Standing.{edit_refusal};
ghost use Rattle.syn_model.specs.Tree.{Directory, File};
ghost use Rattle.syn_tree.specs.Edits.{edit_of};
ghost use Rattle.syn_tree.specs.Modes.{mode_of};
ghost use Rattle.syn_tree.specs.Refusals.{refusal_of};
ghost use Rattle.syn_change.specs.Changes.{ChangesMode, GoesOn, HasBytes, IsAddition};
ghost use Rattle.syn_change.specs.Changes.{HasMode, IsNeededFor, IsOverlaid, IsPlaced};
ghost use Rattle.syn_change.specs.Changes.{IsRefusedAmong};
ghost use Rattle.syn_change.specs.Changes.{MakesDir, PutsBytes, StaysElsewhere};

use std::alloc::Global;
use syn_path::Path;
use syn_tree::{Edit, Found, Mode, Pair, Tree, TreeError};

/// Plans and makes what `work` lacks of the wanted tree. Nothing is removed.
///
/// Refused 3 where a file would take the place of a directory, 4 where a directory would take the
/// place of a file, 7 where the result would pass a limit, and 11 where memory is refused.
pub(crate) fn put_missing(
    alloc: Global,
    work: &mut Tree,
    edits: &mut Vec<Edit>,
    wanted: &Tree,
) -> Result<(), TreeError>
    ensures overlaid { OnOk result (IsOverlaid work.old wanted.now work.new) }
    ensures edits { OnOk result (GoesOn (IsAddition work.old wanted.now) work.old edits.old.items
        work.new edits.new.items) }
    ensures refused { IfErr result (λ e. e ≢ TreeError.Memory
        → IsRefusedAmong (IsAddition work.old wanted.now) work.old (refusal_of e)) }
{
    let _ = work.entries();
    for pair in wanted.entries() {
        put_pair(alloc, work, edits, &pair)?;
    }
    Ok(())
}

/// Plans and makes what the pair needs to stand in `work`. It is refused as `put_missing` is.
fn put_pair(
    alloc: Global,
    work: &mut Tree,
    edits: &mut Vec<Edit>,
    pair: &Pair<'_>,
) -> Result<(), TreeError>
    ensures placed { OnOk result (IsPlaced work.old pair.now work.new) }
    ensures edits { OnOk result (GoesOn (IsNeededFor work.old pair.now) work.old edits.old.items
        work.new edits.new.items) }
    ensures refused { IfErr result (λ e. e ≢ TreeError.Memory
        → IsRefusedAmong (IsNeededFor work.old pair.now) work.old (refusal_of e)) }
{
    let path = pair.path(alloc)?;
    match pair.found() {
        Found::Dir => make_dir(alloc, work, edits, path),
        Found::File(mode, bytes) => {
            put_bytes(alloc, work, edits, &path, bytes)?;
            set_mode(alloc, work, edits, path, mode)
        }
    }
}

/// Plans and makes a directory, unless one is there. Refused as the edit is.
fn make_dir(
    alloc: Global,
    work: &mut Tree,
    edits: &mut Vec<Edit>,
    path: Path,
) -> Result<(), TreeError>
    ensures placed { OnOk result (IsPlaced work.old (path, Directory) work.new) }
    ensures edits { OnOk result (GoesOn (MakesDir work.old path) work.old edits.old.items
        work.new edits.new.items) }
    ensures refused { IfErr result (λ e. e ≢ TreeError.Memory
        → IsRefusedAmong (MakesDir work.old path) work.old (refusal_of e)) }
{
    let _ = work.entries();
    if is_directory(work, &path) {
        return Ok(());
    }
    make(alloc, work, edits, Edit::MakeDir(path))
}

/// A directory is at the path.
fn is_directory(tree: &Tree, path: &Path) -> bool
    ensures { IsTrue result ↔ (get tree.now path.now ≡ Some Directory) }
{
    match tree.get(path) {
        Some(Found::Dir) => true,
        Some(Found::File(..)) => false,
        None => false,
    }
}

/// Plans and makes the put of a file, unless one with these bytes is there. Refused as the edit is.
pub(crate) fn put_bytes(
    alloc: Global,
    work: &mut Tree,
    edits: &mut Vec<Edit>,
    path: &Path,
    bytes: &[u8],
) -> Result<(), TreeError>
    ensures there { OnOk result (HasBytes work.new path.now bytes.now) }
    ensures mode { OnOk result
        (put_mode (get work.new path.now) ≡ put_mode (get work.old path.now)) }
    ensures elsewhere { OnOk result (StaysElsewhere work.old path.now work.new) }
    ensures edits { OnOk result (GoesOn (PutsBytes work.old path.now bytes.now) work.old
        edits.old.items work.new edits.new.items) }
    ensures refused { IfErr result (λ e. e ≢ TreeError.Memory
        → IsRefusedAmong (PutsBytes work.old path.now bytes.now) work.old (refusal_of e)) }
{
    let _ = work.entries();
    if has_bytes(work, path, bytes) {
        return Ok(());
    }
    let put = Edit::Put(path.copy(alloc)?, Vec::from_slice(alloc, bytes)?);
    make(alloc, work, edits, put)
}

/// A file with these bytes is at the path.
fn has_bytes(tree: &Tree, path: &Path, bytes: &[u8]) -> bool
    ensures { IsTrue result ↔ HasBytes tree.now path.now bytes.now }
{
    match tree.get(path) {
        Some(Found::File(_, there)) => there == bytes,
        Some(Found::Dir) => false,
        None => false,
    }
}

/// Plans and makes the change of a file's mode, unless it has that mode. Refused as the edit is.
fn set_mode(
    alloc: Global,
    work: &mut Tree,
    edits: &mut Vec<Edit>,
    path: Path,
    mode: Mode,
) -> Result<(), TreeError>
    ensures there { (bytes : Bytes) → HasBytes work.old path bytes → OnOk result
        (get work.new path ≡ Some (File (contents_with (mode_of mode) bytes))) }
    ensures elsewhere { OnOk result (StaysElsewhere work.old path work.new) }
    ensures edits { OnOk result (GoesOn (ChangesMode work.old path (mode_of mode)) work.old
        edits.old.items work.new edits.new.items) }
    ensures refused { IfErr result (λ e. e ≢ TreeError.Memory
        → IsRefusedAmong (ChangesMode work.old path (mode_of mode)) work.old (refusal_of e)) }
{
    let _ = work.entries();
    if has_mode(work, &path, mode) {
        return Ok(());
    }
    make(alloc, work, edits, Edit::Chmod(path, mode))
}

/// A file of this mode is at the path.
fn has_mode(tree: &Tree, path: &Path, mode: Mode) -> bool
    ensures { IsTrue result ↔ HasMode tree.now path.now (mode_of mode) }
{
    match tree.get(path) {
        Some(Found::File(there, _)) => there.is_same(mode),
        Some(Found::Dir) => false,
        None => false,
    }
}

/// Plans the edit and makes it. It is refused as the tree refuses it, and 11 where memory is
/// refused.
pub(crate) fn make(
    alloc: Global,
    work: &mut Tree,
    edits: &mut Vec<Edit>,
    edit: Edit,
) -> Result<(), TreeError>
    ensures done { OnOk result (work.new ≡ after_edit work.old (edit_of edit)) }
    ensures allowed { OnOk result (edit_refusal work.old (edit_of edit) ≡ None) }
    ensures cause { IfErr result (λ e. e ≢ TreeError.Memory
        → edit_refusal work.old (edit_of edit) ≡ Some (refusal_of e)) }
    ensures edits { OnOk result (GoesOn (λ made. made ≡ edit_of edit) work.old edits.old.items
        work.new edits.new.items) }
{
    edits.push(edit.copy(alloc)?)?;
    work.apply(alloc, edit)
}
