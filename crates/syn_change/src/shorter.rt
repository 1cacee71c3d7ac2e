//! The files that become shorter are put first, so that what becomes longer has room.
ghost use Rattle.std.specs.Prelude.{◌≡◌, ◌≢◌, IfErr, OnOk};
ghost use Rattle.std.specs.FinMap.{get};
ghost use Rattle.syn_tree.specs.Refusals.{refusal_of};
ghost use Rattle.syn_change.specs.Changes.{GoesOn, IsRefusedAmong};
ghost use Rattle.syn_change.specs.inner.Shorter.{AreShortened, IsShortenedAt, Shortens, ShortensTo};
ghost use Rattle.syn_change.specs.inner.Shorter.{is_longer};

use crate::additions::put_bytes;
use std::alloc::Global;
use syn_path::Path;
use syn_tree::{Edit, Found, Pair, Tree, TreeError};

/// Plans and makes the puts of those files of the wanted tree that stand in `work` with more bytes.
/// Nothing else changes, and each of these files keeps its mode.
///
/// Refused as the tree refuses one of these puts after some of the others, and 11 where memory is
/// refused.
pub(crate) fn put_shorter(
    alloc: Global,
    work: &mut Tree,
    edits: &mut Vec<Edit>,
    wanted: &Tree,
) -> Result<(), TreeError>
    ensures shortened { OnOk result (AreShortened work.old wanted.now work.new) }
    ensures edits { OnOk result (GoesOn (Shortens work.old wanted.now) work.old edits.old.items
        work.new edits.new.items) }
    ensures refused { IfErr result (λ e. e ≢ TreeError.Memory
        → IsRefusedAmong (Shortens work.old wanted.now) work.old (refusal_of e)) }
{
    let _ = work.entries();
    for pair in wanted.entries() {
        shorten(alloc, work, edits, &pair)?;
    }
    Ok(())
}

/// Plans and makes the put of the pair's file, where a file with more bytes stands in `work`.
/// Refused as the edit is.
fn shorten(
    alloc: Global,
    work: &mut Tree,
    edits: &mut Vec<Edit>,
    pair: &Pair<'_>,
) -> Result<(), TreeError>
    ensures shortened { OnOk result (IsShortenedAt work.old pair.now work.new) }
    ensures edits { OnOk result (GoesOn (ShortensTo work.old pair.now) work.old edits.old.items
        work.new edits.new.items) }
    ensures refused { IfErr result (λ e. e ≢ TreeError.Memory
        → IsRefusedAmong (ShortensTo work.old pair.now) work.old (refusal_of e)) }
{
    let path = pair.path(alloc)?;
    match pair.found() {
        Found::Dir => Ok(()),
        Found::File(_, bytes) => {
            if !is_longer(work, &path, bytes) {
                return Ok(());
            }
            put_bytes(alloc, work, edits, &path, bytes)
        }
    }
}

/// A file with more bytes than these is at the path.
fn is_longer(tree: &Tree, path: &Path, bytes: &[u8]) -> bool
    ensures { result ≡ is_longer (get tree.now path.now) bytes.now }
{
    match tree.get(path) {
        Some(Found::File(_, there)) => bytes.len() < there.len(),
        Some(Found::Dir) => false,
        None => false,
    }
}
