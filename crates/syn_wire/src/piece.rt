//! A piece of what is spelled at a path, written from the pairs of the tree that stand there.
ghost use Rattle.std.specs.Prelude.{◌≡◌, ℕ, ◌++◌, ◌<◌, ◌^◌, length, take, drop, true, Some, IfOk};
ghost use Rattle.std.specs.Prelude.{OnOk};
ghost use Rattle.std.specs.FinMap.{get};
ghost use Rattle.syn_model.specs.Limits.{fits_content, greatest_piece};
ghost use Rattle.syn_model.specs.Path.{Bytes};
ghost use Rattle.syn_model.specs.Spelling.{spelling};
ghost use Rattle.syn_model.specs.Tree.{subtree};
ghost use Rattle.syn_tree.specs.Contents.{found_content};
ghost use Rattle.syn_wire.specs.Trees.{last_name_spelling, standing_spelling};
ghost use Rattle.syn_wire.specs.inner.Windows.{Shows};

use crate::error::WireError;
use crate::tree::{ABSENT, count_in_tree, write_kind, write_name_of};
use crate::window::Window;
use std::alloc::Global;
use syn_path::Path;
use syn_tree::{Found, Pair, Tree};

/// How many bytes spell what stands at the path, or nothing.
pub fn part_length(tree: &Tree, path: &Path) -> usize
    ensures length { result ≡ length (spelling (subtree tree.now path.now)) }
    ensures short { result < 2 ^ 32 }
{
    let _whole = tree.entries();
    match tree.get(path) {
        Some(_) => tree.part_length(path),
        None => 1,
    }
}

/// The bytes that spell what stands at the path, or nothing, from the offset on, at most as many as
/// a piece has. The bytes of files beside the piece are not looked at.
///
/// Refused 11 where memory is refused.
pub fn encode_piece(
    alloc: Global,
    tree: &Tree,
    path: &Path,
    offset: usize,
) -> Result<Vec<u8>, WireError>
    ensures { IfOk result (λ bytes. bytes.items
        ≡ take greatest_piece (drop offset (spelling (subtree tree.now path.now)))) }
{
    let _whole = tree.entries();
    let mut window = Window::new(alloc, offset);
    match tree.get(path) {
        Some(found) => push_part(alloc, &mut window, tree, path, &found)?,
        None => window.push(&[ABSENT])?,
    }
    Ok(window.kept)
}

// Writes what was found at the path with all below it.
fn push_part(
    alloc: Global,
    window: &mut Window,
    tree: &Tree,
    path: &Path,
    found: &Found<'_>,
) -> Result<(), WireError>
    requires { get tree.now path.now ≡ Some (found_content found.now) }
    ensures { (offset : ℕ) (written : Bytes)
        → Shows offset written window.old.kept.items window.old.skip
        → OnOk result (Shows offset (written ++ spelling (subtree tree.now path.now))
        window.new.kept.items window.new.skip) }
{
    let _whole = tree.entries();
    let mut head = Vec::new(alloc);
    push_found(window, &mut head, found, tree.child_count(path))?;
    for pair in tree.below(path) {
        push_pair(window, &mut head, &pair, count_in_tree(tree, &pair))?;
    }
    Ok(())
}

// Writes the last name of a pair and what stands there, without what is below it.
fn push_pair(
    window: &mut Window,
    head: &mut Vec<u8>,
    pair: &Pair<'_>,
    count: usize,
) -> Result<(), WireError>
    requires count { count < 2 ^ 16 }
    requires brief { fits_content pair.now.1 ≡ true }
    ensures { (offset : ℕ) (written : Bytes)
        → Shows offset written window.old.kept.items window.old.skip
        → OnOk result (Shows offset
        (written ++ (last_name_spelling pair.now.0 ++ standing_spelling count pair.now.1))
        window.new.kept.items window.new.skip) }
{
    head.clear();
    write_name_of(head, pair)?;
    push_found(window, head, &pair.found(), count)
}

// Writes the bytes of the head, and what was found without what is below it.
fn push_found(
    window: &mut Window,
    head: &mut Vec<u8>,
    found: &Found<'_>,
    count: usize,
) -> Result<(), WireError>
    requires count { count < 2 ^ 16 }
    requires brief { fits_content (found_content found.now) ≡ true }
    ensures { (offset : ℕ) (written : Bytes)
        → Shows offset written window.old.kept.items window.old.skip
        → OnOk result (Shows offset
        (written ++ (head.old.items ++ standing_spelling count (found_content found.now)))
        window.new.kept.items window.new.skip) }
{
    write_kind(head, found, count)?;
    window.push(head)?;
    match found {
        Found::File(_, bytes) => window.push(bytes),
        Found::Dir => Ok(()),
    }
}
