//! A part of a tree with the path before its own, where it is to stand.
ghost use Rattle.std.specs.Prelude.{◌≡◌, ◌≢◌, IfOk, IfErr};
ghost use Rattle.syn_model.specs.Tree.{file_with};
ghost use Rattle.syn_tree.specs.Modes.{mode_of};
ghost use Rattle.syn_tree.specs.Nodes.{part_of};
ghost use Rattle.syn_tree.specs.Lists.{IsPlaceable, FitsNowhere};

use crate::content::Content;
use crate::entries::Entries;
use crate::entry::Entry;
use crate::error::TreeError;
use crate::lawful::{are_contents, is_path};
use crate::measures::LONGEST_FILE;
use crate::mode::Mode;
use crate::node::Node;
use crate::parts::push_under;
use std::alloc::Global;
use syn_path::Key;

/// The entries of the part with the path put before theirs.
///
/// Refused 7 where they fit nowhere at that path, and 11 where memory is refused.
pub fn placed(alloc: Global, at: &Key, new: Option<Node>) -> Result<Vec<Entry>, TreeError>
    ensures ok { IfOk result (λ list. IsPlaceable at.now (part_of new) list.items) }
    ensures full { IfErr result (λ e. e ≢ TreeError.Memory → (e ≡ TreeError.Full)
        × FitsNowhere at.now (part_of new)) }
{
    is_path(at);
    match new {
        None => Ok(Vec::new(alloc)),
        Some(Node::File(mode, bytes)) => placed_file(alloc, at, mode, bytes),
        Some(Node::Dir(entries)) => placed_directory(alloc, at, entries),
    }
}

/// A file at the path.
fn placed_file(alloc: Global, at: &Key, mode: Mode, bytes: Vec<u8>) -> Result<Vec<Entry>, TreeError>
    ensures ok { IfOk result (λ list.
        IsPlaceable at.now (file_with (mode_of mode) bytes.items) list.items) }
    ensures full { IfErr result (λ e. e ≢ TreeError.Memory → (e ≡ TreeError.Full)
        × FitsNowhere at.now (file_with (mode_of mode) bytes.items)) }
{
    are_contents(mode, &bytes);
    is_path(at);
    if bytes.len() > LONGEST_FILE {
        return Err(TreeError::Full);
    }
    let mut list = Vec::new(alloc);
    list.push(Entry::new(alloc, at, Content::File(mode, bytes))?)?;
    Ok(list)
}

/// A directory at the path, with what is below it.
fn placed_directory(alloc: Global, at: &Key, entries: Entries) -> Result<Vec<Entry>, TreeError>
    ensures ok { IfOk result (λ list. IsPlaceable at.now entries list.items) }
    ensures full { IfErr result (λ e. e ≢ TreeError.Memory → (e ≡ TreeError.Full)
        × FitsNowhere at.now entries) }
{
    is_path(at);
    let mut list = Vec::new(alloc);
    list.push(Entry::new(alloc, at, Content::Dir)?)?;
    push_under(&mut list, at, entries.into_vec())?;
    Ok(list)
}
