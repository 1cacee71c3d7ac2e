//! The marks of what stands in a tree.
ghost use Rattle.std.specs.Prelude.{◌≡◌, ◌≢◌, ◌<◌, ◌++◌, OnOk, IfOk, IfErr};
ghost use Rattle.std.specs.FinMap.{len};
ghost use Rattle.syn_model.specs.Limits.{most_nodes};
ghost use Rattle.syn_model.specs.Mark.{mark, mark_of};
ghost use Rattle.syn_tree.specs.Contents.{found_content};
ghost use Rattle.syn_tree.specs.Nodes.{node_tree};
ghost use Rattle.syn_mark.specs.Marks.{content_of};
ghost use Rattle.syn_mark.specs.Placings.{marked};

use crate::mark::Mark;
use crate::tree::{MOST_NODES, MarkEntry, MarkTree};
use std::alloc::{AllocError, Global};
use syn_path::Path;
use syn_tree::{Cursor, Entries, Found, Node, Pair, TreeError};

/// The marks of a file, or of a directory with all below it.
///
/// Refused 7 where it has more than 4,096 nodes, as no part of a replica's tree has, and 11 where
/// memory is refused.
pub fn mark_of(alloc: Global, node: &Node) -> Result<MarkTree, TreeError>
    ensures ok { IfOk result (λ marks. marks ≡ mark (node_tree node.now)) }
    ensures full { IfErr result (λ e. e ≢ TreeError.Memory → (e ≡ TreeError.Full)
        × (most_nodes < len (node_tree node.now))) }
{
    match node {
        Node::File(mode, bytes) => Ok(MarkTree::of_mark(alloc, Mark::of_file(*mode, bytes))?),
        Node::Dir(entries) => mark_of_directory(alloc, entries),
    }
}

/// The marks of a directory with all below it.
fn mark_of_directory(alloc: Global, entries: &Entries) -> Result<MarkTree, TreeError>
    ensures ok { IfOk result (λ marks. marks ≡ mark entries.now) }
    ensures full { IfErr result (λ e. e ≢ TreeError.Memory → (e ≡ TreeError.Full)
        × (most_nodes < len entries.now)) }
{
    let below = entries.iter();
    if below.len() >= MOST_NODES {
        return Err(TreeError::Full);
    }
    let mut list = Vec::with_capacity(alloc, below.len() + 1)?;
    list.push(MarkEntry::new(Path::root(alloc), Mark::Dir))?;
    push_marks(alloc, &mut list, below)?;
    Ok(MarkTree::from_marks(list))
}

/// Puts the mark of each pair after those that are there. Refused where memory is refused.
fn push_marks(
    alloc: Global,
    list: &mut Vec<MarkEntry>,
    source: Cursor<'_>,
) -> Result<(), AllocError>
    ensures { OnOk result (list.new.items ≡ list.old.items ++ marked source.entry) }
{
    for pair in source {
        list.push(marked(alloc, &pair)?)?;
    }
    Ok(())
}

/// The mark of what stands at the pair's path. Refused where memory is refused.
fn marked(alloc: Global, pair: &Pair<'_>) -> Result<MarkEntry, AllocError>
    ensures { IfOk result (λ made. made ≡ (pair.now.0, mark_of pair.now.1)) }
{
    let mark = mark_found(&pair.found());
    Ok(MarkEntry::new(pair.path(alloc)?, mark))
}

/// The mark of what was found. It takes no memory.
pub fn mark_found(found: &Found<'_>) -> Mark
    ensures { content_of result ≡ mark_of (found_content found.now) }
{
    match found {
        Found::File(mode, bytes) => Mark::of_file(*mode, bytes),
        Found::Dir => Mark::Dir,
    }
}
