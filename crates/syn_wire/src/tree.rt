//! Trees, and what may stand at a path of one.
ghost use Rattle.std.specs.Prelude.{◌≡◌, ◌++◌, ◌∷◌, ◌<◌, ◌^◌, ◌≤◌, length, true, IfOk, OnOk};
ghost use Rattle.std.specs.Prelude.{option_map};
ghost use Rattle.syn_model.specs.Limits.{children, fits_content, fits_part};
ghost use Rattle.syn_model.specs.Path.{IsName};
ghost use Rattle.syn_model.specs.Spelling.{spelling};
ghost use Rattle.syn_model.specs.Tree.{Directory, IsPart};
ghost use Rattle.syn_tree.specs.Contents.{found_content};
ghost use Rattle.syn_tree.specs.Nodes.{part_of, node_tree};
ghost use Rattle.syn_wire.specs.Reads.{IsBeginning};
ghost use Rattle.syn_wire.specs.Trees.{last_name_spelling, kind_spelling, standing_spelling};

use crate::contents::{write_contents, write_front};
use crate::error::WireError;
use crate::number::write_u16;
use std::alloc::Global;
use syn_path::Path;
use syn_tree::{Entries, Found, Node, Pair, Tree};

/// The first byte of what stands at a path: nothing does.
pub const ABSENT: u8 = 0;

/// The first byte of what stands at a path: a file.
pub const FILE: u8 = 1;

/// The first byte of what stands at a path: a directory.
pub const DIRECTORY: u8 = 2;

/// The spelling of the tree, entry by entry in path order.
///
/// Refused 11 where memory is refused.
pub fn encode_tree(alloc: Global, tree: &Tree) -> Result<Vec<u8>, WireError>
    ensures { IfOk result (λ bytes. bytes.items ≡ spelling tree.now) }
{
    let mut out = Vec::with_capacity(alloc, tree.spelling_length())?;
    write_tree(&mut out, tree)?;
    Ok(out)
}

/// The spelling of what stands at a path, or of nothing.
///
/// Refused 11 where memory is refused.
pub fn encode_node(alloc: Global, node: Option<&Node>) -> Result<Vec<u8>, WireError>
    requires { fits_part (part_of (option_map (λ there. there.now) node)) ≡ true }
    ensures { IfOk result (λ bytes. bytes.items
        ≡ spelling (part_of (option_map (λ there. there.now) node.entry))) }
{
    let mut out = Vec::new(alloc);
    write_node(&mut out, node)?;
    Ok(out)
}

/// Adds the spelling of the tree. Refused 11 where memory is refused; a beginning of it may then
/// have been added.
pub fn write_tree(out: &mut Vec<u8>, tree: &Tree) -> Result<(), WireError>
    ensures added { OnOk result (out.new.items ≡ out.old.items ++ spelling tree.now) }
    ensures kept { IsBeginning out.old.items out.new.items }
{
    let root = Path::root(*out.allocator());
    let pairs = tree.entries();
    write_count(out, tree.child_count(&root))?;
    for pair in pairs {
        write_pair(out, &pair, count_in_tree(tree, &pair))?;
    }
    Ok(())
}

/// Adds the spelling of what stands at a path, or of nothing. Refused 11 where memory is refused; a
/// beginning of it may then have been added.
pub fn write_node(out: &mut Vec<u8>, node: Option<&Node>) -> Result<(), WireError>
    requires { fits_part (part_of (option_map (λ there. there.now) node)) ≡ true }
    ensures added { OnOk result (out.new.items ≡ out.old.items
        ++ spelling (part_of (option_map (λ there. there.now) node.entry))) }
    ensures kept { IsBeginning out.old.items out.new.items }
    ensures lawful { OnOk result (IsPart
        (part_of (option_map (λ there. there.now) node.entry))) }
{
    match node {
        None => {
            out.push(ABSENT)?;
            Ok(())
        }
        Some(there) => write_present(out, there),
    }
}

// Adds the spelling of a file, or of a directory with what is below it.
fn write_present(out: &mut Vec<u8>, node: &Node) -> Result<(), WireError>
    requires { fits_part (node_tree node.now) ≡ true }
    ensures added { OnOk result (out.new.items ≡ out.old.items ++ spelling (node_tree node.now)) }
    ensures kept { IsBeginning out.old.items out.new.items }
    ensures lawful { OnOk result (IsPart (node_tree node.now)) }
{
    match node {
        Node::File(mode, bytes) => {
            out.push(FILE)?;
            write_contents(out, *mode, bytes)
        }
        Node::Dir(entries) => write_directory(out, entries),
    }
}

// Adds the spelling of a directory with what is below it.
fn write_directory(out: &mut Vec<u8>, entries: &Entries) -> Result<(), WireError>
    ensures added { OnOk result (out.new.items ≡ out.old.items ++ spelling entries.now) }
    ensures kept { IsBeginning out.old.items out.new.items }
    ensures lawful { IsPart entries.now }
{
    let root = Path::root(*out.allocator());
    let pairs = entries.iter();
    write_count(out, entries.child_count(&root))?;
    for pair in pairs {
        write_pair(out, &pair, count_in_entries(entries, &pair))?;
    }
    Ok(())
}

// How many names are in the directory that the pair is. A file is spelled without a count.
pub(crate) fn count_in_tree(tree: &Tree, pair: &Pair<'_>) -> usize
    ensures spelled { standing_spelling result pair.now.1
        ≡ standing_spelling (length (children tree.now pair.now.0)) pair.now.1 }
    ensures few { result ≤ length (children tree.now pair.now.0) }
{
    match pair.found() {
        Found::File(..) => 0,
        Found::Dir => tree.child_count_of(pair),
    }
}

// The same below a directory.
fn count_in_entries(entries: &Entries, pair: &Pair<'_>) -> usize
    ensures spelled { standing_spelling result pair.now.1
        ≡ standing_spelling (length (children entries.now pair.now.0)) pair.now.1 }
    ensures few { result ≤ length (children entries.now pair.now.0) }
{
    match pair.found() {
        Found::File(..) => 0,
        Found::Dir => entries.child_count_of(pair),
    }
}

// Adds the last name of a pair and what stands there, without what is below it.
fn write_pair(out: &mut Vec<u8>, pair: &Pair<'_>, count: usize) -> Result<(), WireError>
    requires count { count < 2 ^ 16 }
    requires brief { fits_content pair.now.1 ≡ true }
    ensures added { OnOk result (out.new.items ≡ out.old.items
        ++ (last_name_spelling pair.now.0 ++ standing_spelling count pair.now.1)) }
    ensures kept { IsBeginning out.old.items out.new.items }
{
    write_name_of(out, pair)?;
    write_kind(out, &pair.found(), count)?;
    if let Found::File(_, bytes) = pair.found() {
        out.extend_from_slice(bytes)?;
    }
    Ok(())
}

// Adds the kind of what was found, with the mode and the length of a file or the count of a
// directory.
pub(crate) fn write_kind(
    out: &mut Vec<u8>,
    found: &Found<'_>,
    count: usize,
) -> Result<(), WireError>
    requires count { count < 2 ^ 16 }
    requires brief { fits_content (found_content found.now) ≡ true }
    ensures added { OnOk result (out.new.items
        ≡ out.old.items ++ kind_spelling count (found_content found.now)) }
    ensures kept { IsBeginning out.old.items out.new.items }
{
    match found {
        Found::File(mode, bytes) => {
            out.push(FILE)?;
            write_front(out, *mode, bytes)
        }
        Found::Dir => write_count(out, count),
    }
}

// Adds the last name of a pair with its length; of the root nothing.
pub(crate) fn write_name_of(out: &mut Vec<u8>, pair: &Pair<'_>) -> Result<(), WireError>
    ensures added { OnOk result (out.new.items ≡ out.old.items ++ last_name_spelling pair.now.0) }
    ensures kept { IsBeginning out.old.items out.new.items }
{
    match pair.last_name() {
        Some(name) => write_name(out, name),
        None => Ok(()),
    }
}

// Adds the last name of a path with its length; of the root nothing.
pub(crate) fn write_last_name(out: &mut Vec<u8>, path: &Path) -> Result<(), WireError>
    ensures added { OnOk result (out.new.items ≡ out.old.items ++ last_name_spelling path.now) }
    ensures kept { IsBeginning out.old.items out.new.items }
{
    match path.names().last() {
        Some(name) => write_name(out, name.as_str().as_bytes()),
        None => Ok(()),
    }
}

// Adds a name with its length.
fn write_name(out: &mut Vec<u8>, name: &[u8]) -> Result<(), WireError>
    requires { IsName name.now }
    ensures added { OnOk result (out.new.items ≡ out.old.items ++ length name.now ∷ name.now) }
    ensures kept { IsBeginning out.old.items out.new.items }
{
    out.push(name.len() as u8)?;
    out.extend_from_slice(name)?;
    Ok(())
}

// How many bytes spell the last name with its length; none of the root.
pub(crate) fn last_name_length(path: &Path) -> usize
    ensures length { result ≡ length (last_name_spelling path.now) }
    ensures brief { result ≤ 65 }
{
    match path.names().last() {
        Some(name) => 1 + name.as_str().len(),
        None => 0,
    }
}

// Adds the kind of a directory, and how many names are in it.
pub(crate) fn write_count(out: &mut Vec<u8>, count: usize) -> Result<(), WireError>
    requires { count < 2 ^ 16 }
    ensures added { OnOk result (out.new.items
        ≡ out.old.items ++ standing_spelling count Directory) }
    ensures kept { IsBeginning out.old.items out.new.items }
{
    out.push(DIRECTORY)?;
    write_u16(out, count as u16)
}
