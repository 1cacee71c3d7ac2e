//! What is read of trees.
ghost use Rattle.std.specs.Prelude.{◌≡◌, ◌∷◌, IfOk, option_map};
ghost use Rattle.syn_model.specs.Spelling.{spelling_in};
ghost use Rattle.syn_tree.specs.Nodes.{node_tree, part_of};
ghost use Rattle.syn_wire.specs.Reads.{IsReading, Reads};
ghost use Rattle.syn_wire.specs.Trees.{IsDirectoryTreeIn, IsOptionalTreeIn, IsWholeTreeIn};
ghost use Rattle.syn_wire.specs.Versions.{version_of};

use crate::error::{ReadError, WireError};
use crate::part_reading::read_parts;
use crate::reader::Reader;
use crate::spelling_laws;
use crate::tree::{ABSENT, DIRECTORY, FILE};
use crate::version::Version;
use std::alloc::{AllocError, Global};
use syn_path::Path;
use syn_placed::Placed;
use syn_tree::{Content, Entries, Entry, LONGEST_FILE, Node, Tree, TreeError};

/// The tree that the bytes begin with, and the rest; none where no front of them is the spelling of
/// a tree within all limits of a replica.
///
/// Refused 11 where memory is refused.
pub fn decode_tree(
    alloc: Global,
    version: Version,
    bytes: &[u8],
) -> Result<Option<(Tree, &[u8])>, WireError>
    ensures { IfOk result (λ read. IsReading (IsWholeTreeIn (version_of version))
        (spelling_in (version_of version)) bytes.now
        (option_map (λ found. (found.0, found.1.now)) read)) }
{
    let mut reader = Reader::new(bytes);
    let tree = reader.tree(alloc, version);
    reader.front(tree)
}

/// What the bytes begin with, a file, a directory with all below it or nothing, and the rest; none
/// where no front of them is the spelling of one that keeps the limits of each file and directory,
/// and of its paths as they are taken from its root.
///
/// Refused 11 where memory is refused.
pub fn decode_node(
    alloc: Global,
    version: Version,
    bytes: &[u8],
) -> Result<Option<(Option<Node>, &[u8])>, WireError>
    ensures { IfOk result (λ read. IsReading (IsOptionalTreeIn (version_of version))
        (spelling_in (version_of version)) bytes.now
        (option_map (λ found. (part_of found.0, found.1.now)) read)) }
{
    let mut reader = Reader::new(bytes);
    let node = reader.node(alloc, version);
    reader.front(node)
}

impl<'a> Reader<'a> {
    /// A tree within all limits of a replica.
    pub fn tree(&mut self, alloc: Global, version: Version) -> Result<Tree, ReadError>
        ensures { Reads (IsWholeTreeIn (version_of version)) (spelling_in (version_of version))
            (λ tree. tree) self.old self.new result }
    {
        spelling_laws();
        if self.byte()? != DIRECTORY {
            return Err(ReadError::Malformed);
        }
        let entries = self.entries(alloc, version)?;
        match Tree::from_entries(alloc, entries) {
            Ok(tree) => Ok(tree),
            Err(TreeError::Full) => Err(ReadError::Malformed),
            Err(_) => Err(ReadError::Memory),
        }
    }

    /// A file, a directory with all below it, or nothing, which keeps the limits of each file and
    /// directory, and of its paths as they are taken from its root.
    pub fn node(&mut self, alloc: Global, version: Version) -> Result<Option<Node>, ReadError>
        ensures { Reads (IsOptionalTreeIn (version_of version)) (spelling_in (version_of version))
            part_of self.old self.new result }
    {
        match self.byte()? {
            ABSENT => Ok(None),
            FILE => Ok(Some(self.file_node(alloc, version)?)),
            DIRECTORY => Ok(Some(Node::Dir(self.entries(alloc, version)?))),
            _ => Err(ReadError::Malformed),
        }
    }

    // What follows the kind of a file.
    fn file_node(&mut self, alloc: Global, version: Version) -> Result<Node, ReadError>
        ensures { Reads (IsOptionalTreeIn (version_of version)) (spelling_in (version_of version))
            node_tree (FILE ∷ self.old) self.new result }
    {
        let (mode, bytes) = self.contents(version)?;
        if bytes.len() > LONGEST_FILE {
            return Err(ReadError::Malformed);
        }
        Ok(Node::File(mode, bytes.to_vec(alloc)?))
    }

    // What follows the kind of a directory.
    fn entries(&mut self, alloc: Global, version: Version) -> Result<Entries, ReadError>
        ensures { Reads (IsDirectoryTreeIn (version_of version)) (spelling_in (version_of version))
            (λ entries. entries) (DIRECTORY ∷ self.old) self.new result }
    {
        let count = self.u16()?;
        let mut list = Vec::new(alloc);
        read_parts(self, alloc, version, &mut list, &Path::root(alloc), count)?;
        let Some(entries) = Entries::from_vec(keyed(alloc, list)?) else {
            return Err(ReadError::Malformed);
        };
        // what they keep is a directory's
        let _ = entries.iter();
        Ok(entries)
    }
}

// The entries with the keys of their paths.
fn keyed(alloc: Global, list: Vec<Placed<Content>>) -> Result<Vec<Entry>, AllocError>
    ensures { IfOk result (λ entries. entries.items ≡ list.items) }
{
    let mut entries = Vec::with_capacity(alloc, list.len())?;
    for placed in list {
        entries.push(Entry::of(alloc, placed)?)?;
    }
    Ok(entries)
}
