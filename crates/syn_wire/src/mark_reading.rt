//! What is read of trees of marks.
ghost use Rattle.syn_model.specs.MarkSpelling.{mark_spelling_in};
ghost use Rattle.syn_mark.specs.Marks.{or_absent};
ghost use Rattle.syn_wire.specs.Marks.{IsMarkTreeIn, IsOptionalMarkTreeIn};
ghost use Rattle.syn_wire.specs.Reads.{Reads};
ghost use Rattle.syn_wire.specs.Versions.{version_of};

use crate::error::ReadError;
use crate::part_reading::read_part;
use crate::reader::Reader;
use crate::tree::ABSENT;
use crate::version::Version;
use std::alloc::Global;
use syn_mark::{MarkEntry, MarkTree};
use syn_path::Path;

impl<'a> Reader<'a> {
    /// Marks, or that nothing is there, within the limits of an archive: 4,096 nodes, and those of
    /// each path.
    pub fn marks(&mut self, alloc: Global, version: Version) -> Result<Option<MarkTree>, ReadError>
        ensures { Reads (IsOptionalMarkTreeIn (version_of version))
            (mark_spelling_in (version_of version)) or_absent self.old self.new result }
    {
        if self.passes(ABSENT) {
            return Ok(None);
        }
        Ok(Some(self.mark_tree(alloc, version)?))
    }

    /// The marks of a file, or of a directory with all below it, within the limits of an archive.
    pub fn mark_tree(&mut self, alloc: Global, version: Version) -> Result<MarkTree, ReadError>
        ensures { Reads (IsMarkTreeIn (version_of version)) (mark_spelling_in (version_of version))
            (λ marks. marks) self.old self.new result }
    {
        let mut list: Vec<MarkEntry> = Vec::new(alloc);
        read_part(self, alloc, version, &mut list, Path::root(alloc))?;
        let Some(marks) = MarkTree::from_vec(list) else {
            return Err(ReadError::Malformed);
        };
        // what they keep is that of marks
        let _ = marks.as_slice();
        Ok(marks)
    }
}
