//! What a file and a directory are read as, of trees and of marks.
ghost use Rattle.std.specs.Prelude.{◌≡◌};
ghost use Rattle.syn_model.specs.Tree.{Directory};
ghost use Rattle.syn_wire.specs.Versions.{version_of};
ghost use Rattle.syn_wire.specs.inner.Kinds.{ReadsFile};

use crate::error::ReadError;
use crate::reader::Reader;
use crate::version::Version;
use std::alloc::Global;
use syn_mark::Mark;
use syn_placed::EntryKind;
use syn_tree::Content;

/// What may stand at a path, as it is read.
pub(crate) trait Readable: EntryKind {
    ghost use Rattle.syn_model.specs.Version.{Version};
    ghost use Rattle.syn_wire.specs.inner.Kinds.{Kind};

    ghost kind: { Version → Kind };

    /// A directory.
    fn directory() -> Self
        ensures { Self.content result ≡ Directory };

    /// What follows the kind of a file.
    fn read_file(
        reader: &mut Reader<'_>,
        alloc: Global,
        version: Version,
    ) -> Result<Self, ReadError>
        ensures { ReadsFile (kind (version_of version)) (λ found. Self.content found) reader.old
            reader.new result };
}

impl Readable for Content {
    ghost use Rattle.syn_wire.specs.inner.Kinds.{OfContents};

    ghost kind = { OfContents };

    fn directory() -> Content {
        Content::Dir
    }

    fn read_file(
        reader: &mut Reader<'_>,
        alloc: Global,
        version: Version,
    ) -> Result<Content, ReadError> {
        let (mode, bytes) = reader.contents(version)?;
        Ok(Content::File(mode, bytes.to_vec(alloc)?))
    }
}

impl Readable for Mark {
    ghost use Rattle.syn_wire.specs.inner.Kinds.{OfMarks};

    ghost kind = { OfMarks };

    fn directory() -> Mark {
        Mark::Dir
    }

    fn read_file(
        reader: &mut Reader<'_>,
        _alloc: Global,
        version: Version,
    ) -> Result<Mark, ReadError> {
        let (mode, digest) = reader.digest(version)?;
        Ok(Mark::File(mode, digest))
    }
}
