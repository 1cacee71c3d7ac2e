//! What the types of paths and marks say of them.
ghost use Rattle.syn_model.specs.Contents.{AreLawfulContents, HasDigest, contents_with};
ghost use Rattle.syn_mark.specs.Marks.{content_of, IsMarkPair, IsDigestOrDirectory};
ghost use Rattle.syn_tree.specs.Modes.{mode_of};

use crate::mark::Mark;
use crate::tree::MarkEntry;
use syn_model::are_bytes;
use syn_tree::Mode;

/// What the type of a mark says: it is a directory, or a mode with a digest of 32 bytes.
pub fn is_mark(mark: Mark)
    ensures { IsDigestOrDirectory (content_of mark) }
{
    match mark {
        Mark::File(mode, digest) => is_digest(mode, digest),
        Mark::Dir => {}
    }
}

/// It is a mode with 32 bytes.
fn is_digest(mode: Mode, digest: [u8; 32])
    ensures lawful { AreLawfulContents (contents_with (mode_of mode) digest) }
    ensures length { HasDigest (contents_with (mode_of mode) digest) }
{
    let _ = mode.bits();
    are_bytes(digest.as_slice());
}

/// The path is a lawful one, and what stands there is a mark.
pub(crate) fn is_entry(entry: &MarkEntry)
    ensures { IsMarkPair entry.now }
{
    let _ = entry.path().names();
    is_mark(*entry.content());
}
