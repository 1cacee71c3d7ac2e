//! What the system shows of a folder: one look at each path.
ghost use Rattle.std.specs.Fs.{metadata_len, metadata_mode};
ghost use Rattle.std.specs.Prelude.{◌≡◌, ◌%◌, None, false, true};
ghost use Rattle.syn_folder.specs.Looks.{IsSameNode, content_in};
ghost use Rattle.syn_tree.specs.Modes.{mode_of};

use crate::stranger::Strangeness;
use std::fs::Metadata;
use std::os::unix::fs::{MetadataExt, PermissionsExt};
use syn_path::Path;
use syn_tree::Mode;

/// What the system tells of a file or of a directory that differs as soon as it is written, gets
/// another mode, or is another one of the same name. A directory is written where a name comes or
/// goes. Two changes may be too close for the system's clock, so what is read is compared, too.
#[derive(Clone, Copy, Debug, PartialEq, Eq)]
pub(super) struct Look {
    device: u64,
    node: u64,
    mode: u32,
    length: u64,
    modified: (i64, i64),
    changed: (i64, i64),
}

impl Look {
    /// What it tells of this one.
    pub(super) fn of(there: &Metadata) -> Look
        ensures mode { result.mode ≡ metadata_mode there.now }
        ensures length { result.length ≡ metadata_len there.now }
    {
        Look {
            device: there.dev(),
            node: there.ino(),
            mode: there.permissions().mode(),
            length: there.len(),
            modified: (there.mtime(), there.mtime_nsec()),
            changed: (there.ctime(), there.ctime_nsec()),
        }
    }

    /// It is the look of the same file or directory of the system, at some time.
    pub(super) fn is_of_same(&self, other: &Look) -> bool {
        self.device == other.device && self.node == other.node
    }

    /// Both lie on one file system.
    pub(super) fn lies_with(&self, other: &Look) -> bool {
        self.device == other.device
    }

    /// The other is the look of the same file before it was moved, and it was not written since nor
    /// got another mode. A file that is moved has another time of change.
    pub(super) fn is_moved_from(&self, other: &Look) -> bool {
        self.is_of_same(other)
            && self.mode == other.mode
            && self.length == other.length
            && self.modified == other.modified
    }

    /// The nine permission bits of a file; what else the system's mode has, a replica has not.
    pub(super) fn file_mode(self) -> Mode
        ensures { mode_of result ≡ self.mode % 512 }
    {
        let Some(mode) = Mode::new((self.mode % 512) as u16) else {
            unreachable!()
        };
        mode
    }
}

/// What the system shows at a path.
#[derive(Drop)]
pub(super) enum Shown {
    /// A directory, and the names in it, each with a zero byte after it.
    Directory(Look, Vec<u8>),
    /// A directory with more names than one of a replica may have, and these names.
    Crowded(Vec<u8>),
    /// A file, and its bytes.
    File(Look, Vec<u8>),
    /// Something that can stand in no replica, for this reason.
    Strange(Strangeness),
    /// A file whose bytes nobody read, since there are too many files and directories.
    Unread,
    /// Something that was gone, or another, when it was looked at once more.
    Changed,
}

impl Shown {
    /// It is a file or a directory that a replica can have.
    pub(super) fn is_node(&self) -> bool
        ensures { result ≡ false → content_in self.now ≡ None }
    {
        matches!(self, Shown::Directory(..) | Shown::File(..))
    }

    /// The same file or directory is shown.
    fn is_same_node(&self, other: &Shown) -> bool
        ensures { result ≡ true → content_in self.now ≡ content_in other.now }
    {
        match (self, other) {
            (Shown::Directory(look, _), Shown::Directory(other, _)) => look == other,
            (Shown::File(look, bytes), Shown::File(other, other_bytes)) => {
                look == other && bytes == other_bytes
            }
            _ => false,
        }
    }
}

/// A path of the folder, or the folder itself, and what was shown there.
#[derive(Drop)]
pub(super) struct Seen {
    pub(super) path: Path,
    pub(super) shown: Shown,
}

impl Seen {
    /// The same file or directory was seen.
    pub(super) fn is_same_node(&self, other: &Seen) -> bool
        ensures { result ≡ true → IsSameNode self.now other.now }
    {
        self.path == other.path && self.shown.is_same_node(&other.shown)
    }

    /// A file or a directory was seen at the path.
    pub(super) fn is_node_at(&self, path: &Path) -> bool {
        self.shown.is_node() && self.path == *path
    }
}

/// How a file or a directory of the folder looked when it was read.
#[derive(Drop)]
pub(super) struct Looked {
    pub(super) path: Path,
    pub(super) look: Look,
}
