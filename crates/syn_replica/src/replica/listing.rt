//! What a side answers where a session lists a directory.
ghost use Rattle.std.specs.Prelude.{◌≡◌, ◌↔◌, false, Err, IfOk, IfErr};
ghost use Rattle.syn_model.specs.Limits.{children};
ghost use Rattle.syn_model.specs.Mark.{mark};
ghost use Rattle.syn_model.specs.Tree.{is_directory};
ghost use Rattle.syn_mark.specs.Marks.{contents_in};
ghost use Rattle.syn_replica.specs.Refusals.{IsOneOf, reading_refusals};

use super::Replica;
use crate::ReplicaError;
use crate::digests::Digests;
use std::alloc::Global;
use syn_disk::Disk;
use syn_journal::JournalError;
use syn_mark::Mark;
use syn_path::{Name, Path};
use syn_tree::TreeError;

/// What stands in a directory, by marks.
#[derive(Debug, Drop)]
pub struct Listing {
    /// How many events the history has that left it so.
    pub position: u64,
    /// The names in byte order, each with the mark of what stands there.
    pub entries: Vec<(Name, Mark)>,
}

impl<D: Disk> Replica<D> {
    ghost use Rattle.syn_replica.specs.Replica.{tree_shown, position_shown, IsHalted};

    /// The marks of what stands in the directory, with the position. The work grows with what is at
    /// and below the path, and not with the whole tree.
    ///
    /// A file is hashed when it is listed. From the second listing of the root on its digest is
    /// then kept with a copy of its bytes, where there is memory for them: of at most 1,024 files
    /// with 526,336 bytes in all.
    ///
    /// Refused 10 while the replica is halted, 5 where no directory is there, and 11 where memory
    /// is refused.
    pub fn listing(&self, alloc: Global, path: &Path) -> Result<Listing, ReplicaError>
        ensures marks { IfOk result (λ listing. contents_in listing.entries.items
            ≡ children (mark (tree_shown self.now)) path.now) }
        ensures position { IfOk result (λ listing. listing.position ≡ position_shown self.now) }
        ensures absent { (result ≡ Err (ReplicaError.Tree TreeError.Absent))
            ↔ (¬ IsHalted self.now × (is_directory (tree_shown self.now) path.now ≡ false)) }
        ensures halted { (result ≡ Err (ReplicaError.Journal JournalError.Halted))
            ↔ IsHalted self.now }
        ensures refusals { IfErr result (IsOneOf reading_refusals) }
    {
        self.check_running()?;
        let mut digests = match self.digests.take() {
            Some(digests) => digests,
            None => Digests::new(alloc),
        };
        let listed = digests.list_marks(alloc, self.tree(), path);
        self.digests.set(Some(digests));
        Ok(Listing {
            position: self.position(),
            entries: listed?,
        })
    }
}
