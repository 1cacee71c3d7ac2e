//! What is left of a replica whose machine stopped, and what it sent to its disk last.
ghost use Rattle.std.specs.Prelude.{◌≡◌, None, option_map};

use super::Replica;
use syn_disk::Disk;

impl<D: Disk> Replica<D> {
    ghost use Rattle.syn_replica.specs.Replica.{SameMemory, disk_of, journal_of, tried_shown};

    /// The disk, as the last call left it, and how the event is spelled that was last sent to it
    /// since the replica was formatted, opened or reopened.
    pub fn into_parts(self) -> (D, Option<Vec<u8>>)
        ensures disk { result.0 ≡ disk_of self }
        ensures tried { option_map (λ spelled. spelled.items) result.1 ≡ tried_shown self }
    {
        (self.journaled.into_disk(), self.tried)
    }

    /// Hands out how the event is spelled that was last sent to the disk, and keeps it no longer.
    pub fn take_tried(&mut self) -> Option<Vec<u8>>
        ensures tried { option_map (λ spelled. spelled.items) result ≡ tried_shown self.old }
        ensures gone { tried_shown self.new ≡ None }
        ensures memory { SameMemory self.old self.new }
        ensures journal { journal_of self.new ≡ journal_of self.old }
    {
        self.tried.take()
    }
}
