//! What the replica's device is told to refuse.
ghost use Rattle.std.specs.Prelude.{◌≡◌, ℕ};
ghost use Rattle.syn_disk.specs.Armed.{armed};
ghost use Rattle.syn_disk.specs.Disk.{SameOutcomes};
ghost use Rattle.syn_journal.specs.Journal.{SameReadings};
ghost use Rattle.syn_model.specs.History.{History};

use super::Replica;
use syn_disk::{Arm, Limit};

impl<D: Limit> Replica<D> {
    ghost use Rattle.syn_replica.specs.Replica.{disk_of, journal_of, tried_shown};
    ghost use Rattle.syn_replica.specs.Replica.{SameMemory, Stands};
    ghost use Rattle.syn_replica.specs.Growth.{IsGrown};

    /// Arms the replica's disk. It takes the place of an arm of its kind that is still to come.
    pub fn arm(&mut self, arm: Arm)
        ensures arms { D.Disk.arms (disk_of self.new) ≡ armed (D.Disk.arms (disk_of self.old)) arm }

        // It changes nothing that a read gives or a stop leaves.
        ensures seen { D.Disk.seen (disk_of self.new) ≡ D.Disk.seen (disk_of self.old) }
        ensures stop { SameOutcomes (D.Disk.may_leave (disk_of self.old))
            (D.Disk.may_leave (disk_of self.new)) }
        ensures moment { D.Disk.moment (disk_of self.new) ≡ D.Disk.moment (disk_of self.old) }
        ensures past { (t : ℕ) → SameOutcomes (D.Disk.left_since (disk_of self.old) t)
            (D.Disk.left_since (disk_of self.new) t) }
        ensures failures { D.Disk.failures (disk_of self.new) ≡ D.Disk.failures (disk_of self.old) }
        ensures stands { (history : History) → Stands self.old history → Stands self.new history }
        ensures grown { IsGrown self.old self.new }
        ensures memory { SameMemory self.old self.new }
        ensures tried { tried_shown self.new ≡ tried_shown self.old }
        ensures readings { SameReadings (journal_of self.old) (journal_of self.new) }
    {
        self.journaled.arm(arm);
    }
}
