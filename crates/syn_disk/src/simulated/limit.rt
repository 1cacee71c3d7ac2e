//! A disk that can be told which of its calls go wrong.
ghost use Rattle.std.specs.Prelude.{◌≡◌, ℕ};
ghost use Rattle.syn_disk.specs.Armed.{armed};
ghost use Rattle.syn_disk.specs.Disk.{SameOutcomes};

use crate::Disk;

/// What is to go wrong, by the device calls from now on, counted from 1. A call that is refused
/// counts too.
#[derive(Clone, Copy, Debug, PartialEq, Eq)]
pub enum Arm {
    /// This call fails, and is not made. At 0 none does.
    Fail(u64),
    /// So many calls are still made, and all after them fail and are not made.
    Stop(u64),
}

/// A disk whose calls can be made to fail.
pub trait Limit: Disk {
    /// Takes the place of one of its kind that is still to come. A disk that is cut stays cut.
    fn arm(&mut self, arm: Arm)
        ensures arms { Self.Disk.arms self.new ≡ armed (Self.Disk.arms self.old) arm }
        ensures seen { Self.Disk.seen self.new ≡ Self.Disk.seen self.old }
        ensures stop { SameOutcomes (Self.Disk.may_leave self.old) (Self.Disk.may_leave self.new) }
        ensures moment { Self.Disk.moment self.new ≡ Self.Disk.moment self.old }
        ensures past { (t : ℕ)
            → SameOutcomes (Self.Disk.left_since self.old t) (Self.Disk.left_since self.new t) }
        ensures count { Self.Disk.failures self.new ≡ Self.Disk.failures self.old };
}
