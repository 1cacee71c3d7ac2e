//! The disk of a machine in a world.
ghost use Rattle.std.specs.Prelude.{◌≡◌};
ghost use Rattle.syn_disk.specs.Arms.{no_arms};
ghost use Rattle.syn_disk.specs.Disk.{NothingNew};

use syn_disk::{Cut, Limit, Restart};

/// A disk that can be told to fail or to stop, and that its machine finds again after a stop.
pub trait SimulatedDisk: Limit {
    /// The disk as it is found after a stop of its machine. What it was told to refuse is
    /// forgotten, and a further stop leaves nothing new.
    fn after_stop(self) -> Self
        ensures left { NothingNew (Self.Limit.may_leave self)
            (Self.Limit.may_leave result) }
        ensures arms { Self.Limit.arms result ≡ no_arms }
        ensures count { Self.Limit.failures result ≡ Self.Limit.failures self };
}

impl<D: Restart> SimulatedDisk for Cut<D> {
    fn after_stop(self) -> Self {
        self.restart()
    }
}
