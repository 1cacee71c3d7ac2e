//! A disk that outlives its machine.
ghost use Rattle.std.specs.Prelude.{◌≡◌};
ghost use Rattle.syn_disk.specs.Arms.{no_arms};
ghost use Rattle.syn_disk.specs.Disk.{Only, Elapses};

use crate::Disk;

/// A disk that the machine finds again after a stop.
pub trait Restart: Disk {
    /// Reads give what the stop left, and a further stop leaves the same.
    fn restart(self) -> Self
        ensures left { Self.Disk.may_leave self (Self.Disk.seen result) }
        ensures durable { Only (Self.Disk.seen result) (Self.Disk.may_leave result) }
        ensures time { Elapses (Self.Disk.moment self) (Self.Disk.moment result)
            (Self.Disk.left_since self) (Self.Disk.left_since result) (Self.Disk.may_leave result) }
        ensures count { Self.Disk.failures result ≡ Self.Disk.failures self }

        // What it was told to refuse is forgotten.
        ensures arms { Self.Disk.arms result ≡ no_arms };
}
