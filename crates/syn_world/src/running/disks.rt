//! The machines of a world are stopped, and their disks come back.
ghost use Rattle.std.specs.Prelude.{◌≡◌, ℕ};
ghost use Rattle.syn_disk.specs.Disk.{NothingNew};
ghost use Rattle.syn_machine.specs.Coordinator.{CoordinatorMachine};
ghost use Rattle.syn_machine.specs.SideMachine.{SideMachine};
ghost use Rattle.syn_runs.specs.World.{World as ModelWorld};
ghost use Rattle.syn_world.specs.Coordinators.{IsCoordinator, archive_disk};
ghost use Rattle.syn_world.specs.Sides.{IsHost, side_disk};
ghost use Rattle.syn_journal.specs.Calls.{IsFree};

use super::Running;
use crate::world::Disks;
use crate::{CoordinatorHost, SideHost, SimulatedDisk};

impl<D: SimulatedDisk> Running<D> {
    ghost use Rattle.syn_world.specs.Failures.{disks_in};
    ghost use Rattle.syn_world.specs.Openings.{AreFree, StopsDisks};
    ghost use Rattle.syn_world.specs.Worlds.{AreLeft, RunsMachines};

    /// Stops each machine that is up, and gives the three disks.
    pub(crate) fn into_disks(self) -> Disks<D>
        ensures stopped { StopsDisks D.Limit.may_leave D.Limit.failures
            (disks_in self) result }
        ensures left { (model : ModelWorld) → RunsMachines self model
            → AreLeft D.Limit.may_leave result model }
        ensures free { (model : ModelWorld) → RunsMachines self model
            → AreFree D.Limit.arms result }
    {
        Disks {
            left: stopped_side(self.left),
            right: stopped_side(self.right),
            archive: stopped_coordinator(self.coordinator),
        }
    }
}

/// The disk of a side, whose machine is stopped where it is up.
fn stopped_side<D: SimulatedDisk>(side: SideHost<D>) -> D
    ensures back { NothingNew (D.Limit.may_leave (side_disk side)) (D.Limit.may_leave result) }
    ensures count { D.Limit.failures result ≡ D.Limit.failures (side_disk side) }
    ensures free { (pair : ℕ) (machine : SideMachine) → IsHost pair side machine
        → IsFree (D.Limit.arms result) }
{
    match side {
        SideHost::Up(side) => SideHost::Up(side).into_disk().after_stop(),
        SideHost::Down(side) => SideHost::Down(side).into_disk(),
    }
}

/// The disk of the coordinator, whose machine is stopped where it is up.
fn stopped_coordinator<D: SimulatedDisk>(coordinator: CoordinatorHost<D>) -> D
    ensures back { NothingNew (D.Limit.may_leave (archive_disk coordinator))
        (D.Limit.may_leave result) }
    ensures count { D.Limit.failures result ≡ D.Limit.failures (archive_disk coordinator) }
    ensures free { (pair : ℕ) (machine : CoordinatorMachine)
        → IsCoordinator pair coordinator machine → IsFree (D.Limit.arms result) }
{
    match coordinator {
        CoordinatorHost::Up(up) => CoordinatorHost::Up(up).into_disk().after_stop(),
        CoordinatorHost::Down(down) => CoordinatorHost::Down(down).into_disk(),
    }
}
