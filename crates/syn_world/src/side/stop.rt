//! What a side's device is told to refuse, and what a stop of its machine leaves.
ghost use Rattle.std.specs.Prelude.{◌≡◌, ◌≢◌, ℕ, false};
ghost use Rattle.syn_disk.specs.Armed.{armed};
ghost use Rattle.syn_disk.specs.Arms.{is_stopped};
ghost use Rattle.syn_machine.specs.Machine.{Down, unarmed};
ghost use Rattle.syn_machine.specs.MachineSteps.{with_device};
ghost use Rattle.syn_machine.specs.SideMachine.{SideMachine, side_kind};
ghost use Rattle.syn_journal.specs.Calls.{armed_at};
ghost use Rattle.syn_replica.specs.Replica.{disk_of, tried_shown};

use super::{DownSide, SideCall, SideHost, UpSide};
use crate::disk::SimulatedDisk;
use crate::outcome::SideOutcome;
use syn_disk::Arm;

impl<D: SimulatedDisk> UpSide<D> {
    ghost use Rattle.syn_world.specs.Sides.{RestsAs, RunsAs, Settles, SettlesAdded, StopsAs};

    /// The device call with this number from now on fails, and is not made; at 0 none does.
    pub fn fail(self, call: u64) -> UpSide<D>
        ensures runs { (pair : ℕ) (machine : SideMachine) → RunsAs pair self machine
            → RunsAs pair result
            (with_device (side_kind pair) machine machine.journal.status
            (record machine.journal.arms { fail = call }) 0) }
        ensures count { D.Limit.failures (disk_of result.replica)
            ≡ D.Limit.failures (disk_of self.replica) }
    {
        self.arm(Arm::Fail(call))
    }

    /// So many device calls are still made, and the machine stops after the last of them.
    pub fn stop_after(self, calls: u64) -> UpSide<D>
        requires { calls ≢ 0 }
        ensures runs { (pair : ℕ) (machine : SideMachine) → RunsAs pair self machine
            → RunsAs pair result
            (with_device (side_kind pair) machine machine.journal.status
            (record machine.journal.arms { stop = calls }) 0) }
        ensures count { D.Limit.failures (disk_of result.replica)
            ≡ D.Limit.failures (disk_of self.replica) }
    {
        self.arm(Arm::Stop(calls))
    }

    /// Arms the replica's disk.
    fn arm(self, arm: Arm) -> UpSide<D>
        ensures arms { D.Limit.arms (disk_of result.replica)
            ≡ armed (D.Limit.arms (disk_of self.replica)) arm }
        ensures runs { is_stopped (D.Limit.arms (disk_of result.replica)) ≡ false
            → (pair : ℕ) (machine : SideMachine) → RunsAs pair self machine → RunsAs pair result
            (with_device (side_kind pair) machine machine.journal.status
            (armed_at (D.Limit.arms (disk_of result.replica))) 0) }
        ensures count { D.Limit.failures (disk_of result.replica)
            ≡ D.Limit.failures (disk_of self.replica) }
    {
        let mut side = self;
        side.replica.arm(arm);
        side
    }

    /// The machine stops at once. What is in memory is lost, and so is what is staged.
    pub fn stop(self) -> DownSide<D>
        ensures rests { (pair : ℕ) (machine : SideMachine) → RunsAs pair self machine
            → RestsAs D.Limit.arms D.Limit.may_leave pair result
            (with_device (side_kind pair) machine Down unarmed 0) }
        ensures count { D.Limit.failures result.disk ≡ D.Limit.failures (disk_of self.replica) }
    {
        let position = self.replica.position();
        self.stop_at(position)
    }

    /// The machine has stopped, and so many events had been acknowledged.
    pub(crate) fn stop_at(self, position: u64) -> DownSide<D>
        ensures rests { (pair : ℕ) (machine : SideMachine)
            → StopsAs pair position (tried_shown self.replica) self.replica machine
            → RestsAs D.Limit.arms D.Limit.may_leave pair result machine }
        ensures count { D.Limit.failures result.disk ≡ D.Limit.failures (disk_of self.replica) }
    {
        let (disk, tried) = self.replica.into_parts();
        DownSide {
            disk: disk.after_stop(),
            position,
            tried,
        }
    }

    /// The side after a call, before which so many events had been acknowledged. Where the machine
    /// stopped in it, nothing comes of the call.
    pub(crate) fn settle(self, position: u64, outcome: SideOutcome) -> SideCall<D>
        ensures { Settles self position outcome result }
    {
        if self.replica.is_cut() {
            SideCall {
                side: SideHost::Down(self.stop_at(position)),
                outcome: SideOutcome::Nothing,
            }
        } else {
            SideCall {
                side: SideHost::Up(self),
                outcome,
            }
        }
    }

    /// The same after a call that added an event, which is acknowledged.
    pub(crate) fn settle_added(self, position: u64) -> SideCall<D>
        ensures { SettlesAdded self position result }
    {
        if self.replica.is_cut() {
            return SideCall {
                side: SideHost::Down(self.stop_at(position)),
                outcome: SideOutcome::Nothing,
            };
        }
        let mut side = self;
        let outcome = match side.replica.take_tried() {
            Some(spelled) => SideOutcome::Acknowledged(spelled),
            None => SideOutcome::Nothing,
        };
        SideCall {
            side: SideHost::Up(side),
            outcome,
        }
    }
}
