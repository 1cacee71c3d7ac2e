//! A checkpoint of a side.
ghost use Rattle.std.specs.Prelude.{◌<◌, ◌+◌, ◌^◌, ℕ};
ghost use Rattle.syn_machine.specs.MachineSteps.{Checkpoint, Does};
ghost use Rattle.syn_machine.specs.SideMachine.{SideMachine, side_kind};
ghost use Rattle.syn_replica.specs.Replica.{IsHalted, disk_of, generation_shown};

use super::{SideCall, SideHost, UpSide};
use crate::disk::SimulatedDisk;
use crate::outcome::SideOutcome;
use std::alloc::Global;
use syn_refusal::Refusal;

impl<D: SimulatedDisk> UpSide<D> {
    ghost use Rattle.syn_world.specs.Sides.{CallIsStep, IsRefused, RunsAs};

    /// The side's journal is written anew as one image.
    ///
    /// Refused 10 while the replica is halted, 7 where its generation is the greatest, 11 where
    /// memory is refused, and 9 where a device call fails.
    pub fn checkpoint(self, alloc: Global) -> SideCall<D>
        ensures { (pair : ℕ) (machine : SideMachine) → RunsAs pair self machine
            → CallIsStep pair machine (D.Limit.failures (disk_of self.replica))
            (Does (side_kind pair) machine Checkpoint) result }
    {
        if self.replica.is_halted() {
            return self.refused(Refusal::Halted);
        }
        if self.replica.generation() == u64::MAX {
            return self.refused(Refusal::Full);
        }
        self.compact(alloc)
    }

    /// The checkpoint of a replica that runs, where its generation is not the greatest.
    fn compact(self, alloc: Global) -> SideCall<D>
        requires running { ¬ IsHalted self.replica }
        requires less { generation_shown self.replica + 1 < 2 ^ 64 }
        ensures { (pair : ℕ) (machine : SideMachine) → RunsAs pair self machine
            → CallIsStep pair machine (D.Limit.failures (disk_of self.replica))
            (Does (side_kind pair) machine Checkpoint) result }
    {
        let mut side = self;
        let position = side.replica.position();
        match side.replica.checkpoint(alloc) {
            Ok(()) => side.settle(position, SideOutcome::Nothing),
            Err(error) => side.settle(position, SideOutcome::Refused(error.refusal())),
        }
    }

    /// The side as it was, and a refusal.
    pub(crate) fn refused(self, refusal: Refusal) -> SideCall<D>
        ensures { IsRefused self refusal result }
    {
        SideCall {
            side: SideHost::Up(self),
            outcome: SideOutcome::Refused(refusal),
        }
    }
}
