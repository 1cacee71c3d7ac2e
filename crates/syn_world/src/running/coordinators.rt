//! The steps of the world at its coordinator.
ghost use Rattle.syn_runs.specs.World.{World as ModelWorld, Checkpoint, Coordinator};
ghost use Rattle.syn_runs.specs.World.{Fail, Stop};

use super::Running;
use crate::SimulatedDisk;
use std::alloc::Global;

impl<D: SimulatedDisk> Running<D> {
    ghost use Rattle.syn_world.specs.Failures.{failures_in};
    ghost use Rattle.syn_world.specs.Worlds.{GoesSo, IsRunning, StaysSo};

    /// The device call of the coordinator with this number from now on fails, and is not made; at 0
    /// none does.
    pub(crate) fn fail_coordinator(self, call: u64) -> Running<D>
        ensures { (model : ModelWorld) → IsRunning self model
            → StaysSo model (failures_in self) (Fail Coordinator call) result }
    {
        Running {
            coordinator: self.coordinator.fail(call),
            ..self
        }
    }

    /// So many device calls of the coordinator are still made, and its machine stops after the
    /// last of them; at 0 it stops at once.
    pub(crate) fn stop_coordinator(self, calls: u64) -> Running<D>
        ensures { (model : ModelWorld) → IsRunning self model
            → StaysSo model (failures_in self) (Stop Coordinator calls) result }
    {
        Running {
            coordinator: self.coordinator.stop(calls),
            ..self
        }
    }

    /// The coordinator makes a checkpoint.
    pub(crate) fn checkpoint_coordinator(self, alloc: Global) -> Result<Running<D>, Running<D>>
        ensures { (model : ModelWorld) → IsRunning self model
            → GoesSo model (failures_in self) (Checkpoint Coordinator) result }
    {
        let mut world = self;
        let call = world.coordinator.checkpoint(alloc);
        world.coordinator = call.coordinator;
        world.told(call.outcome)
    }
}
