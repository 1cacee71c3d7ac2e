//! The steps of the world at one of its machines.
ghost use Rattle.syn_runs.specs.World.{World as ModelWorld, Checkpoint, Fail, Open, Reopen};
ghost use Rattle.syn_runs.specs.World.{Stop};
ghost use Rattle.syn_world.specs.Steps.{machine_of};

use super::Running;
use crate::SimulatedDisk;
use crate::machine::Machine;
use std::alloc::Global;

impl<D: SimulatedDisk> Running<D> {
    ghost use Rattle.syn_world.specs.Failures.{failures_in};
    ghost use Rattle.syn_world.specs.Worlds.{GoesSo, IsRunning, StaysSo};

    /// The machine makes a checkpoint.
    pub(crate) fn checkpoint(
        self,
        alloc: Global,
        machine: Machine,
    ) -> Result<Running<D>, Running<D>>
        ensures { (model : ModelWorld) → IsRunning self model
            → GoesSo model (failures_in self) (Checkpoint (machine_of machine)) result }
    {
        match machine {
            Machine::Side(side) => self.checkpoint_side(alloc, side),
            Machine::Coordinator => self.checkpoint_coordinator(alloc),
        }
    }

    /// The device call of the machine with this number from now on fails, and is not made; at 0
    /// none does.
    pub(crate) fn fail(self, machine: Machine, call: u64) -> Running<D>
        ensures { (model : ModelWorld) → IsRunning self model
            → StaysSo model (failures_in self) (Fail (machine_of machine) call) result }
    {
        match machine {
            Machine::Side(side) => self.fail_side(side, call),
            Machine::Coordinator => self.fail_coordinator(call),
        }
    }

    /// So many device calls of the machine are still made, and it stops after the last of them; at
    /// 0 it stops at once.
    pub(crate) fn stop(self, machine: Machine, calls: u64) -> Running<D>
        ensures { (model : ModelWorld) → IsRunning self model
            → StaysSo model (failures_in self) (Stop (machine_of machine) calls) result }
    {
        match machine {
            Machine::Side(side) => self.stop_side(side, calls),
            Machine::Coordinator => self.stop_coordinator(calls),
        }
    }

    /// The machine is started again, if it is down.
    pub(crate) fn open_machine(
        self,
        alloc: Global,
        machine: Machine,
    ) -> Result<Running<D>, Running<D>>
        ensures { (model : ModelWorld) → IsRunning self model
            → GoesSo model (failures_in self) (Open (machine_of machine)) result }
    {
        match machine {
            Machine::Side(side) => self.open_side(alloc, side),
            Machine::Coordinator => self.open_coordinator(alloc),
        }
    }

    /// The machine opens its own disk again, unless it is down.
    pub(crate) fn reopen(self, alloc: Global, machine: Machine) -> Result<Running<D>, Running<D>>
        ensures { (model : ModelWorld) → IsRunning self model
            → GoesSo model (failures_in self) (Reopen (machine_of machine)) result }
    {
        match machine {
            Machine::Side(side) => self.reopen_side(alloc, side),
            Machine::Coordinator => self.reopen_coordinator(alloc),
        }
    }
}
