//! The machines of a world go by a step.
ghost use Rattle.syn_runs.specs.World.{World as ModelWorld};
ghost use Rattle.syn_world.specs.Steps.{step_of};

use super::Running;
use crate::SimulatedDisk;
use crate::step::Step;
use std::alloc::Global;

impl<D: SimulatedDisk> Running<D> {
    ghost use Rattle.syn_world.specs.Runs.{Attempts};
    ghost use Rattle.syn_world.specs.Failures.{failures_in};
    ghost use Rattle.syn_world.specs.Worlds.{IsRunning};

    /// The machines after a step. They are the error where memory is refused for one of the
    /// world's lists, or for a copy of what the step hands over.
    pub(crate) fn step(self, alloc: Global, step: &Step) -> Result<Running<D>, Running<D>>
        ensures { (model : ModelWorld) → IsRunning self model
            → Attempts model (failures_in self) (step_of step.now) result }
    {
        match step {
            Step::Edit(side, user, edit) => match edit.copy(alloc) {
                Ok(edit) => self.edit(alloc, *side, *user, edit),
                Err(_) => Err(self),
            },
            Step::Start(preference) => self.start(alloc, *preference),
            Step::Deliver(message) => self.deliver(alloc, *message),
            Step::Tick => self.tick(alloc),
            Step::Checkpoint(machine) => self.checkpoint(alloc, *machine),
            Step::Fail(machine, call) => Ok(self.fail(*machine, *call)),
            Step::Stop(machine, calls) => Ok(self.stop(*machine, *calls)),
            Step::Open(machine) => self.open_machine(alloc, *machine),
            Step::Reopen(machine) => self.reopen(alloc, *machine),
        }
    }
}
