//! A world goes by steps, and comes apart into its disks.
ghost use Rattle.std.specs.Prelude.{◌≡◌, ◌<◌, ◌^◌, ℕ, List, OnErr, OnOk, map, true};
ghost use Rattle.syn_runs.specs.Acknowledged.{Stores};
ghost use Rattle.syn_runs.specs.World.{World as ModelWorld, Step as ModelStep};

use super::{Disks, World};
use crate::SimulatedDisk;
use crate::step::Step;
use std::alloc::{AllocError, Global};

impl<D: SimulatedDisk> World<D> {
    ghost use Rattle.syn_world.specs.Failures.{failures_in};
    ghost use Rattle.syn_promise.specs.Told.{Told};
    ghost use Rattle.syn_world.specs.Headlines.{HasRunAll, MayRun};
    ghost use Rattle.syn_world.specs.Openings.{AreFree, HoldsDisks, StopsDisks};
    ghost use Rattle.syn_world.specs.Promises.{KeepsPromise, LeavePromised};
    ghost use Rattle.syn_world.specs.Runs.{RunsSo, StepsSo};
    ghost use Rattle.syn_world.specs.Steps.{step_of};
    ghost use Rattle.syn_world.specs.Worlds.{AreLeft, HasMachines, IsWorld, is_spent};

    /// Makes a step. It is refused 11 where memory is refused for one of the world's lists, or for
    /// a copy of what the step hands over; the machines may have made it. From then on each step is
    /// refused 11, and changes nothing.
    pub fn step(&mut self, alloc: Global, step: &Step) -> Result<(), AllocError>
        ensures steps { (model : ModelWorld) (is : IsWorld self.old model)
            → StepsSo model (failures_in is.running) (step_of step.now) result self.new }
        ensures spends { OnErr result (is_spent self.new ≡ true) }
        ensures again { is_spent self.old ≡ true → OnOk result ⊥ × (self.new ≡ self.old) }
    {
        if self.is_spent {
            return Err(AllocError);
        }
        let Some(running) = self.running.take() else {
            unreachable!()
        };
        match running.step(alloc, step) {
            Ok(next) => {
                put_back(&mut self.running, next);
                Ok(())
            }
            Err(last) => {
                put_back(&mut self.running, last);
                self.is_spent = true;
                Err(AllocError)
            }
        }
    }

    /// Makes these steps, one after another, until one is refused 11.
    pub(crate) fn go_by(&mut self, alloc: Global, steps: &[Step]) -> Result<(), AllocError>
        ensures { (model : ModelWorld) (is : IsWorld self.old model)
            → RunsSo model (failures_in is.running) (map step_of steps.now) result self.new }
    {
        for step in steps {
            match self.step(alloc, step) {
                Ok(()) => {}
                Err(error) => return Err(error),
            }
        }
        Ok(())
    }

    /// Stops each machine that is up, and gives the three disks.
    pub fn into_disks(self) -> Disks<D>
        ensures stopped { (disks : Disks D) → HoldsDisks self disks
            → StopsDisks D.Limit.may_leave D.Limit.failures disks result }
        ensures left { (model : ModelWorld) → HasMachines self model
            → AreLeft D.Limit.may_leave result model }
        ensures free { (model : ModelWorld) → HasMachines self model
            → AreFree D.Limit.arms result }

        // What the world keeps, its disks do: `recover` opens them, and a world may run from them.
        ensures promised { (pair : ℕ) (before : Stores) (steps : List ModelStep) (told : Told)
            → KeepsPromise pair before steps told self
            → LeavePromised D.Limit.may_leave pair before steps told result }
        ensures again { (pair : ℕ) (disks : Disks D) (before : Stores) (steps : List ModelStep)
            → pair < 2 ^ 64 → HasRunAll pair disks before steps self
            → MayRun D.Limit.seen D.Limit.arms pair result }
    {
        let World {
            running,
            is_spent: _,
        } = self;
        let Some(running) = running else {
            unreachable!()
        };
        running.into_disks()
    }
}

/// What was taken out of the slot is put back.
fn put_back<T>(slot: &mut Option<T>, value: T)
    requires { slot.old ≡ None }
    ensures { slot.new ≡ Some value }
{
    match slot.replace(value) {
        None => {}
        Some(_old) => unreachable!(),
    }
}
