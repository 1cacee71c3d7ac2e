//! The sessions of the world's coordinator.
ghost use Rattle.std.specs.Prelude.{◌≡◌, ℕ, Some, option_map, slice_get};
ghost use Rattle.syn_machine.specs.Network.{Answers};
ghost use Rattle.syn_runs.specs.World.{World as ModelWorld, Deliver, Start, Tick};
ghost use Rattle.syn_message.specs.Replies.{reply_of};
ghost use Rattle.syn_path.specs.Sides.{which_of};

use super::Running;
use crate::SimulatedDisk;
use crate::replies::can_be_sent;
use std::alloc::Global;
use syn_message::Reply;
use syn_path::Side;

impl<D: SimulatedDisk> Running<D> {
    ghost use Rattle.syn_world.specs.Failures.{failures_in};
    ghost use Rattle.syn_world.specs.Worlds.{GoesSo, IsRunning};

    /// The coordinator starts a session, which prefers a side or none, unless its machine is down.
    pub(crate) fn start(
        self,
        alloc: Global,
        preference: Option<Side>,
    ) -> Result<Running<D>, Running<D>>
        ensures { (model : ModelWorld) → IsRunning self model
            → GoesSo model (failures_in self) (Start (option_map which_of preference)) result }
    {
        let mut world = self;
        let call = world.coordinator.start(alloc, preference);
        world.coordinator = call.coordinator;
        world.told(call.outcome)
    }

    /// Some time goes by at the coordinator without an answer.
    pub(crate) fn tick(self, alloc: Global) -> Result<Running<D>, Running<D>>
        ensures { (model : ModelWorld) → IsRunning self model
            → GoesSo model (failures_in self) Tick result }
    {
        let mut world = self;
        let call = world.coordinator.tick(alloc);
        world.coordinator = call.coordinator;
        world.told(call.outcome)
    }

    /// An answer that a side gave is delivered to the coordinator, as the list has it.
    pub(crate) fn deliver_reply(
        self,
        alloc: Global,
        from: Side,
        session: u64,
        number: u32,
        reply: Reply,
    ) -> Result<Running<D>, Running<D>>
        ensures { (model : ModelWorld) (message : ℕ) → IsRunning self model
            → slice_get model.sent message
            ≡ Some (Answers (which_of from) session number (reply_of reply))
            → GoesSo model (failures_in self) (Deliver message) result }
    {
        // What no side may say is not in the list.
        if !can_be_sent(&reply) {
            return Ok(self);
        }
        let mut world = self;
        let call = world.coordinator.hear(alloc, from, session, number, reply);
        world.coordinator = call.coordinator;
        world.told(call.outcome)
    }
}
