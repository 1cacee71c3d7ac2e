//! The steps of the world at a side.
ghost use Rattle.std.specs.Prelude.{◌≡◌, ℕ, Some, slice_get};
ghost use Rattle.syn_machine.specs.Network.{Asks};
ghost use Rattle.syn_message.specs.Requests.{request_of};
ghost use Rattle.syn_runs.specs.World.{World as ModelWorld, At, Edits, Checkpoint, Deliver};
ghost use Rattle.syn_runs.specs.World.{Open, Fail, Reopen, Stop};
ghost use Rattle.syn_path.specs.Sides.{which_of};
ghost use Rattle.syn_tree.specs.Edits.{edit_of};

use super::Running;
use crate::{SideAnswer, SimulatedDisk};
use std::alloc::Global;
use syn_message::Request;
use syn_path::Side;
use syn_tree::Edit;

impl<D: SimulatedDisk> Running<D> {
    ghost use Rattle.syn_world.specs.Failures.{failures_in};
    ghost use Rattle.syn_world.specs.Worlds.{GoesSo, IsRunning, StaysSo};

    /// A user makes an edit at a side.
    pub(crate) fn edit(
        self,
        alloc: Global,
        side: Side,
        user: u32,
        edit: Edit,
    ) -> Result<Running<D>, Running<D>>
        ensures { (model : ModelWorld) → IsRunning self model
            → GoesSo model (failures_in self) (Edits (which_of side) user (edit_of edit)) result }
    {
        let mut world = self;
        match side {
            Side::Left => {
                let call = world.left.edit(alloc, user, edit);
                world.left = call.side;
                world.noted(Side::Left, call.outcome)
            }
            Side::Right => {
                let call = world.right.edit(alloc, user, edit);
                world.right = call.side;
                world.noted(Side::Right, call.outcome)
            }
        }
    }

    /// A side makes a checkpoint.
    pub(crate) fn checkpoint_side(self, alloc: Global, side: Side) -> Result<Running<D>, Running<D>>
        ensures { (model : ModelWorld) → IsRunning self model
            → GoesSo model (failures_in self) (Checkpoint (At (which_of side))) result }
    {
        let mut world = self;
        match side {
            Side::Left => {
                let call = world.left.checkpoint(alloc);
                world.left = call.side;
                world.noted(Side::Left, call.outcome)
            }
            Side::Right => {
                let call = world.right.checkpoint(alloc);
                world.right = call.side;
                world.noted(Side::Right, call.outcome)
            }
        }
    }

    /// A side's machine is started again, if it is down.
    pub(crate) fn open_side(self, alloc: Global, side: Side) -> Result<Running<D>, Running<D>>
        ensures { (model : ModelWorld) → IsRunning self model
            → GoesSo model (failures_in self) (Open (At (which_of side))) result }
    {
        let mut world = self;
        match side {
            Side::Left => {
                let call = world.left.open(alloc, world.pair);
                world.left = call.side;
                world.noted(Side::Left, call.outcome)
            }
            Side::Right => {
                let call = world.right.open(alloc, world.pair);
                world.right = call.side;
                world.noted(Side::Right, call.outcome)
            }
        }
    }

    /// A side opens its own disk again, unless its machine is down.
    pub(crate) fn reopen_side(self, alloc: Global, side: Side) -> Result<Running<D>, Running<D>>
        ensures { (model : ModelWorld) → IsRunning self model
            → GoesSo model (failures_in self) (Reopen (At (which_of side))) result }
    {
        let mut world = self;
        match side {
            Side::Left => {
                let call = world.left.reopen(alloc);
                world.left = call.side;
                world.noted(Side::Left, call.outcome)
            }
            Side::Right => {
                let call = world.right.reopen(alloc);
                world.right = call.side;
                world.noted(Side::Right, call.outcome)
            }
        }
    }

    /// The device call of a side with this number from now on fails, and is not made; at 0 none
    /// does.
    pub(crate) fn fail_side(self, side: Side, call: u64) -> Running<D>
        ensures { (model : ModelWorld) → IsRunning self model
            → StaysSo model (failures_in self) (Fail (At (which_of side)) call) result }
    {
        match side {
            Side::Left => Running {
                left: self.left.fail(call),
                ..self
            },
            Side::Right => Running {
                right: self.right.fail(call),
                ..self
            },
        }
    }

    /// So many device calls of a side are still made, and its machine stops after the last of
    /// them; at 0 it stops at once.
    pub(crate) fn stop_side(self, side: Side, calls: u64) -> Running<D>
        ensures { (model : ModelWorld) → IsRunning self model
            → StaysSo model (failures_in self) (Stop (At (which_of side)) calls) result }
    {
        match side {
            Side::Left => Running {
                left: self.left.stop(calls),
                ..self
            },
            Side::Right => Running {
                right: self.right.stop(calls),
                ..self
            },
        }
    }

    /// A request that was sent is delivered to its side.
    pub(crate) fn deliver_request(
        self,
        alloc: Global,
        side: Side,
        session: u64,
        number: u32,
        request: Request,
    ) -> Result<Running<D>, Running<D>>
        ensures { (model : ModelWorld) (message : ℕ) → IsRunning self model
            → slice_get model.sent message
            ≡ Some (Asks (which_of side) session number (request_of request))
            → GoesSo model (failures_in self) (Deliver message) result }
    {
        let mut world = self;
        match side {
            Side::Left => {
                let SideAnswer { call, reply } = world.left.answer(alloc, session, request);
                world.left = call.side;
                world.heard(Side::Left, session, number, reply, call.outcome)
            }
            Side::Right => {
                let SideAnswer { call, reply } = world.right.answer(alloc, session, request);
                world.right = call.side;
                world.heard(Side::Right, session, number, reply, call.outcome)
            }
        }
    }
}
