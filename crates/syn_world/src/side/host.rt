//! A side of the world, up or down, and each kind of step.
ghost use Rattle.std.specs.Prelude.{◌≡◌, ℕ, List};
ghost use Rattle.syn_machine.specs.MachineSteps.{Checkpoint, Does, Fail, Open, Reopen, Stop};
ghost use Rattle.syn_machine.specs.SideMachine.{SideMachine, UserEdits, side_kind};
ghost use Rattle.syn_world.specs.declared.outcome.SideOutcome.TheVariants as outcomes;
ghost use Rattle.syn_message.specs.Requests.{request_of};
ghost use Rattle.syn_replica.specs.Keepings.{of_side};
ghost use Rattle.syn_journal.specs.Meaning.{MayBeOf};
ghost use Rattle.syn_replica.specs.Edits.{event_by};

use super::{SideAnswer, SideCall, SideHost};
use crate::disk::SimulatedDisk;
use crate::outcome::SideOutcome;
use std::alloc::Global;
use syn_message::Request;
use syn_tree::Edit;

impl<D: SimulatedDisk> SideHost<D> {
    ghost use Rattle.syn_world.specs.Sides.{AnswerIsStep, CallIsStep, IsHost, IsStep, side_disk};

    /// The user makes the edit, unless the machine is down.
    pub fn edit(self, alloc: Global, user: u32, edit: Edit) -> SideCall<D>
        ensures { (pair : ℕ) (machine : SideMachine) → IsHost pair self machine
            → CallIsStep pair machine (D.Limit.failures (side_disk self))
            (UserEdits pair machine (event_by user edit)) result }
    {
        match self {
            SideHost::Up(side) => side.edit(alloc, user, edit),
            SideHost::Down(side) => SideHost::Down(side).unchanged(),
        }
    }

    /// A request is delivered. A machine that is down takes none.
    pub fn answer(self, alloc: Global, session: u64, request: Request) -> SideAnswer<D>
        ensures { (pair : ℕ) (machine : SideMachine) → IsHost pair self machine
            → AnswerIsStep pair machine (D.Limit.failures (side_disk self)) session
            (request_of request) result }
    {
        match self {
            SideHost::Up(side) => side.answer(alloc, session, request),
            SideHost::Down(side) => SideAnswer {
                call: SideHost::Down(side).unchanged(),
                reply: None,
            },
        }
    }

    /// A checkpoint, unless the machine is down.
    pub fn checkpoint(self, alloc: Global) -> SideCall<D>
        ensures { (pair : ℕ) (machine : SideMachine) → IsHost pair self machine
            → CallIsStep pair machine (D.Limit.failures (side_disk self))
            (Does (side_kind pair) machine Checkpoint) result }
    {
        match self {
            SideHost::Up(side) => side.checkpoint(alloc),
            SideHost::Down(side) => SideHost::Down(side).unchanged(),
        }
    }

    /// The device call with this number from now on fails, and is not made; at 0 none does.
    pub fn fail(self, call: u64) -> SideHost<D>
        ensures { (pair : ℕ) (machine : SideMachine) → IsHost pair self machine
            → IsStep pair machine (D.Limit.failures (side_disk self))
            (Does (side_kind pair) machine (Fail call)) result outcomes.Nothing }
    {
        match self {
            SideHost::Up(side) => SideHost::Up(side.fail(call)),
            SideHost::Down(side) => SideHost::Down(side),
        }
    }

    /// So many device calls are still made, and the machine stops after the last of them; at 0 it
    /// stops at once.
    pub fn stop(self, calls: u64) -> SideHost<D>
        ensures { (pair : ℕ) (machine : SideMachine) → IsHost pair self machine
            → IsStep pair machine (D.Limit.failures (side_disk self))
            (Does (side_kind pair) machine (Stop calls)) result outcomes.Nothing }
    {
        match self {
            SideHost::Up(side) => {
                if calls == 0 {
                    SideHost::Down(side.stop())
                } else {
                    SideHost::Up(side.stop_after(calls))
                }
            }
            SideHost::Down(side) => SideHost::Down(side),
        }
    }

    /// The machine is started again, if it is down.
    pub fn open(self, alloc: Global, pair: u64) -> SideCall<D>
        ensures { (machine : SideMachine) → IsHost pair self machine
            → CallIsStep pair machine (D.Limit.failures (side_disk self))
            (Does (side_kind pair) machine Open) result }
    {
        match self {
            SideHost::Up(side) => SideHost::Up(side).unchanged(),
            SideHost::Down(side) => side.open(alloc, pair),
        }
    }

    /// The replica opens its disk again, unless the machine is down.
    pub fn reopen(self, alloc: Global) -> SideCall<D>
        ensures { (pair : ℕ) (machine : SideMachine) → IsHost pair self machine
            → CallIsStep pair machine (D.Limit.failures (side_disk self))
            (Does (side_kind pair) machine Reopen) result }
    {
        match self {
            SideHost::Up(side) => side.reopen(alloc),
            SideHost::Down(side) => SideHost::Down(side).unchanged(),
        }
    }

    /// The disk, as the last step left it.
    pub fn into_disk(self) -> D
        ensures disk { result ≡ side_disk self }
        ensures left { (pair : ℕ) (machine : SideMachine) → IsHost pair self machine
            → (bytes : List ℕ) → D.Limit.may_leave result bytes
            → MayBeOf (of_side pair) machine.journal bytes }
    {
        match self {
            SideHost::Up(side) => side.replica.into_disk(),
            SideHost::Down(side) => side.disk,
        }
    }

    /// Nothing is done.
    fn unchanged(self) -> SideCall<D>
        ensures side { result.side ≡ self }
        ensures outcome { result.outcome ≡ outcomes.Nothing }
    {
        SideCall {
            side: self,
            outcome: SideOutcome::Nothing,
        }
    }
}
