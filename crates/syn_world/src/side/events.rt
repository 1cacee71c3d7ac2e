//! A side takes a user's edit, or a request of a session: either may add an event.
ghost use Rattle.std.specs.Prelude.{◌≡◌, ◌≢◌, ℕ};
ghost use Rattle.syn_machine.specs.SideMachine.{SideMachine, UserEdits};
ghost use Rattle.syn_world.specs.declared.outcome.SideOutcome.TheVariants as outcomes;
ghost use Rattle.syn_message.specs.Requests.{request_of};
ghost use Rattle.syn_model.specs.Event.{IsLawfulEvent};
ghost use Rattle.syn_replica.specs.Edits.{event_by};
ghost use Rattle.syn_replica.specs.Replica.{IsHalted, disk_of, position_shown};

use super::{SideAnswer, SideCall, UpSide};
use crate::disk::SimulatedDisk;
use crate::outcome::SideOutcome;
use std::alloc::Global;
use syn_message::Request;
use syn_model::are_bytes;
use syn_path::is_path;
use syn_refusal::Refusal;
use syn_tree::{Edit, is_mode};

impl<D: SimulatedDisk> UpSide<D> {
    ghost use Rattle.syn_world.specs.Sides.{AnswerIsStep, CallIsStep, RunsAs};
    ghost use Rattle.syn_world.specs.Sides.{Settles, SettlesAdded};

    /// The user makes the edit. Refused as an edit of the replica is.
    pub fn edit(self, alloc: Global, user: u32, edit: Edit) -> SideCall<D>
        ensures { (pair : ℕ) (machine : SideMachine) → RunsAs pair self machine
            → CallIsStep pair machine (D.Limit.failures (disk_of self.replica))
            (UserEdits pair machine (event_by user edit)) result }
    {
        if self.replica.is_halted() {
            return self.refused(Refusal::Halted);
        }
        is_lawful(user, &edit);
        self.add(alloc, user, edit)
    }

    /// The edit at a replica that runs.
    fn add(self, alloc: Global, user: u32, edit: Edit) -> SideCall<D>
        requires running { ¬ IsHalted self.replica }
        requires lawful { IsLawfulEvent (event_by user edit) }
        ensures { (pair : ℕ) (machine : SideMachine) → RunsAs pair self machine
            → CallIsStep pair machine (D.Limit.failures (disk_of self.replica))
            (UserEdits pair machine (event_by user edit)) result }
    {
        let mut side = self;
        let position = side.replica.position();
        match side.replica.edit(alloc, user, edit) {
            Ok(_) => side.settle_added(position),
            Err(error) => side.settle(position, SideOutcome::Refused(error.refusal())),
        }
    }

    /// The agent answers the request. Where the machine stops in it, nothing is said.
    pub fn answer(self, alloc: Global, session: u64, request: Request) -> SideAnswer<D>
        ensures { (pair : ℕ) (machine : SideMachine) → RunsAs pair self machine
            → AnswerIsStep pair machine (D.Limit.failures (disk_of self.replica)) session
            (request_of request) result }
    {
        let mut side = self;
        let position = side.replica.position();
        let reply = side
            .agent
            .answer(alloc, &mut side.replica, session, request);
        if side.replica.is_cut() {
            return SideAnswer {
                call: side.settle(position, SideOutcome::Nothing),
                reply: None,
            };
        }
        SideAnswer {
            call: side.settle_since(position),
            reply: Some(reply),
        }
    }

    /// The side after a call that may have added an event.
    fn settle_since(self, position: u64) -> SideCall<D>
        ensures same { position ≡ position_shown self.replica
            → Settles self position outcomes.Nothing result }
        ensures added { position ≢ position_shown self.replica
            → SettlesAdded self position result }
    {
        if position == self.replica.position() {
            self.settle(position, SideOutcome::Nothing)
        } else {
            self.settle_added(position)
        }
    }
}

/// The event of an edit is a lawful one.
fn is_lawful(user: u32, edit: &Edit)
    ensures { IsLawfulEvent (event_by user edit.now) }
{
    let _ = user;
    match edit {
        Edit::Put(path, bytes) => {
            is_path(path);
            are_bytes(bytes.as_slice());
        }
        Edit::MakeDir(path) => is_path(path),
        Edit::Remove(path) => is_path(path),
        Edit::Chmod(path, mode) => {
            is_path(path);
            is_mode(*mode);
        }
    }
}
