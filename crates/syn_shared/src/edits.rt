//! Edits of a shared replica.
ghost use Rattle.std.specs.Prelude.{MatchOption};
ghost use Rattle.syn_replica.specs.Edits.{event_by};
ghost use Rattle.syn_shared.specs.Edits.{Edits};
ghost use Rattle.syn_shared.specs.Refusals.{answer_in};

use crate::error::{SharedError, answered};
use crate::shared::SharedReplica;
use std::alloc::Global;
use std::sync::Wait;
use syn_disk::Disk;
use syn_lock::Pass;
use syn_replica::{Replica, ReplicaError};
use syn_tree::Edit;

impl<D: Disk> SharedReplica<D> {
    ghost use Rattle.syn_shared.specs.Shared.{IsFor, HeldOnce, HeldAfterWait, FoundBusy, IsLater};

    /// Makes the edit if the lock is free, and answers the new position.
    ///
    /// Refused 12 where the lock was taken: nothing was looked at or changed. Otherwise refused as
    /// `Replica::edit` is, with what that leaves.
    pub fn try_edit(
        &self,
        alloc: Global,
        pass: &mut Pass<Replica<D>>,
        user: u32,
        edit: Edit,
    ) -> Result<u64, SharedError>
        requires { IsFor self.now pass.old }
        ensures of { IsFor self.now pass.new }
        ensures held { MatchOption (answer_in result) (FoundBusy pass.old pass.new)
            (λ answer. HeldOnce self.now pass.old pass.new (Edits (event_by user edit) answer)) }
        ensures later { IsLater self.now pass.old pass.new }
    {
        let own = self.own();
        let Ok(mut guard) = pass.try_enter(own) else {
            return Err(SharedError::Busy);
        };
        let answer = guard.edit(alloc, user, edit);
        own.leave(guard);
        answered(answer)
    }

    /// Waits for the lock, makes the edit, and answers the new position.
    ///
    /// Refused as `Replica::edit` is, with what that leaves.
    pub fn edit<R: Wait>(
        &self,
        rt: &R,
        alloc: Global,
        pass: &mut Pass<Replica<D>>,
        user: u32,
        edit: Edit,
    ) -> Result<u64, ReplicaError>
        requires { IsFor self.now pass.old }
        ensures of { IsFor self.now pass.new }
        ensures held { HeldAfterWait self.now pass.old pass.new
            (Edits (event_by user edit) result) }
        ensures later { IsLater self.now pass.old pass.new }
    {
        let own = self.own();
        let mut guard = pass.enter(rt, own);
        let made = guard.edit(alloc, user, edit);
        own.leave(guard);
        made
    }
}
