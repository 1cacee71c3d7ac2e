//! Checkpoints and reopenings of a shared replica.
ghost use Rattle.std.specs.Prelude.{MatchOption};
ghost use Rattle.syn_shared.specs.Refusals.{answer_in};
ghost use Rattle.syn_shared.specs.Upkeep.{Checkpoints, Reopens};

use crate::error::{SharedError, answered};
use crate::shared::SharedReplica;
use std::alloc::Global;
use syn_disk::Disk;
use syn_lock::Pass;
use syn_model::is_long;
use syn_replica::Replica;

impl<D: Disk> SharedReplica<D> {
    ghost use Rattle.syn_shared.specs.Shared.{IsFor, HeldOnce, FoundBusy, IsLater};

    /// Makes a checkpoint if the lock is free.
    ///
    /// Refused 12 where the lock was taken: nothing was looked at or changed. Else refused as
    /// `Replica::checkpoint` is, with what that leaves.
    pub fn try_checkpoint(
        &self,
        alloc: Global,
        pass: &mut Pass<Replica<D>>,
    ) -> Result<(), SharedError>
        requires { IsFor self.now pass.old }
        ensures of { IsFor self.now pass.new }
        ensures held { MatchOption (answer_in result) (FoundBusy pass.old pass.new)
            (λ answer. HeldOnce self.now pass.old pass.new (Checkpoints answer)) }
        ensures later { IsLater self.now pass.old pass.new }
    {
        let own = self.own();
        let Ok(mut guard) = pass.try_enter(own) else {
            return Err(SharedError::Busy);
        };
        is_long(guard.generation());
        let answer = guard.checkpoint(alloc);
        own.leave(guard);
        answered(answer)
    }

    /// Opens the replica's own disk again, if the lock is free. A replica that was halted runs
    /// again for every pass, and an event whose call was refused 9 may come in.
    ///
    /// Refused 12 where the lock was taken: nothing was looked at or changed. Else refused as
    /// `Replica::reopen` is, with what that leaves.
    pub fn try_reopen(&self, alloc: Global, pass: &mut Pass<Replica<D>>) -> Result<(), SharedError>
        requires { IsFor self.now pass.old }
        ensures of { IsFor self.now pass.new }
        ensures held { MatchOption (answer_in result) (FoundBusy pass.old pass.new)
            (λ answer. HeldOnce self.now pass.old pass.new (Reopens answer)) }
        ensures later { IsLater self.now pass.old pass.new }
    {
        let own = self.own();
        let Ok(mut guard) = pass.try_enter(own) else {
            return Err(SharedError::Busy);
        };
        let answer = guard.reopen(alloc);
        own.leave(guard);
        answered(answer)
    }
}
