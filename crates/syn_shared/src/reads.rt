//! What is read of a shared replica.
ghost use Rattle.std.specs.Prelude.{MatchOption};
ghost use Rattle.syn_shared.specs.Reads.{Gets, Lists, ListsMarks, Tells};
ghost use Rattle.syn_shared.specs.Refusals.{answer_in};

use crate::error::{SharedError, answered};
use crate::laws::limit_laws;
use crate::shared::SharedReplica;
use std::alloc::Global;
use std::sync::Wait;
use syn_disk::Disk;
use syn_history::ReplicaStatus;
use syn_lock::Pass;
use syn_path::{Name, Path};
use syn_replica::{Listing, Replica, ReplicaError};
use syn_tree::Content;

impl<D: Disk> SharedReplica<D> {
    ghost use Rattle.syn_shared.specs.Shared.{IsFor, HeldOnce, HeldAfterWait, FoundBusy, IsLater};

    /// What stands at the path, if the lock is free.
    ///
    /// Refused 12 where the lock was taken. Otherwise refused 10 while the replica is halted, 5
    /// where nothing is there, and 11 where memory is refused.
    pub fn try_get(
        &self,
        alloc: Global,
        pass: &mut Pass<Replica<D>>,
        path: &Path,
    ) -> Result<Content, SharedError>
        requires { IsFor self.now pass.old }
        ensures of { IsFor self.now pass.new }
        ensures held { MatchOption (answer_in result) (FoundBusy pass.old pass.new)
            (λ answer. HeldOnce self.now pass.old pass.new (Gets path.now answer)) }
        ensures later { IsLater self.now pass.old pass.new }
    {
        let own = self.own();
        let Ok(guard) = pass.try_enter(own) else {
            return Err(SharedError::Busy);
        };
        limit_laws(&guard);
        let answer = guard.get(alloc, path);
        own.leave(guard);
        answered(answer)
    }

    /// The names of the directory in byte order, with true for a directory, if the lock is free.
    ///
    /// Refused 12 where the lock was taken. Otherwise refused 10 while the replica is halted, 5
    /// where no directory is there, and 11 where memory is refused.
    pub fn try_list(
        &self,
        alloc: Global,
        pass: &mut Pass<Replica<D>>,
        path: &Path,
    ) -> Result<Vec<(Name, bool)>, SharedError>
        requires { IsFor self.now pass.old }
        ensures of { IsFor self.now pass.new }
        ensures held { MatchOption (answer_in result) (FoundBusy pass.old pass.new)
            (λ answer. HeldOnce self.now pass.old pass.new (Lists path.now answer)) }
        ensures later { IsLater self.now pass.old pass.new }
    {
        let own = self.own();
        let Ok(guard) = pass.try_enter(own) else {
            return Err(SharedError::Busy);
        };
        let answer = guard.list(alloc, path);
        own.leave(guard);
        answered(answer)
    }

    /// The marks of what stands in the directory, with the position, if the lock is free.
    ///
    /// Refused 12 where the lock was taken. Otherwise refused 10 while the replica is halted, 5
    /// where no directory is there, and 11 where memory is refused.
    pub fn try_listing(
        &self,
        alloc: Global,
        pass: &mut Pass<Replica<D>>,
        path: &Path,
    ) -> Result<Listing, SharedError>
        requires { IsFor self.now pass.old }
        ensures of { IsFor self.now pass.new }
        ensures held { MatchOption (answer_in result) (FoundBusy pass.old pass.new)
            (λ answer. HeldOnce self.now pass.old pass.new (ListsMarks path.now answer)) }
        ensures later { IsLater self.now pass.old pass.new }
    {
        let own = self.own();
        let Ok(guard) = pass.try_enter(own) else {
            return Err(SharedError::Busy);
        };
        let answer = guard.listing(alloc, path);
        own.leave(guard);
        answered(answer)
    }

    /// Waits for the lock, and answers what stands at the path.
    ///
    /// Refused 10 while the replica is halted, 5 where nothing is there, and 11 where memory is
    /// refused.
    pub fn get<R: Wait>(
        &self,
        rt: &R,
        alloc: Global,
        pass: &mut Pass<Replica<D>>,
        path: &Path,
    ) -> Result<Content, ReplicaError>
        requires { IsFor self.now pass.old }
        ensures of { IsFor self.now pass.new }
        ensures held { HeldAfterWait self.now pass.old pass.new (Gets path.now result) }
        ensures later { IsLater self.now pass.old pass.new }
    {
        let own = self.own();
        let guard = pass.enter(rt, own);
        limit_laws(&guard);
        let content = guard.get(alloc, path);
        own.leave(guard);
        content
    }

    /// Waits for the lock, and answers where the replica is in its history, with the path that the
    /// event at the place touched. The greatest number asks for the last touch. It is told also
    /// while the replica is halted.
    ///
    /// Refused 11 where memory is refused, and for no other cause.
    pub fn status<R: Wait>(
        &self,
        rt: &R,
        alloc: Global,
        pass: &mut Pass<Replica<D>>,
        place: u64,
    ) -> Result<ReplicaStatus, ReplicaError>
        requires { IsFor self.now pass.old }
        ensures of { IsFor self.now pass.new }
        ensures held { HeldAfterWait self.now pass.old pass.new (Tells place result) }
        ensures later { IsLater self.now pass.old pass.new }
    {
        let own = self.own();
        let guard = pass.enter(rt, own);
        let status = guard.status(alloc, place);
        own.leave(guard);
        status
    }
}
