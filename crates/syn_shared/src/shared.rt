//! A replica under a lock.
ghost use Rattle.std.specs.Prelude.{◌≡◌, ◌≤◌, IfOk, IfErr, None};
ghost use Rattle.syn_lock.specs.History.{end_of};
ghost use Rattle.syn_lock.specs.Locks.{origin_of};
ghost use Rattle.syn_lock.specs.Passes.{view_of};
ghost use Rattle.syn_lock.specs.Views.{LooksAt};
ghost use Rattle.syn_replica.specs.Growth.{IsGrown};
ghost use Rattle.syn_replica.specs.Replica.{position_shown};

use std::alloc::Global;
use syn_disk::Disk;
use syn_history::Identity;
use syn_lock::{LockError, Own, Pass, Refused};
use syn_replica::Replica;

/// A replica that threads share. Each caller has a pass of its lock, which is drawn from `own`.
///
/// All passes see one history of holds. Each call finds the replica at the end of such a history,
/// which begins with all that its pass had seen.
#[derive(Drop)]
pub struct SharedReplica<D: Disk> {
    own: Own<Replica<D>>,
    /// What the replica's disk is known by, where that was told.
    identity: Option<Identity>,
}

impl<D: Disk> SharedReplica<D> {
    ghost use Rattle.syn_shared.specs.Shared.{own_of, identity_of, IsFor};

    /// The replica under a lock that is free, without an identity. Where memory is wanting (11),
    /// the replica comes back.
    pub fn new(alloc: Global, replica: Replica<D>) -> Result<SharedReplica<D>, Refused<Replica<D>>>
        ensures ok { IfOk result (λ shared. origin_of (own_of shared) ≡ replica) }
        ensures identity { IfOk result (λ shared. identity_of shared ≡ None) }
        ensures err { IfErr result (λ refused. (refused.error ≡ LockError.Memory)
            × (refused.value ≡ replica)) }
    {
        match Own::new(alloc, replica) {
            Ok(own) => Ok(SharedReplica {
                own,
                identity: None,
            }),
            Err(refused) => Err(refused),
        }
    }

    /// The same under the same lock, whose disk is known by the identity.
    pub fn with_identity(self, identity: Option<Identity>) -> SharedReplica<D>
        ensures lock { own_of result ≡ own_of self }
        ensures identity { identity_of result ≡ identity }
    {
        SharedReplica {
            own: self.own,
            identity,
        }
    }

    /// What the replica's disk is known by, where that was told.
    pub fn identity(&self) -> Option<Identity>
        ensures { result ≡ identity_of self.now }
    {
        self.identity
    }

    /// The lock, which gives out passes.
    pub fn own(&self) -> &Own<Replica<D>>
        ensures { result.now ≡ own_of self.now }
    {
        &self.own
    }

    /// The lock. Its `close` gives the replica back.
    pub fn into_own(self) -> Own<Replica<D>>
        ensures { result ≡ own_of self }
    {
        self.own
    }

    /// The position of the replica that was left last. It is not below any that the pass had seen.
    pub fn position(&self, pass: &mut Pass<Replica<D>>) -> u64
        requires { IsFor self.now pass.old }
        ensures of { IsFor self.now pass.new }
        ensures seen { LooksAt IsGrown (origin_of (own_of self.now)) (view_of pass.old)
            (view_of pass.new) }
        ensures position { result ≡ position_shown
            (end_of (origin_of (own_of self.now)) (view_of pass.new).seen) }
        ensures later { position_shown
            (end_of (origin_of (own_of self.now)) (view_of pass.old).seen) ≤ result }
    {
        self.own.position(pass)
    }
}
