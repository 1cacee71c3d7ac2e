//! Replacements in a shared replica.
ghost use Rattle.std.specs.Prelude.{MatchOption};
ghost use Rattle.syn_history.specs.Events.{token_of};
ghost use Rattle.syn_tree.specs.Nodes.{part_of};
ghost use Rattle.syn_shared.specs.Refusals.{answer_in};
ghost use Rattle.syn_shared.specs.Replacements.{Replaces};

use crate::error::{SharedError, answered};
use crate::shared::SharedReplica;
use std::alloc::Global;
use syn_disk::Disk;
use syn_history::Token;
use syn_lock::Pass;
use syn_path::Path;
use syn_replica::Replica;
use syn_tree::Node;

impl<D: Disk> SharedReplica<D> {
    ghost use Rattle.syn_shared.specs.Shared.{IsFor, HeldOnce, FoundBusy, IsLater};

    /// Puts what is given in the place of all that is at and below the path, or takes it out, if
    /// the lock is free, and answers the position. What is checked and what is written are in one
    /// hold: no event comes between.
    ///
    /// Refused 12 where the lock was taken: nothing was looked at or changed. Otherwise refused as
    /// `Replica::replace` is, with what that leaves.
    pub fn try_replace(
        &self,
        alloc: Global,
        pass: &mut Pass<Replica<D>>,
        token: Token,
        path: &Path,
        since: u64,
        new: Option<Node>,
    ) -> Result<u64, SharedError>
        requires { IsFor self.now pass.old }
        ensures of { IsFor self.now pass.new }
        ensures held { MatchOption (answer_in result) (FoundBusy pass.old pass.new)
            (λ answer. HeldOnce self.now pass.old pass.new
            (Replaces (token_of token) path.now since (part_of new) answer)) }
        ensures later { IsLater self.now pass.old pass.new }
    {
        let own = self.own();
        let Ok(mut guard) = pass.try_enter(own) else {
            return Err(SharedError::Busy);
        };
        let answer = guard.replace(alloc, token, path, since, new);
        own.leave(guard);
        answered(answer)
    }
}
