//! What a folder sees of a shared replica, and puts into it.
ghost use Rattle.std.specs.Prelude.{◌≡◌, map, IfOk, IsErrAnd, None, OnOk, Some};
ghost use Rattle.syn_change.specs.Changes.{AreChanges};
ghost use Rattle.syn_model.specs.History.{History};
ghost use Rattle.syn_model.specs.Refusal.{Refusal, first_cause};
ghost use Rattle.syn_model.specs.Tree.{replace};
ghost use Rattle.syn_replica.specs.Edits.{event_by};
ghost use Rattle.syn_replica.specs.Growth.{IsGrown};
ghost use Rattle.syn_replica.specs.Replica.{Stands, tree_shown};
ghost use Rattle.syn_replica.specs.Causes.{since_causes};
ghost use Rattle.syn_replica.specs.ErrorRefusals.{refusal_of};
ghost use Rattle.syn_tree.specs.Edits.{edit_of};
ghost use Rattle.syn_tree.specs.Nodes.{part_of};
ghost use Rattle.syn_shared.specs.Edits.{Edits};
ghost use Rattle.syn_shared.specs.Parts.{EndsWith, IsSnapshot, Puts, Takes};

use crate::shared::SharedReplica;
use std::alloc::Global;
use std::sync::Wait;
use syn_change::{changes_with, copy_part};
use syn_disk::Disk;
use syn_journal::JournalError;
use syn_lock::Pass;
use syn_path::Path;
use syn_replica::{Replica, ReplicaError};
use syn_tree::{Edit, Node, Tree};

/// What a replica has at one moment.
#[derive(Debug, Drop)]
pub struct Snapshot {
    /// The number of its pair.
    pub pair: u64,
    /// How many events it had.
    pub position: u64,
    /// What they had made.
    pub tree: Tree,
}

impl<D: Disk> SharedReplica<D> {
    ghost use Rattle.syn_shared.specs.Shared.{IsFor, HeldAfterWait, IsLater};

    /// Waits for the lock, and answers what the replica has.
    ///
    /// Refused 10 while the replica is halted, and 11 where memory is refused.
    pub fn snapshot<R: Wait>(
        &self,
        rt: &R,
        alloc: Global,
        pass: &mut Pass<Replica<D>>,
    ) -> Result<Snapshot, ReplicaError>
        requires { IsFor self.now pass.old }
        ensures of { IsFor self.now pass.new }
        ensures held { HeldAfterWait self.now pass.old pass.new (Takes result) }
        ensures later { IsLater self.now pass.old pass.new }
    {
        let own = self.own();
        let guard = pass.enter(rt, own);
        let seen = seen_of(alloc, &guard);
        own.leave(guard);
        seen
    }

    /// Waits for the lock, and makes what the replica has at and below the path what is given, by
    /// edits of the user, or takes it out; and answers the position. What is looked at and what is
    /// written are in one hold: no other event comes between.
    ///
    /// Refused 10 while the replica is halted, 13 where an event touched the path since the
    /// position `since`, 15 where that is below the floor or above the position, 2 where the parent
    /// is no directory, 6 at the root, 7 where the result would pass a limit, and 11 where memory
    /// is refused before the first edit: nothing was changed then. Otherwise it is refused as
    /// `Replica::edit` refuses one of the edits, and those before it stand.
    pub fn put_part<R: Wait>(
        &self,
        rt: &R,
        alloc: Global,
        pass: &mut Pass<Replica<D>>,
        user: u32,
        path: &Path,
        since: u64,
        new: Option<Node>,
    ) -> Result<u64, ReplicaError>
        requires { IsFor self.now pass.old }
        ensures of { IsFor self.now pass.new }
        ensures held { HeldAfterWait self.now pass.old pass.new
            (Puts user path.now since (part_of new) result) }
        ensures later { IsLater self.now pass.old pass.new }
    {
        let own = self.own();
        let mut guard = pass.enter(rt, own);
        let put = put_within(alloc, &mut guard, user, path, since, new);
        own.leave(guard);
        put
    }
}

/// What the replica has. Refused 10 while it is halted, and 11 where memory is refused.
fn seen_of<D: Disk>(alloc: Global, replica: &Replica<D>) -> Result<Snapshot, ReplicaError>
    ensures { IfOk result (IsSnapshot replica.now) }
{
    if replica.is_halted() {
        return Err(ReplicaError::Journal(JournalError::Halted));
    }
    let tree = copy_part(alloc, replica.tree(), &Path::root(alloc))?;
    Ok(Snapshot {
        pair: replica.pair(),
        position: replica.position(),
        tree,
    })
}

/// Puts what is given in the place of what the replica has at and below the path, by edits of the
/// user, unless an event touched the path since. It answers the position.
fn put_within<D: Disk>(
    alloc: Global,
    replica: &mut Replica<D>,
    user: u32,
    path: &Path,
    since: u64,
    new: Option<Node>,
) -> Result<u64, ReplicaError>
    ensures puts { Puts user path.now since (part_of new) result replica.old replica.new }
    ensures grown { IsGrown replica.old replica.new }
{
    let edits = planned_within(alloc, replica, path, since, new)?;
    edit_in_turn(alloc, replica, user, edits)
}

/// The edits that put what is given in the place of what the replica has at and below the path.
///
/// Refused 13 where an event touched the path since, 15 where it is not told, 10 while the replica
/// is halted, and as `changes_with` is.
fn planned_within<D: Disk>(
    alloc: Global,
    replica: &Replica<D>,
    path: &Path,
    since: u64,
    new: Option<Node>,
) -> Result<Vec<Edit>, ReplicaError>
    ensures changes { IfOk result (λ edits. AreChanges (tree_shown replica.now)
        (replace (tree_shown replica.now) path.now (part_of new)) (map edit_of edits.items)) }
    ensures untouched { (history : History) → Stands replica.now history
        → OnOk result (first_cause (since_causes history path.now since) ≡ None) }
    ensures touched { (history : History) (why : Refusal) → Stands replica.now history
        → first_cause (since_causes history path.now since) ≡ Some why
        → IsErrAnd result (λ e. refusal_of e ≡ why) }
{
    // A fetch is refused where the path was touched. Past the end of a part there are no bytes.
    replica.fetch(alloc, path, since, usize::MAX)?;
    Ok(changes_with(alloc, replica.tree(), path, new)?)
}

/// Makes the edits of the user one after the other, and answers the position.
///
/// Refused as `Replica::edit` refuses one of them: those before it stand.
fn edit_in_turn<D: Disk>(
    alloc: Global,
    replica: &mut Replica<D>,
    user: u32,
    edits: Vec<Edit>,
) -> Result<u64, ReplicaError>
    ensures ends { EndsWith replica.old (map (event_by user) edits.items) result replica.new }
    ensures grown { IsGrown replica.old replica.new }
{
    for edit in edits {
        edit_once(alloc, replica, user, edit)?;
    }
    Ok(replica.position())
}

/// Makes the edit of the user, and answers the position. Refused as `Replica::edit` is.
fn edit_once<D: Disk>(
    alloc: Global,
    replica: &mut Replica<D>,
    user: u32,
    edit: Edit,
) -> Result<u64, ReplicaError>
    ensures edits { Edits (event_by user edit) result replica.old replica.new }
    ensures grown { IsGrown replica.old replica.new }
{
    replica.edit(alloc, user, edit)
}
