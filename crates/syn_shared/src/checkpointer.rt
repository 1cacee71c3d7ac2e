//! A step of the checkpointer, which keeps room in the journal and a halted replica running.
ghost use Rattle.std.specs.Prelude.{MatchOption};
ghost use Rattle.syn_shared.specs.Checkpointer.{KeepsUp, ShowsHealth};
ghost use Rattle.syn_shared.specs.Shared.{FoundBusy, HeldOnce, IsFor, IsLater};

use crate::error::SharedError;
use crate::shared::SharedReplica;
use std::alloc::Global;
use syn_disk::Disk;
use syn_lock::Pass;
use syn_replica::Replica;

/// A replica's journal is short where it takes a payload of so many bytes. After the largest image,
/// of 1,603,636 bytes, it takes one of 2,590,649: so a checkpoint makes each journal short.
pub const ROOM_IN_SHORT_JOURNAL: usize = 2_500_000;

/// How much room a replica's journal has, and whether the replica is halted.
#[derive(Clone, Copy, Debug, PartialEq, Eq)]
pub struct JournalHealth {
    /// The length of the longest record payload that its journal still takes, in bytes.
    pub room: usize,
    /// A device call failed, and the replica was not opened again since.
    pub is_halted: bool,
}

/// What a step of the checkpointer did.
#[derive(Clone, Copy, Debug, PartialEq, Eq)]
pub enum UpkeepStep {
    /// The lock was taken, and the replica was not looked at.
    Busy,
    /// There was room, and nothing was done.
    Rested,
    /// There was too little room: what the checkpoint answered.
    Checkpointed(Result<(), SharedError>),
    /// The replica was halted: what the reopening answered.
    Reopened(Result<(), SharedError>),
}

/// The health of the replica's journal, if the lock is free; none where it was taken.
pub fn journal_health<D: Disk>(
    shared: &SharedReplica<D>,
    pass: &mut Pass<Replica<D>>,
) -> Option<JournalHealth>
    requires { IsFor shared.now pass.old }
    ensures of { IsFor shared.now pass.new }
    ensures held { MatchOption result (FoundBusy pass.old pass.new)
        (λ health. HeldOnce shared.now pass.old pass.new (ShowsHealth health)) }
    ensures later { IsLater shared.now pass.old pass.new }
{
    let own = shared.own();
    let Ok(guard) = pass.try_enter(own) else {
        return None;
    };
    let health = JournalHealth {
        room: guard.room(),
        is_halted: guard.is_halted(),
    };
    own.leave(guard);
    Some(health)
}

/// Looks at the replica's journal if the lock is free. Opens a halted replica (10) again, and makes
/// a checkpoint where the journal takes no payload of `least` bytes. Each is done if the lock is
/// still free, in a hold of its own.
pub fn keep_up<D: Disk>(
    alloc: Global,
    shared: &SharedReplica<D>,
    pass: &mut Pass<Replica<D>>,
    least: usize,
) -> UpkeepStep
    requires { IsFor shared.now pass.old }
    ensures of { IsFor shared.now pass.new }
    ensures keeps { KeepsUp shared.now least pass.old pass.new result }
    ensures later { IsLater shared.now pass.old pass.new }
{
    let Some(health) = journal_health(shared, pass) else {
        return UpkeepStep::Busy;
    };
    if health.is_halted {
        return UpkeepStep::Reopened(shared.try_reopen(alloc, pass));
    }
    if health.room < least {
        return UpkeepStep::Checkpointed(shared.try_checkpoint(alloc, pass));
    }
    UpkeepStep::Rested
}
