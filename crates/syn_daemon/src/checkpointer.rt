//! The checkpointer's thread.
ghost use Rattle.syn_lock.specs.Locks.{IsLock};
ghost use Rattle.syn_shared.specs.Shared.{IsFor, own_of};

use crate::bell::Wake;
use crate::server::Server;
use log::{Log, info, warn};
use std::sync::Wait;
use std::time::Clock;
use syn_disk::Disk;
use syn_lock::{Naming, Pass};
use syn_refusal::Refusal;
use syn_replica::Replica;
use syn_shared::{ROOM_IN_SHORT_JOURNAL, SharedError, SharedReplica, UpkeepStep, keep_up};

/// Makes a step for each ring of the bell, until it is told to end. In a quiet moment after that
/// it makes another one, which leaves the journal short, and so the next opening of the image.
///
/// Where a step finds the lock taken it needs no second try: whoever has the lock is a worker,
/// which rings when it has left, and that ring was not taken up yet.
pub(crate) fn run_checkpointer<H: Wait + Clock + Log, D: Disk, L: Naming<Replica<D>>>(
    server: &Server<'_, H, D, L>,
)
    requires { IsLock L.lock L.origin (own_of server.now.shared.now) }
{
    let Some(named) = server.own_pool.draw(server.rt) else {
        return;
    };
    let mut pass = named.into_pass();
    for _ in server.rt.forever() {
        let least = match server.bell.wait(server.rt) {
            Wake::Answered => server.least_room,
            Wake::Quiet => ROOM_IN_SHORT_JOURNAL,
            Wake::Over => return,
        };
        let step = keep_up(server.alloc, server.shared, &mut pass, least);
        tell(server, &mut pass, step);
    }
}

/// Logs what a step did.
fn tell<H: Wait + Log, D: Disk, L: Naming<Replica<D>>>(
    server: &Server<'_, H, D, L>,
    pass: &mut Pass<Replica<D>>,
    step: UpkeepStep,
)
    requires { IsFor server.now.shared.now pass.old }
    ensures { IsFor server.now.shared.now pass.new }
{
    match step {
        UpkeepStep::Busy => {}
        UpkeepStep::Rested => {}
        UpkeepStep::Checkpointed(Ok(())) => {
            let generation = generation_of(server.rt, server.shared, pass);
            info!(server.rt; "checkpoint {generation}");
        }
        UpkeepStep::Reopened(Ok(())) => info!(server.rt; "reopened"),
        UpkeepStep::Checkpointed(Err(error)) => {
            tell_refused(server.rt, "checkpoint", error);
            // A checkpoint that failed left the replica halted, and nobody else may come to ring.
            if let Refusal::Device = error.refusal() {
                server.bell.ring(server.rt);
            }
        }
        // The next answer rings for another one.
        UpkeepStep::Reopened(Err(error)) => tell_refused(server.rt, "reopening", error),
    }
}

/// Logs a call of this name that was refused, unless the lock was taken (12).
fn tell_refused<H: Log>(rt: &H, name: &str, error: SharedError) {
    match error.refusal() {
        Refusal::Busy => {}
        why => warn!(rt; "{name} refused {} {why}", why.number()),
    }
}

/// The generation of the replica's image.
fn generation_of<H: Wait, D: Disk>(
    rt: &H,
    shared: &SharedReplica<D>,
    pass: &mut Pass<Replica<D>>,
) -> u64
    requires { IsFor shared.now pass.old }
    ensures { IsFor shared.now pass.new }
{
    let own = shared.own();
    let guard = pass.enter(rt, own);
    let generation = guard.generation();
    own.leave(guard);
    generation
}
