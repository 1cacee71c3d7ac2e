//! Workers that take their passes from a pool.
ghost use Rattle.std.specs.Prelude.{◌≡◌, ◌⊎◌, IfErr, MatchOption};
ghost use Rattle.syn_lock.specs.Locks.{IsLock};
ghost use Rattle.syn_shared.specs.Shared.{own_of, IsFor};
ghost use Rattle.syn_shared.specs.Workers.{IsDone, IsNotDone};

use crate::shared::SharedReplica;
use std::alloc::Global;
use std::sync::Wait;
use syn_disk::Disk;
use syn_lock::{LockError, NamedPass, Naming, Pass, PassPool};
use syn_replica::Replica;

/// What a worker does with a pass as long as it has it.
pub trait Work<D: Disk> {
    // `does before after`: how the work goes on by itself.
    ghost does: { Self → Self → Type 0 };

    /// Makes calls on the replica, each with this pass.
    fn work<R: Wait>(&mut self, rt: &R, shared: &SharedReplica<D>, pass: &mut Pass<Replica<D>>)
        requires { IsFor shared.now pass.old }
        ensures of { IsFor shared.now pass.new }
        ensures done { does self.old self.new };
}

/// Passes for so many workers of the replica. `L` names its lock.
///
/// Refused 24 where the lock has not as many passes left, and 11 where memory is refused. Passes
/// that were given by then stay out.
pub fn fill<D: Disk, L: Naming<Replica<D>>>(
    alloc: Global,
    shared: &SharedReplica<D>,
    workers: usize,
) -> Result<PassPool<Replica<D>, L>, LockError>
    requires { IsLock L.lock L.origin (own_of shared.now) }
    ensures refusals { IfErr result (λ e. (e ≡ LockError.NoSeat) ⊎ (e ≡ LockError.Memory)) }
{
    let mut passes = Vec::new(alloc);
    for _ in 0..workers {
        let Ok(pass) = shared.own().pass() else {
            return Err(LockError::NoSeat);
        };
        if passes.push(NamedPass::new(pass)).is_err() {
            return Err(LockError::Memory);
        }
    }
    Ok(PassPool::new(passes))
}

/// One worker, which borrows the replica and the pool: it does its work with the pass that was
/// drawn from the pool, and puts the pass back for the next.
///
/// Refused 24 where none was drawn, and nothing was done. Refused 11 where memory is refused for
/// the pass to go back: the work was done, and the pass is out for good.
pub fn serve<R: Wait, D: Disk, L: Naming<Replica<D>>, W: Work<D>>(
    rt: &R,
    shared: &SharedReplica<D>,
    pool: &PassPool<Replica<D>, L>,
    drawn: Option<NamedPass<Replica<D>, L>>,
    work: &mut W,
) -> Result<(), LockError>
    requires { IsLock L.lock L.origin (own_of shared.now) }
    ensures { MatchOption drawn (IsNotDone work.old work.new result)
        (λ _. IsDone W.does work.old work.new result) }
{
    let Some(named) = drawn else {
        return Err(LockError::NoSeat);
    };
    let mut pass = named.into_pass();
    work.work(rt, shared, &mut pass);
    match pool.put(rt, NamedPass::new(pass)) {
        Ok(()) => Ok(()),
        Err(_lost) => Err(LockError::Memory),
    }
}
