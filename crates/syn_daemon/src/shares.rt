//! What a server shares among its threads, seen by the state that its lock is over.
//!
//! A lock's name is picked where the state is a parameter of the caller. So the server is written
//! over any state `S`, and only this file knows that it is a replica.
ghost use Rattle.std.specs.Prelude.{◌≡◌, ◌⊎◌, IfErr};
ghost use Rattle.syn_lock.specs.declared.error.LockError.TheVariants as lock;

use crate::server::Service;
use crate::{checkpointer, worker};
use log::Log;
use std::alloc::Global;
use std::net::TcpStream;
use std::sync::Wait;
use std::time::Clock;
use syn_disk::Disk;
use syn_lock::{LockError, Naming, PassPool};
use syn_replica::Replica;
use syn_serve::Pause;
use syn_shared::{SharedReplica, fill};

/// A state `S` under a lock, that a server's threads share.
pub(crate) trait Shares<S>: Sized {
    ghost use Rattle.std.specs.Prelude.{Option};
    ghost use Rattle.atomic_table.specs.Seated.{TableId};

    ghost lock_in: { Self → TableId };

    // The state that was put into the lock.
    ghost origin_in: { Self → Option S };

    /// Passes for so many workers. Refused 24 where the lock has not as many left, and 11 where
    /// memory is refused.
    fn fill<L: Naming<S>>(&self, alloc: Global, workers: usize) -> Result<PassPool<S, L>, LockError>
        requires { (lock_in self.now ≡ L.lock) × (origin_in self.now ≡ L.origin) }
        ensures { IfErr result (λ e. (e ≡ lock.NoSeat) ⊎ (e ≡ lock.Memory)) };

    /// The work of a connection's thread.
    fn work_on<H: Wait + Log, L: Naming<S>, G: Pause + Drop>(
        service: &Service<'_, H, Self, PassPool<S, L>>,
        stream: TcpStream,
        number: u64,
        pause: G,
    )
        requires { (lock_in service.now.shared.now ≡ L.lock)
            × (origin_in service.now.shared.now ≡ L.origin) };

    /// The work of the checkpointer's thread.
    fn run_checkpointer<H: Wait + Clock + Log, L: Naming<S>>(
        service: &Service<'_, H, Self, PassPool<S, L>>,
    )
        requires { (lock_in service.now.shared.now ≡ L.lock)
            × (origin_in service.now.shared.now ≡ L.origin) };
}

impl<D: Disk> Shares<Replica<D>> for SharedReplica<D> {
    ghost use Rattle.std.specs.Prelude.{Some};
    ghost use Rattle.syn_lock.specs.Locks.{id_of, origin_of};
    ghost use Rattle.syn_shared.specs.Shared.{own_of};

    ghost lock_in = { λ shared. id_of (own_of shared) };

    ghost origin_in = { λ shared. Some (origin_of (own_of shared)) };

    fn fill<L: Naming<Replica<D>>>(
        &self,
        alloc: Global,
        workers: usize,
    ) -> Result<PassPool<Replica<D>, L>, LockError> {
        fill::<D, L>(alloc, self, workers)
    }

    fn work_on<H: Wait + Log, L: Naming<Replica<D>>, G: Pause + Drop>(
        service: &Service<'_, H, SharedReplica<D>, PassPool<Replica<D>, L>>,
        stream: TcpStream,
        number: u64,
        pause: G,
    ) {
        worker::work_on(service, stream, number, pause);
    }

    fn run_checkpointer<H: Wait + Clock + Log, L: Naming<Replica<D>>>(
        service: &Service<'_, H, SharedReplica<D>, PassPool<Replica<D>, L>>,
    ) {
        checkpointer::run_checkpointer(service);
    }
}
