//! The server: a thread for each connection, and one for the checkpointer.
ghost use Rattle.std.specs.Prelude.{◌≡◌, ◌⊎◌, IfErr};
ghost use Rattle.syn_model.specs.Refusal.{Memory, NoSeat};
ghost use Rattle.syn_refusal.specs.Refusals.{cause_of};

use crate::bell::Bell;
use crate::ending::Ending;
use crate::folder_side::{Companion, FolderSide, FolderThread};
use crate::pauses::Pauses;
use crate::shares::Shares;
use crate::stamping::KeepsMarks;
use log::{Log, info, warn};
use std::alloc::Global;
use std::fs::Files;
use std::marker::Brand;
use std::net::{TcpListener, TcpStream};
use std::sync::Wait;
use std::thread;
use std::thread::{Scope, Threads};
use std::time::{Clock, Duration};
use syn_disk::Disk;
use syn_lock::{Naming, PassPool};
use syn_refusal::Refusal;
use syn_replica::Replica;
use syn_serve::Pause;
use syn_shared::SharedReplica;

/// How many connections a server serves at once.
const WORKERS: usize = 62;

/// Where a journal takes no payload of so many bytes, the checkpointer makes a checkpoint.
const LEAST_ROOM: usize = 1_048_576;

/// How long a server waits after an `accept` that failed, so that it does not turn hot.
const PAUSE_MILLIS: u64 = 100;

/// What a server keeps to.
#[derive(Clone, Copy, Debug, PartialEq, Eq)]
pub struct Bounds {
    /// It ends when so many connections were opened and served; with none, it does not end.
    pub connections: Option<u64>,
    /// It serves at most so many at once, and closes any other.
    pub workers: usize,
    /// It makes a checkpoint where the journal takes no payload of so many bytes.
    pub least_room: usize,
}

/// What the threads of a server share: the replica `S` and pools `P` of its passes, one for workers
/// and one for the checkpointer, among it.
#[derive(Drop)]
pub(crate) struct Service<'a, H, S, P> {
    pub(crate) rt: &'a H,
    pub(crate) alloc: Global,
    pub(crate) shared: &'a S,
    pub(crate) pool: P,
    pub(crate) own_pool: P,
    pub(crate) bell: Bell,
    pub(crate) least_room: usize,
}

/// The service of a replica on a disk `D`; `L` is the name of its lock.
pub(crate) type Server<'a, H, D, L> = Service<'a, H, SharedReplica<D>, PassPool<Replica<D>, L>>;

/// Serves the replica to whoever connects, up to 62 connections at once, until so many were opened
/// and served. With none it serves on. It logs `serving`, and for each connection, by its number
/// from 1, `connection N opened` and `connection N closed`; also `checkpoint G` and `reopened`.
///
/// A connection is closed where a bad frame or message comes, where no pass is left, or where no
/// thread can be made. No other connection is touched by that, nor by one that is slow or silent.
/// An `accept` that fails is logged, and the server goes on.
///
/// Refused 24 where the replica's lock has no pass left for each worker and the checkpointer, and
/// 11 where memory is refused or the checkpointer's thread cannot be made: nobody was served.
/// Passes that were given stay out, also after an Ok.
pub fn serve<H: Threads + Wait + Clock + Log + Sync, D: Disk + Send, G: Pauses>(
    rt: &H,
    alloc: Global,
    shared: &SharedReplica<D>,
    listener: &TcpListener,
    connections: Option<u64>,
    pauses: &G,
) -> Result<(), Refusal>
    ensures { IfErr result (λ why. (cause_of why ≡ NoSeat) ⊎ (cause_of why ≡ Memory)) }
{
    let bounds = Bounds {
        connections,
        workers: WORKERS,
        least_room: LEAST_ROOM,
    };
    serve_within(rt, alloc, shared, listener, bounds, pauses)
}

/// Serves, and keeps a folder the same as the replica meanwhile, by a thread of its own: so it
/// serves up to 61 connections at once. It logs `folder carried into the replica: PATH` and
/// `folder carried into the folder: PATH` for what is carried, and once, as long as it stays so,
/// `folder conflict PATH`, `folder refused NUMBER PATH`, `folder skipped TEXT` for what no replica
/// can have, and `folder refused NUMBER NAME` where nothing is carried, as where the folder is not
/// the one that its marks are of.
///
/// Refused as `serve` is, and 11 where the folder's thread cannot be made, too.
pub fn serve_beside<H, D, G, F, A, K>(
    rt: &H,
    alloc: Global,
    shared: &SharedReplica<D>,
    listener: &TcpListener,
    connections: Option<u64>,
    pauses: &G,
    side: FolderSide<'_, F, A, K>,
) -> Result<(), Refusal>
where
    H: Threads + Wait + Clock + Log + Sync,
    D: Disk + Send,
    G: Pauses,
    F: Files + Sync,
    F::File: Send,
    F::Dir: Send,
    A: Disk + Drop + Send,
    K: KeepsMarks + Drop + Send,
    ensures { IfErr result (λ why. (cause_of why ≡ NoSeat) ⊎ (cause_of why ≡ Memory)) }
{
    let bounds = Bounds {
        connections,
        workers: WORKERS - 1,
        least_room: LEAST_ROOM,
    };
    let ending = Ending::new();
    let companion = FolderThread {
        rt,
        alloc,
        shared,
        side,
        ending: &ending,
    };
    serve_with(
        rt, alloc, shared, listener, bounds, pauses, companion, &ending,
    )
}

/// Serves within these bounds beside the companion, which hears of the end.
///
/// Refused as `serve` is, and 11 where the companion's thread cannot be made, too.
fn serve_with<H, D, G, C>(
    rt: &H,
    alloc: Global,
    shared: &SharedReplica<D>,
    listener: &TcpListener,
    bounds: Bounds,
    pauses: &G,
    companion: C,
    ending: &Ending,
) -> Result<(), Refusal>
where
    H: Threads + Wait + Clock + Log + Sync,
    D: Disk + Send,
    G: Pauses,
    C: Companion + Send + Drop,
    ensures { IfErr result (λ why. (cause_of why ≡ NoSeat) ⊎ (cause_of why ≡ Memory)) }
{
    thread::scope(
        thread::scope_env(),
        rt,
        move |scope|
            ensures { IfErr result (λ why. (cause_of why ≡ NoSeat) ⊎ (cause_of why ≡ Memory)) }
        {
            if !start_companion(scope, companion) {
                return Err(Refusal::Memory);
            }
            let served = serve_within(rt, alloc, shared, listener, bounds, pauses);
            ending.tell(rt);
            served
        },
    )
}

/// Starts the companion. False where no thread can be made for it.
fn start_companion<'s, E, C: Companion + Send + Drop + 's>(
    scope: &Scope<'s, E>,
    companion: C,
) -> bool {
    scope.spawn(move || companion.run()).is_ok()
}

/// Serves with other numbers of connections and workers and other room.
///
/// Refused as `serve` is.
pub fn serve_within<H: Threads + Wait + Clock + Log + Sync, D: Disk + Send, G: Pauses>(
    rt: &H,
    alloc: Global,
    shared: &SharedReplica<D>,
    listener: &TcpListener,
    bounds: Bounds,
    pauses: &G,
) -> Result<(), Refusal>
    ensures { IfErr result (λ why. (cause_of why ≡ NoSeat) ⊎ (cause_of why ≡ Memory)) }
{
    serve_shared::<H, Replica<D>, SharedReplica<D>, G>(rt, alloc, shared, listener, bounds, pauses)
}

/// Gives the lock of a state a name, which the type of its pools carries, and serves the state.
///
/// Refused as `serve` is.
fn serve_shared<H, S, X, G>(
    rt: &H,
    alloc: Global,
    shared: &X,
    listener: &TcpListener,
    bounds: Bounds,
    pauses: &G,
) -> Result<(), Refusal>
where
    H: Threads + Wait + Clock + Log + Sync,
    S: Send,
    X: Shares<S> + Sync,
    G: Pauses,
    ensures { IfErr result (λ why. (cause_of why ≡ NoSeat) ⊎ (cause_of why ≡ Memory)) }
{
    serve_under::<H, S, X, G, Brand>(rt, alloc, shared, listener, bounds, pauses)
}

/// Fills both pools with passes of the lock that `L` names, and starts the threads.
///
/// Refused as `serve` is.
fn serve_under<H, S, X, G, L>(
    rt: &H,
    alloc: Global,
    shared: &X,
    listener: &TcpListener,
    bounds: Bounds,
    pauses: &G,
) -> Result<(), Refusal>
where
    H: Threads + Wait + Clock + Log + Sync,
    S: Send,
    X: Shares<S> + Sync,
    G: Pauses,
    L: Naming<S> + Send + Sync,
    requires { (X.lock_in shared.now ≡ L.lock) × (X.origin_in shared.now ≡ L.origin) }
    ensures { IfErr result (λ why. (cause_of why ≡ NoSeat) ⊎ (cause_of why ≡ Memory)) }
{
    let own_pool = match shared.fill::<L>(alloc, 1) {
        Ok(pool) => pool,
        Err(refused) => return Err(refused.refusal()),
    };
    let pool = match shared.fill::<L>(alloc, passes_for(bounds)) {
        Ok(pool) => pool,
        Err(refused) => return Err(refused.refusal()),
    };
    let server = Service {
        rt,
        alloc,
        shared,
        pool,
        own_pool,
        bell: Bell::new(),
        least_room: bounds.least_room,
    };
    let most = bounds.connections.unwrap_or(u64::MAX);
    if serve_all(rt, &server, &server.bell, listener, most, pauses) {
        Ok(())
    } else {
        Err(Refusal::Memory)
    }
}

/// As many passes as can be drawn at once.
fn passes_for(bounds: Bounds) -> usize {
    match bounds.connections {
        Some(most) => bounds
            .workers
            .min(usize::try_from(most).unwrap_or(usize::MAX)),
        None => bounds.workers,
    }
}

/// What the threads of a server do, each with what they share.
pub(crate) trait Host {
    // A thread may be started.
    ghost is_ready: { Self → Type 0 };

    /// The work of a connection's thread.
    fn work_on<G: Pause + Drop>(&self, stream: TcpStream, number: u64, pause: G)
        requires { is_ready self.now };

    /// The work of the checkpointer's thread.
    fn run_checkpointer(&self)
        requires { is_ready self.now };
}

impl<H, S, X, L> Host for Service<'_, H, X, PassPool<S, L>>
where
    H: Wait + Clock + Log,
    X: Shares<S>,
    L: Naming<S>,
{
    ghost is_ready = { λ s. (X.lock_in s.shared.now ≡ L.lock)
        × (X.origin_in s.shared.now ≡ L.origin) };

    fn work_on<G: Pause + Drop>(&self, stream: TcpStream, number: u64, pause: G) {
        X::work_on(self, stream, number, pause);
    }

    fn run_checkpointer(&self) {
        X::run_checkpointer(self);
    }
}

/// Serves so many connections beside the checkpointer, and joins its thread. False where that
/// thread cannot be made.
fn serve_all<H, T, G>(
    rt: &H,
    server: &T,
    bell: &Bell,
    listener: &TcpListener,
    most: u64,
    pauses: &G,
) -> bool
where
    H: Threads + Wait + Clock + Log + Sync,
    T: Host + Sync,
    G: Pauses,
    requires { T.is_ready server.now }
{
    thread::scope(
        thread::scope_env(),
        rt,
        move |scope|
            requires { T.is_ready server.now }
        {
            if !start_checkpointer(scope, server) {
                return false;
            }
            info!(rt; "serving");
            serve_connections(rt, server, listener, most, pauses);
            bell.end(rt);
            true
        },
    )
}

/// Starts the checkpointer. False where no thread can be made for it.
fn start_checkpointer<'s, E, T: Host + Sync>(scope: &Scope<'s, E>, server: &'s T) -> bool
    requires { T.is_ready server.now }
{
    scope
        .spawn(
            move ||
                requires { T.is_ready server.now }
            { server.run_checkpointer() },
        )
        .is_ok()
}

/// Serves so many connections, and joins the thread of each.
fn serve_connections<H, T, G>(rt: &H, server: &T, listener: &TcpListener, most: u64, pauses: &G)
where
    H: Threads + Wait + Clock + Log + Sync,
    T: Host + Sync,
    G: Pauses,
    requires { T.is_ready server.now }
{
    thread::scope(
        thread::scope_env(),
        rt,
        |scope|
            requires { T.is_ready server.now }
        { open_all(scope, rt, server, listener, most, pauses) },
    );
}

/// Opens so many connections, each with a thread of the scope.
fn open_all<'s, E, H, T, G>(
    scope: &Scope<'s, E>,
    rt: &H,
    server: &'s T,
    listener: &TcpListener,
    most: u64,
    pauses: &G,
)
where
    H: Wait + Clock + Log,
    T: Host + Sync,
    G: Pauses,
    G::Pause: 's,
    requires { T.is_ready server.now }
{
    for index in 0..most {
        let number = index + 1;
        let stream = next_of(rt, listener);
        open(scope, rt, server, stream, number, pauses.pause(number));
    }
}

/// Opens a connection: its worker gets a thread. Where none can be made, it is closed.
fn open<'s, E, H: Log, T: Host + Sync, G: Pause + Send + Drop + 's>(
    scope: &Scope<'s, E>,
    rt: &H,
    server: &'s T,
    stream: TcpStream,
    number: u64,
    pause: G,
)
    requires { T.is_ready server.now }
{
    let _ = stream.set_nodelay(true);
    info!(rt; "connection {number} opened");
    if scope
        .spawn(
            move ||
                requires { T.is_ready server.now }
            { server.work_on(stream, number, pause) },
        )
        .is_err()
    {
        info!(rt; "connection {number} closed");
    }
}

/// The next connection. After an `accept` that fails, as for lack of descriptors, it tries again
/// after a pause.
fn next_of<H: Wait + Clock + Log>(rt: &H, listener: &TcpListener) -> TcpStream {
    for _ in rt.forever() {
        match listener.accept() {
            Ok((stream, _)) => return stream,
            Err(_) => {
                warn!(rt; "accept failed");
                thread::sleep(rt, Duration::from_millis(PAUSE_MILLIS));
            }
        }
    }
    unreachable!()
}
