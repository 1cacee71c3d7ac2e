//! Sessions over connections to servers.
ghost use Rattle.std.specs.Prelude.{◌≡◌, ℕ, false, option_map, IfErr, OnOk};
ghost use Rattle.syn_path.specs.Sides.{which_of};
ghost use Rattle.syn_daemon.specs.Sessions.{BelongTo, DrivesSession, RefusesRun};
ghost use Rattle.syn_daemon.specs.inner.Started.{RunsSession};
ghost use Rattle.syn_disk.specs.Arms.{is_stopped};
ghost use Rattle.syn_machine.specs.Coordinator.{CoordinatorMachine};
ghost use Rattle.syn_refusal.specs.Refusals.{cause_of};
ghost use Rattle.syn_coordinator.specs.Coordinators.{Stands, archive_of, device_of, runs};
ghost use Rattle.syn_sync.specs.Refusals.{Refuses};

use crate::pauses::Pauses;
use crate::server::serve;
use crate::sides::Sides;
use crate::streams::{Streams, reach};
use log::{Log, warn};
use std::alloc::Global;
use std::net::{Net, OpenListener, TcpListener, TcpStream};
use std::sync::Wait;
use std::thread::{Scope, Threads};
use std::time::Clock;
use std::{io, thread};
use syn_coordinator::Coordinator;
use syn_disk::Disk;
use syn_pair::Belonging;
use syn_path::Side;
use syn_refusal::Refusal;
use syn_shared::SharedReplica;
use syn_sync::{Driver, SessionConnection, SessionWatch};

/// Drives one session, which prefers a side or none, with the servers of both sides, which belong
/// to the archive. The coordinator has the report.
///
/// Refused as `Driver::run` is.
pub fn sync<C: Disk, V: SessionWatch>(
    alloc: Global,
    coordinator: &mut Coordinator<C>,
    sides: &Sides,
    belonging: Belonging,
    preference: Option<Side>,
    watch: &mut V,
) -> Result<(), Refusal>
    requires { BelongTo (archive_of coordinator.old) belonging }
    ensures drives { (pair : ℕ) (machine : CoordinatorMachine)
        → Stands coordinator.old pair machine
        → DrivesSession (option_map which_of preference) coordinator.new pair machine result }
    ensures refused { (pair : ℕ) (machine : CoordinatorMachine)
        → Stands coordinator.old pair machine
        → IfErr result (λ why. Refuses coordinator.old coordinator.new pair machine
        (cause_of why)) }
    ensures ended { OnOk result (runs coordinator.new ≡ false) }
    ensures goes { OnOk result (is_stopped (C.Disk.arms (device_of coordinator.new)) ≡ false) }
{
    drop(belonging);
    drive(alloc, coordinator, sides.streams(), preference, watch)
}

/// Serves both replicas, which belong to the archive, on loopback ports that the system picks,
/// drives one session with the two servers, closes the connections and joins all threads. The
/// coordinator comes back, with the report.
///
/// Refused 9 where a port cannot be bound or reached, and 11 where the thread of a server cannot
/// be made: no session runs then. Else refused as `Driver::run` is. Where a server is refused, its
/// side closes, and the session is given up.
pub fn run<H, D, C, G, K, V>(
    rt: &H,
    alloc: Global,
    left: &SharedReplica<D>,
    right: &SharedReplica<D>,
    coordinator: Coordinator<C>,
    belonging: Belonging,
    left_pauses: &G,
    right_pauses: &K,
    preference: Option<Side>,
    watch: &mut V,
) -> (Coordinator<C>, Result<(), Refusal>)
where
    H: Net<Listener = TcpListener, Stream = TcpStream> + Threads + Wait + Clock + Log + Sync,
    D: Disk + Send,
    C: Disk + Drop,
    G: Pauses + Sync,
    K: Pauses + Sync,
    V: SessionWatch,
    requires { BelongTo (archive_of coordinator) belonging }
    ensures drives { (pair : ℕ) (machine : CoordinatorMachine) → Stands coordinator pair machine
        → DrivesSession (option_map which_of preference) result.0 pair machine result.1 }
    ensures refused { (pair : ℕ) (machine : CoordinatorMachine) → Stands coordinator pair machine
        → IfErr result.1 (λ why. RefusesRun coordinator result.0 pair machine (cause_of why)) }
    ensures ended { OnOk result.1 (runs result.0 ≡ false) }
    ensures goes { OnOk result.1 (is_stopped (C.Disk.arms (device_of result.0)) ≡ false) }
{
    drop(belonging);
    let Ok((left_port, left_line)) = open_port(rt) else {
        return (coordinator, Err(Refusal::Device));
    };
    let Ok((right_port, right_line)) = open_port(rt) else {
        return (coordinator, Err(Refusal::Device));
    };
    thread::scope(
        thread::scope_env(),
        rt,
        move |scope| -> (Coordinator<C>, Result<(), Refusal>)
            ensures { RunsSession (option_map which_of preference) coordinator result.0 result.1 }
        {
            let started = start(scope, rt, alloc, left, left_port, left_pauses)
                && start(scope, rt, alloc, right, right_port, right_pauses);
            drive_started(
                alloc,
                coordinator,
                left_line,
                right_line,
                started,
                preference,
                watch,
            )
        },
    )
}

/// Starts the server of a side, for one connection. False where no thread can be made for it.
fn start<'s, E, H, D, G>(
    scope: &Scope<'s, E>,
    rt: &'s H,
    alloc: Global,
    shared: &'s SharedReplica<D>,
    listener: TcpListener,
    pauses: &'s G,
) -> bool
where
    H: Threads + Wait + Clock + Log + Sync,
    D: Disk + Send,
    G: Pauses + Sync,
{
    scope
        .spawn(move || serve_one(rt, alloc, shared, listener, pauses))
        .is_ok()
}

/// Serves one connection, and closes the port. A connection that was not accepted is closed by
/// that, so nobody waits for a server that is refused.
fn serve_one<H, D, G>(
    rt: &H,
    alloc: Global,
    shared: &SharedReplica<D>,
    listener: TcpListener,
    pauses: &G,
)
where
    H: Threads + Wait + Clock + Log + Sync,
    D: Disk + Send,
    G: Pauses + Sync,
{
    if let Err(why) = serve(rt, alloc, shared, &listener, Some(1), pauses) {
        warn!(rt; "server refused {} {why}", why.number());
    }
}

/// Drives a session where both servers were started, and closes the connections.
fn drive_started<C: Disk, V: SessionWatch>(
    alloc: Global,
    mut coordinator: Coordinator<C>,
    left: TcpStream,
    right: TcpStream,
    started: bool,
    preference: Option<Side>,
    watch: &mut V,
) -> (Coordinator<C>, Result<(), Refusal>)
    ensures { RunsSession (option_map which_of preference) coordinator result.0 result.1 }
{
    if !started {
        return (coordinator, Err(Refusal::Memory));
    }
    let streams = Streams::new(&left, &right);
    let driven = drive(alloc, &mut coordinator, streams, preference, watch);
    (coordinator, driven)
}

/// Drives one session over the two connections.
fn drive<C: Disk, V: SessionWatch>(
    alloc: Global,
    coordinator: &mut Coordinator<C>,
    mut streams: Streams<'_>,
    preference: Option<Side>,
    watch: &mut V,
) -> Result<(), Refusal>
    ensures drives { (pair : ℕ) (machine : CoordinatorMachine)
        → Stands coordinator.old pair machine
        → DrivesSession (option_map which_of preference) coordinator.new pair machine result }
    ensures refused { (pair : ℕ) (machine : CoordinatorMachine)
        → Stands coordinator.old pair machine
        → IfErr result (λ why. Refuses coordinator.old coordinator.new pair machine
        (cause_of why)) }
    ensures ended { OnOk result (runs coordinator.new ≡ false) }
    ensures goes { OnOk result (is_stopped (C.Disk.arms (device_of coordinator.new)) ≡ false) }
{
    let left = SessionConnection::new(alloc, streams.left, streams.left);
    let right = SessionConnection::new(alloc, streams.right, streams.right);
    Driver::new(left, right).run(alloc, coordinator, preference, &mut streams, watch)
}

/// A port of this machine alone that the system picks, with a connection to it that waits to be
/// accepted. Refused as the system refuses it, where that cannot be had.
fn open_port<H: Net<Listener = TcpListener, Stream = TcpStream>>(
    rt: &H,
) -> io::Result<(TcpListener, TcpStream)> {
    let listener = TcpListener::bind(rt, "127.0.0.1:0")?;
    let stream = reach(rt, listener.local_addr()?)?;
    Ok((listener, stream))
}
