//! The work of a connection's thread.
ghost use Rattle.std.specs.Prelude.{◌≡◌, IsSomeAnd, None, MatchOption};
ghost use Rattle.syn_daemon.specs.inner.Connections.{WasServedWhole};
ghost use Rattle.syn_lock.specs.Locks.{IsLock};
ghost use Rattle.syn_shared.specs.Shared.{own_of};

use crate::pauses::Ringing;
use crate::server::Server;
use log::{Log, info, warn};
use std::io::{Read, Write};
use std::net::TcpStream;
use std::sync::Wait;
use syn_disk::Disk;
use syn_lock::{NamedPass, Naming};
use syn_replica::Replica;
use syn_serve::{Pause, ServeError, ServerConnection, Serving};
use syn_shared::serve;

/// Serves the connection to its end, where a pass is left, and closes it. The pass is back before
/// the other side can see that.
pub(crate) fn work_on<H, D, L, G>(
    server: &Server<'_, H, D, L>,
    stream: TcpStream,
    number: u64,
    pause: G,
)
where
    H: Wait + Log,
    D: Disk,
    L: Naming<Replica<D>>,
    G: Pause + Drop,
    requires { IsLock L.lock L.origin (own_of server.now.shared.now) }
{
    let drawn = server.pool.draw(server.rt);
    let ended = serve_over(server, drawn, &stream, &stream, pause);
    drop(stream);
    tell_closed(server.rt, number, ended);
}

/// Logs that the connection is closed, after a line that says so where another connection had begun
/// its session.
fn tell_closed<H: Log>(rt: &H, number: u64, ended: Option<Result<(), ServeError>>) {
    if let Some(Err(ServeError::BegunElsewhere)) = ended {
        let why = ServeError::BegunElsewhere.refusal();
        let code = why.number();
        warn!(rt; "connection {number} refused {code} {why}: another one began its session");
    }
    info!(rt; "connection {number} closed");
}

/// Serves what comes from the reader, with the pass that was drawn, and puts the pass back. It
/// answers how that ended, as `ServerConnection::serve` does; none where no pass was drawn.
fn serve_over<H, D, L, R, W, G>(
    server: &Server<'_, H, D, L>,
    drawn: Option<NamedPass<Replica<D>, L>>,
    reader: R,
    writer: W,
    pause: G,
) -> Option<Result<(), ServeError>>
where
    H: Wait,
    D: Disk,
    L: Naming<Replica<D>>,
    R: Read + Drop,
    W: Write + Drop,
    G: Pause + Drop,
    requires { IsLock L.lock L.origin (own_of server.now.shared.now) }
    ensures { MatchOption drawn (result ≡ None) (λ _. IsSomeAnd result
        (WasServedWhole D D.Disk (R.remaining reader) (W.contents writer))) }
{
    let pause = Ringing::new(server.rt, &server.bell, pause);
    let connection = ServerConnection::new(server.alloc, reader, writer);
    let mut serving = Serving::new(server.alloc, connection, pause);
    // Where no memory is left for the pass to go back, it is lost, and the work was done.
    let _ = serve(server.rt, server.shared, &server.pool, drawn, &mut serving);
    serving.ended()
}
