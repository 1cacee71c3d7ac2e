//! A connection as the work of one worker thread.
ghost use Rattle.std.specs.Prelude.{◌≡◌, None};
ghost use Rattle.syn_serve.specs.Servings.{connection_in, ended_in, pause_in};

use crate::connection::ServerConnection;
use crate::error::ServeError;
use crate::pause::Pause;
use std::alloc::Global;
use std::io::{Read, Write};
use std::sync::Wait;
use syn_disk::Disk;
use syn_lock::Pass;
use syn_replica::Replica;
use syn_shared::{SharedReplica, Work};

/// The serving of one connection, by a worker that has a pass of the pool.
#[derive(Drop)]
pub struct Serving<R, W, G> {
    alloc: Global,
    connection: ServerConnection<R, W>,
    pause: G,
    ended: Option<Result<(), ServeError>>,
}

impl<R, W, G> Serving<R, W, G> {
    /// The connection was not served yet.
    pub fn new(alloc: Global, connection: ServerConnection<R, W>, pause: G) -> Serving<R, W, G>
        ensures connection { connection_in result ≡ connection }
        ensures pause { pause_in result ≡ pause }
        ensures ended { ended_in result ≡ None }
    {
        Serving {
            alloc,
            connection,
            pause,
            ended: None,
        }
    }

    /// How the serving ended, as `ServerConnection::serve` answers; none while no worker took it.
    pub fn ended(&self) -> Option<Result<(), ServeError>>
        ensures { result ≡ ended_in self.now }
    {
        self.ended
    }

    /// The connection and the pause.
    pub fn into_parts(self) -> (ServerConnection<R, W>, G)
        ensures { result ≡ (connection_in self, pause_in self) }
    {
        (self.connection, self.pause)
    }
}

impl<D: Disk, R: Read, W: Write, G: Pause> Work<D> for Serving<R, W, G> {
    ghost use Rattle.syn_serve.specs.States.{state_of};
    ghost use Rattle.syn_serve.specs.Servings.{WasServed, connection_in, ended_in};

    // Until its end, with the pass.
    ghost does = { λ old new. WasServed D D.Disk
        (state_of R.remaining W.contents (connection_in old))
        (state_of R.remaining W.contents (connection_in new)) (ended_in new) };

    fn work<H: Wait>(&mut self, rt: &H, shared: &SharedReplica<D>, pass: &mut Pass<Replica<D>>) {
        let ended = self
            .connection
            .serve(rt, self.alloc, shared, pass, &mut self.pause);
        self.ended = Some(ended);
    }
}
