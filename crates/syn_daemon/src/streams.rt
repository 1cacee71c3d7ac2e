//! Connections to servers, and the two of a session.
ghost use Rattle.std.specs.Prelude.{◌≡◌};

use libc::net::{POLLIN, poll};
use libc::types::pollfd;
use std::io;
use std::net::{Net, TcpStream, ToSocketAddrs};
use std::os::fd::AsRawFd;
use std::time::Duration;
use syn_path::Side;
use syn_sync::Readiness;

/// How long a server that sends nothing is waited for. Then it counts as gone.
const MOST_SECONDS: u16 = 60;

/// A connection to the server at the address, which sends each frame at once, and waits for bytes
/// no longer than a minute.
///
/// Refused as the system refuses it, where the address cannot be resolved or reached, or where the
/// connection cannot be set so.
pub fn reach<H: Net<Stream = TcpStream>, A: ToSocketAddrs>(
    rt: &H,
    address: A,
) -> io::Result<TcpStream> {
    let stream = TcpStream::connect(rt, address)?;
    stream.set_nodelay(true)?;
    stream.set_read_timeout(Some(Duration::from_secs(MOST_SECONDS.into())))?;
    Ok(stream)
}

/// The connections to both sides of a session. The system tells which has something to read.
#[derive(Clone, Copy, Debug)]
pub(crate) struct Streams<'a> {
    pub left: &'a TcpStream,
    pub right: &'a TcpStream,
}

impl<'a> Streams<'a> {
    /// Both connections, to be read.
    pub fn new(left: &'a TcpStream, right: &'a TcpStream) -> Streams<'a>
        ensures left { result.left ≡ left.entry }
        ensures right { result.right ≡ right.entry }
    {
        Streams { left, right }
    }
}

impl Readiness for Streams<'_> {
    fn wait(&mut self) -> Option<Side> {
        let ask = |stream: &TcpStream| pollfd {
            fd: stream.as_raw_fd(),
            events: POLLIN,
            revents: 0,
        };
        let mut asked = [ask(self.left), ask(self.right)];
        if poll(&mut asked, i32::from(MOST_SECONDS) * 1_000) == 0 {
            return None;
        }
        let [left, right] = asked;
        if left.revents == 0 && right.revents != 0 {
            return Some(Side::Right);
        }
        // Where the wait was interrupted neither is known to be ready, and the read waits.
        Some(Side::Left)
    }
}
