//! What the servers of two sides say of themselves.

use std::alloc::Global;
use std::io::{self, ErrorKind};
use std::net::{Net, TcpStream};
use syn_command::CommandError;
use syn_daemon::{Sides, reach};
use syn_pair::{KnownSides, LAST_PLACE, SideStatus};
use syn_path::Side;
use syn_sync::SessionWatch;
use syn_user::{SideConnection, UserConnection};

/// The addresses of the servers of both sides, each `HOST:PORT`.
#[derive(Clone, Copy, Debug)]
pub(crate) struct Addresses<'a> {
    pub left: &'a str,
    pub right: &'a str,
}

impl<'a> Addresses<'a> {
    fn of(&self, side: Side) -> &'a str {
        match side {
            Side::Left => self.left,
            Side::Right => self.right,
        }
    }
}

/// What the servers of both sides say of themselves. The watch is told of one that does not answer.
///
/// Refused as `Sides::ask` is, and 20 where a server is of an older version.
pub(crate) fn ask_both<H: Net<Stream = TcpStream>, V: SessionWatch>(
    rt: &H,
    alloc: Global,
    addresses: Addresses<'_>,
    sides: &Sides,
    known: Option<&KnownSides>,
    watch: &mut V,
) -> Result<KnownSides, CommandError> {
    let left = ask(rt, alloc, addresses, sides, Side::Left, known, watch)?;
    let right = ask(rt, alloc, addresses, sides, Side::Right, known, watch)?;
    Ok(KnownSides { left, right })
}

/// The same of one side.
fn ask<H: Net<Stream = TcpStream>, V: SessionWatch>(
    rt: &H,
    alloc: Global,
    addresses: Addresses<'_>,
    sides: &Sides,
    side: Side,
    known: Option<&KnownSides>,
    watch: &mut V,
) -> Result<SideStatus, CommandError> {
    match sides.ask(alloc, side, known) {
        Ok(status) => Ok(status),
        Err(error) => {
            if is_older(rt, alloc, addresses.of(side)) {
                return Err(CommandError::OlderServer(side));
            }
            watch.unreached(side, &io::Error::from(ErrorKind::ConnectionAborted));
            Err(CommandError::from(error))
        }
    }
}

/// Whether the server at the address is of an older version: it answers a listing, and no question
/// about itself. One that answers nothing is asked once, since each question waits a minute.
pub(crate) fn is_older<H: Net<Stream = TcpStream>>(rt: &H, alloc: Global, address: &str) -> bool {
    let Ok(listed) = reach(rt, address) else {
        return false;
    };
    if SideConnection::new(alloc, &listed, &listed)
        .position(alloc)
        .is_err()
    {
        return false;
    }
    let Ok(asked) = reach(rt, address) else {
        return false;
    };
    UserConnection::new(alloc, &asked, &asked)
        .status(alloc, LAST_PLACE)
        .is_err()
}
