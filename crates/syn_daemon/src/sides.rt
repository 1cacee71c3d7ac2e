//! The servers of both sides: reached, asked where they are in their histories, and then driven.

use crate::streams::{Streams, reach};
use std::alloc::Global;
use std::net::{Net, TcpStream};
use syn_pair::{KnownSides, LAST_PLACE, SideStatus};
use syn_path::Side;
use syn_refusal::Refusal;
use syn_sync::SessionWatch;
use syn_user::{UserConnection, UserError};

/// Connections to the servers of both sides. A session goes over those over which the sides have
/// answered that they belong together, so that no other image can come in between.
#[derive(Drop)]
pub struct Sides {
    left: TcpStream,
    right: TcpStream,
}

impl Sides {
    /// Connections to the servers at these addresses, each `HOST:PORT`. The watch is told of a side
    /// that cannot be reached.
    ///
    /// Refused 9 where an address cannot be resolved or reached, and 12 where both are of one
    /// server.
    pub fn reach<H: Net<Stream = TcpStream>, V: SessionWatch>(
        rt: &H,
        left: &str,
        right: &str,
        watch: &mut V,
    ) -> Result<Sides, Refusal> {
        let left = reach_side(rt, left, Side::Left, watch)?;
        let right = reach_side(rt, right, Side::Right, watch)?;
        if are_of_one(&left, &right) {
            return Err(Refusal::Busy);
        }
        Ok(Sides { left, right })
    }

    /// The connection to the left server.
    pub fn left(&self) -> &TcpStream {
        &self.left
    }

    /// The connection to the right server.
    pub fn right(&self) -> &TcpStream {
        &self.right
    }

    /// What the side answers of itself: who it is, where it is in its history, and which path its
    /// event at the known place touched. Where nothing is known, it is asked about its last touch.
    ///
    /// Refused as `UserConnection::status` is.
    pub fn ask(
        &self,
        alloc: Global,
        side: Side,
        known: Option<&KnownSides>,
    ) -> Result<SideStatus, UserError> {
        let stream = match side {
            Side::Left => &self.left,
            Side::Right => &self.right,
        };
        let mut connection = UserConnection::new(alloc, stream, stream);
        let (identity, status) = connection.status(alloc, LAST_PLACE)?;
        let Some(known) = known else {
            return Ok(SideStatus { identity, status });
        };
        let place = known.entry_for(side, identity).status.place;
        let (identity, status) = connection.status(alloc, place)?;
        Ok(SideStatus { identity, status })
    }

    /// Both connections, to be driven.
    pub(crate) fn streams(&self) -> Streams<'_> {
        Streams::new(&self.left, &self.right)
    }
}

/// A connection to the server of a side. Where it cannot be reached, that is told.
fn reach_side<H: Net<Stream = TcpStream>, V: SessionWatch>(
    rt: &H,
    address: &str,
    side: Side,
    watch: &mut V,
) -> Result<TcpStream, Refusal> {
    match reach(rt, address) {
        Ok(stream) => Ok(stream),
        Err(error) => {
            watch.unreached(side, &error);
            Err(Refusal::Device)
        }
    }
}

/// Whether both connections are to one server. One that is reached by two addresses is found by its
/// identity.
fn are_of_one(left: &TcpStream, right: &TcpStream) -> bool {
    match (left.peer_addr(), right.peer_addr()) {
        (Ok(left), Ok(right)) => left == right,
        _ => false,
    }
}
