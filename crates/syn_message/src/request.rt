//! What a coordinator asks of a side.
ghost use Rattle.std.specs.Prelude.{◌≡◌, ◌++◌, IfOk, OnOk};
ghost use Rattle.syn_message.specs.Requests.{request_message_of, request_spelling};
ghost use Rattle.syn_message.specs.Requests.{fields_spelling, kind_of, request_of};

use crate::head::write_head;
use crate::kind::{BEGIN, FETCH, LIST, REPLACE, STAGE};
use crate::staged_piece::StagedPiece;
use std::alloc::{AllocError, Global};
use syn_path::Path;
use syn_wire::{WireError, write_file, write_path, write_u32, write_u64};

/// What a coordinator asks of a side, in a session.
#[derive(Debug, Drop)]
pub enum Request {
    /// The session begins on the side, which has to be a replica of the pair.
    Begin {
        pair: u64,
    },
    /// The names in the directory, with the mark of what stands there.
    List {
        path: Path,
    },
    /// What is spelled at the path, from that byte on, unless an event touched the path at the
    /// position `since` or later.
    Fetch {
        path: Path,
        since: u64,
        offset: u32,
    },
    /// A piece of what the item is to put, from that byte on.
    Stage {
        item: u32,
        offset: u32,
        piece: StagedPiece,
    },
    /// What is staged for the item, of so many bytes, goes to the path, unless an event touched the
    /// path at the position `since` or later.
    Replace {
        item: u32,
        path: Path,
        since: u64,
        length: u32,
    },
}

impl Request {
    /// The first byte of its body.
    pub fn kind(&self) -> u8
        ensures { result ≡ kind_of (request_of self.now) }
    {
        match self {
            Request::Begin { .. } => BEGIN,
            Request::List { .. } => LIST,
            Request::Fetch { .. } => FETCH,
            Request::Stage { .. } => STAGE,
            Request::Replace { .. } => REPLACE,
        }
    }

    /// An equal request of its own, which is sent once more. Refused where memory is refused.
    pub fn copy(&self, alloc: Global) -> Result<Request, AllocError>
        ensures { IfOk result (λ copy. request_of copy ≡ request_of self.now) }
    {
        match self {
            Request::Begin { pair } => Ok(Request::Begin { pair: *pair }),
            Request::List { path } => {
                let path = path.copy(alloc)?;
                Ok(Request::List { path })
            }
            Request::Fetch {
                path,
                since,
                offset,
            } => {
                let path = path.copy(alloc)?;
                Ok(Request::Fetch {
                    path,
                    since: *since,
                    offset: *offset,
                })
            }
            Request::Stage {
                item,
                offset,
                piece,
            } => {
                let piece = piece.copy()?;
                Ok(Request::Stage {
                    item: *item,
                    offset: *offset,
                    piece,
                })
            }
            Request::Replace {
                item,
                path,
                since,
                length,
            } => {
                let path = path.copy(alloc)?;
                Ok(Request::Replace {
                    item: *item,
                    path,
                    since: *since,
                    length: *length,
                })
            }
        }
    }
}

/// A request with its session, from 1, and its number in it.
#[derive(Debug, Drop)]
pub struct RequestMessage {
    pub session: u64,
    pub number: u32,
    pub request: Request,
}

/// The body of the request.
///
/// Refused 11 where memory is refused.
pub fn encode_request(alloc: Global, asked: &RequestMessage) -> Result<Vec<u8>, WireError>
    ensures { IfOk result (λ body. body.items ≡ request_spelling (request_message_of asked.now)) }
{
    let mut body = Vec::new(alloc);
    write_head(&mut body, asked.request.kind(), asked.session, asked.number)?;
    write_fields(&mut body, &asked.request)?;
    Ok(body)
}

/// Adds what the request has.
fn write_fields(body: &mut Vec<u8>, request: &Request) -> Result<(), WireError>
    ensures { OnOk result (body.new.items
        ≡ body.old.items ++ fields_spelling (request_of request.now)) }
{
    match request {
        Request::Begin { pair } => write_u64(body, *pair),
        Request::List { path } => write_path(body, path),
        Request::Fetch {
            path,
            since,
            offset,
        } => {
            write_path(body, path)?;
            write_u64(body, *since)?;
            write_u32(body, *offset)
        }
        Request::Stage {
            item,
            offset,
            piece,
        } => {
            write_u32(body, *item)?;
            write_u32(body, *offset)?;
            write_file(body, piece.as_slice())
        }
        Request::Replace {
            item,
            path,
            since,
            length,
        } => {
            write_u32(body, *item)?;
            write_path(body, path)?;
            write_u64(body, *since)?;
            write_u32(body, *length)
        }
    }
}
