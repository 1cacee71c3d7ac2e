//! What a side replies to a coordinator.
ghost use Rattle.std.specs.Prelude.{◌≡◌, ◌++◌, IfOk, OnOk};
ghost use Rattle.syn_message.specs.Replies.{IsLawfulReplyMessage, IsLawfulReply, reply_message_of};
ghost use Rattle.syn_message.specs.Replies.{reply_spelling, reply_fields, reply_kind, reply_of};

use crate::copies::copy_entries;
use crate::head::write_head;
use crate::kind::{BEGUN, DONE, LISTED, NOT_DIR, PIECE, REFUSED, STAGED};
use crate::listing::write_entries;
use std::alloc::{AllocError, Global};
use syn_mark::Mark;
use syn_path::Name;
use syn_refusal::Refusal;
use syn_wire::{WireError, write_file, write_u32, write_u64};

/// What a side replies to a request of a session.
#[derive(Debug, Drop)]
pub enum Reply {
    /// The session has begun, with so many events.
    Begun {
        position: u64,
    },
    /// After so many events the directory has these names, with the mark of each.
    Listed {
        position: u64,
        entries: Vec<(Name, Mark)>,
    },
    /// After so many events no directory is at the path.
    NotDir {
        position: u64,
    },
    /// How many bytes there are in all, and at most 32,768 of them from the asked offset on.
    Piece {
        total: u32,
        bytes: Vec<u8>,
    },
    /// The piece is staged.
    Staged,
    /// What was staged is at its path.
    Done,
    /// The request is refused.
    Refused(Refusal),
}

impl Reply {
    /// The first byte of its body.
    fn kind(&self) -> u8
        ensures { result ≡ reply_kind (reply_of self.now) }
    {
        match self {
            Reply::Begun { .. } => BEGUN,
            Reply::Listed { .. } => LISTED,
            Reply::NotDir { .. } => NOT_DIR,
            Reply::Piece { .. } => PIECE,
            Reply::Staged => STAGED,
            Reply::Done => DONE,
            Reply::Refused(_) => REFUSED,
        }
    }

    /// An equal reply of its own. Refused where memory is refused.
    pub fn copy(&self, alloc: Global) -> Result<Reply, AllocError>
        ensures { IfOk result (λ copy. reply_of copy ≡ reply_of self.now) }
    {
        match self {
            Reply::Begun { position } => Ok(Reply::Begun {
                position: *position,
            }),
            Reply::Listed { position, entries } => {
                let entries = copy_entries(alloc, entries)?;
                Ok(Reply::Listed {
                    position: *position,
                    entries,
                })
            }
            Reply::NotDir { position } => Ok(Reply::NotDir {
                position: *position,
            }),
            Reply::Piece { total, bytes } => {
                let bytes = bytes.clone()?;
                Ok(Reply::Piece {
                    total: *total,
                    bytes,
                })
            }
            Reply::Staged => Ok(Reply::Staged),
            Reply::Done => Ok(Reply::Done),
            Reply::Refused(why) => Ok(Reply::Refused(*why)),
        }
    }
}

/// A reply, with the session, from 1, and the number of the request.
#[derive(Debug, Drop)]
pub struct ReplyMessage {
    pub session: u64,
    pub number: u32,
    pub reply: Reply,
}

/// The body of the reply.
///
/// Refused 11 where memory is refused.
pub fn encode_reply(alloc: Global, answered: &ReplyMessage) -> Result<Vec<u8>, WireError>
    requires { IsLawfulReplyMessage (reply_message_of answered.now) }
    ensures { IfOk result (λ body. body.items ≡ reply_spelling (reply_message_of answered.now)) }
{
    let mut body = Vec::new(alloc);
    write_head(
        &mut body,
        answered.reply.kind(),
        answered.session,
        answered.number,
    )?;
    write_fields(&mut body, &answered.reply)?;
    Ok(body)
}

/// Adds what the reply has.
fn write_fields(body: &mut Vec<u8>, reply: &Reply) -> Result<(), WireError>
    requires { IsLawfulReply (reply_of reply.now) }
    ensures { OnOk result (body.new.items ≡ body.old.items ++ reply_fields (reply_of reply.now)) }
{
    match reply {
        Reply::Begun { position } => write_u64(body, *position),
        Reply::Listed { position, entries } => {
            write_u64(body, *position)?;
            write_entries(body, entries)
        }
        Reply::NotDir { position } => write_u64(body, *position),
        Reply::Piece { total, bytes } => {
            write_u32(body, *total)?;
            write_file(body, bytes)
        }
        Reply::Staged => Ok(()),
        Reply::Done => Ok(()),
        Reply::Refused(why) => {
            body.push(why.number())?;
            Ok(())
        }
    }
}
