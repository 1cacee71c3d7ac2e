//! What is replied to a user of a served replica.
ghost use Rattle.std.specs.Prelude.{◌≡◌, ◌++◌, IfOk, OnOk, option_map};
ghost use Rattle.syn_message.specs.UserReplies.{IsFound, IsLawfulUserReplyMessage};
ghost use Rattle.syn_message.specs.UserReplies.{user_reply_message_of};
ghost use Rattle.syn_message.specs.UserReplies.{found_spelling, user_reply_spelling};
ghost use Rattle.syn_tree.specs.Contents.{content_of};

use crate::head::write_head;
use crate::kind::{EDITED, GOT, REFUSED, STATED};
use crate::status::write_stated;
use std::alloc::Global;
use syn_history::{Identity, ReplicaStatus};
use syn_refusal::Refusal;
use syn_tree::Content;
use syn_wire::{ABSENT, DIRECTORY, FILE, WireError, write_contents, write_u64};

/// What is replied to a user.
#[derive(Debug, Drop)]
pub enum UserReply {
    /// The edit is made, and this is the new position.
    Edited {
        position: u64,
    },
    /// What stands at the path, if anything does. A file has at most 16,384 bytes.
    Got {
        found: Option<Content>,
    },
    /// Where the replica is in its history, and what its disk is known by, if it is by anything.
    Status {
        identity: Option<Identity>,
        status: ReplicaStatus,
    },
    /// The request is refused.
    Refused(Refusal),
}

/// A reply to a user, with the number of the request. It belongs to no session.
#[derive(Debug, Drop)]
pub struct UserReplyMessage {
    pub number: u32,
    pub reply: UserReply,
}

/// The body of the reply.
///
/// Refused 11 where memory is refused.
pub fn encode_user_reply(alloc: Global, answered: &UserReplyMessage) -> Result<Vec<u8>, WireError>
    requires { IsLawfulUserReplyMessage (user_reply_message_of answered.now) }
    ensures { IfOk result (λ body. body.items
        ≡ user_reply_spelling (user_reply_message_of answered.now)) }
{
    let mut body = Vec::new(alloc);
    match &answered.reply {
        UserReply::Edited { position } => {
            write_head(&mut body, EDITED, 0, answered.number)?;
            write_u64(&mut body, *position)?;
        }
        UserReply::Got { found } => {
            write_head(&mut body, GOT, 0, answered.number)?;
            write_found(&mut body, found.as_ref())?;
        }
        UserReply::Status { identity, status } => {
            write_head(&mut body, STATED, 0, answered.number)?;
            write_stated(&mut body, *identity, status)?;
        }
        UserReply::Refused(why) => {
            write_head(&mut body, REFUSED, 0, answered.number)?;
            body.push(why.number())?;
        }
    }
    Ok(body)
}

/// Adds what stands at a path.
fn write_found(body: &mut Vec<u8>, found: Option<&Content>) -> Result<(), WireError>
    requires { IsFound (option_map (λ there. content_of there.now) found) }
    ensures { OnOk result (body.new.items ≡ body.old.items
        ++ found_spelling (option_map (λ there. content_of there.now) found.entry)) }
{
    match found {
        None => {
            body.push(ABSENT)?;
            Ok(())
        }
        Some(Content::File(mode, bytes)) => {
            body.push(FILE)?;
            write_contents(body, *mode, bytes)
        }
        Some(Content::Dir) => {
            body.push(DIRECTORY)?;
            Ok(())
        }
    }
}
