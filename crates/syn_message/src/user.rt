//! What a user asks of a served replica.
ghost use Rattle.std.specs.Prelude.{◌≡◌, IfOk};
ghost use Rattle.syn_message.specs.Users.{IsLawfulUserRequestMessage, user_request_kind};
ghost use Rattle.syn_message.specs.Users.{user_request_of, user_request_message_of};
ghost use Rattle.syn_message.specs.Users.{user_request_spelling};

use crate::head::write_head;
use crate::kind::{EDIT, GET, STATUS};
use std::alloc::Global;
use syn_path::Path;
use syn_tree::Edit;
use syn_wire::{WireError, encode_edit, write_path, write_u64};

/// What a user asks of a served replica.
#[derive(Debug, Drop)]
pub enum UserRequest {
    /// The user makes the edit.
    Edit { user: u32, edit: Edit },
    /// What stands at the path.
    Get { path: Path },
    /// Where the replica is in its history, and which path the event at the place touched.
    Status { place: u64 },
}

impl UserRequest {
    /// The first byte of its body.
    pub fn kind(&self) -> u8
        ensures { result ≡ user_request_kind (user_request_of self.now) }
    {
        match self {
            UserRequest::Edit { .. } => EDIT,
            UserRequest::Get { .. } => GET,
            UserRequest::Status { .. } => STATUS,
        }
    }
}

/// A user's request with its number. It belongs to no session.
#[derive(Debug, Drop)]
pub struct UserRequestMessage {
    pub number: u32,
    pub request: UserRequest,
}

/// The body of the request.
///
/// Refused 11 where memory is refused.
pub fn encode_user_request(alloc: Global, asked: &UserRequestMessage) -> Result<Vec<u8>, WireError>
    requires { IsLawfulUserRequestMessage (user_request_message_of asked.now) }
    ensures { IfOk result (λ body. body.items
        ≡ user_request_spelling (user_request_message_of asked.now)) }
{
    let mut body = Vec::new(alloc);
    write_head(&mut body, asked.request.kind(), 0, asked.number)?;
    match &asked.request {
        UserRequest::Edit { user, edit } => {
            body.extend_from_slice(&encode_edit(alloc, *user, edit)?)?;
        }
        UserRequest::Get { path } => write_path(&mut body, path)?,
        UserRequest::Status { place } => write_u64(&mut body, *place)?,
    }
    Ok(body)
}
