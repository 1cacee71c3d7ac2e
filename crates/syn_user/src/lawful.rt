//! Which requests a frame takes.
ghost use Rattle.std.specs.Prelude.{◌≡◌, ◌<◌, ◌≤◌, IfErr, IfOk, false, length, true};
ghost use Rattle.syn_link.specs.Frames.{IsBody};
ghost use Rattle.syn_link.specs.declared.frames.TheConstants.{LONGEST_BODY};
ghost use Rattle.syn_message.specs.Users.{IsLawfulUserRequest, IsLawfulUserRequestMessage};
ghost use Rattle.syn_message.specs.Users.{user_request_fields, user_request_of};
ghost use Rattle.syn_message.specs.Users.{user_request_message_of, user_request_spelling};
ghost use Rattle.syn_model.specs.Event.{AreBytes, Edited};
ghost use Rattle.syn_model.specs.Spelling.{event_spelling};
ghost use Rattle.syn_tree.specs.Edits.{edit_of};
ghost use Rattle.syn_user.specs.Exchanges.{IsTooLong};
ghost use Rattle.syn_user.specs.inner.Parts.{HasNoBody};
ghost use Rattle.syn_wire.specs.Events.{IsSpelledEvent};

use crate::error::UserError;
use std::alloc::Global;
use syn_link::LONGEST_BODY;
use syn_message::{UserRequest, UserRequestMessage, encode_user_request};
use syn_path::is_path;
use syn_refusal::Refusal;
use syn_tree::{Edit, is_mode};

/// The body of the request. Refused 7 where a frame takes no body of its length, and 11 where
/// memory is refused.
pub(crate) fn body_of(alloc: Global, asked: &UserRequestMessage) -> Result<Vec<u8>, UserError>
    ensures lawful { IfOk result (λ body. IsLawfulUserRequestMessage
        (user_request_message_of asked.now)) }
    ensures body { IfOk result (λ body. body.items
        ≡ user_request_spelling (user_request_message_of asked.now)) }
    ensures framed { IfOk result (λ body. IsBody body.items) }
    ensures refused { IfErr result (λ error. HasNoBody (user_request_message_of asked.now) error) }
{
    if !has_body(asked) {
        return Err(UserError::Refused(Refusal::Full));
    }
    let body = encode_user_request(alloc, asked)?;
    if body.len() > LONGEST_BODY {
        return Err(UserError::Refused(Refusal::Full));
    }
    Ok(body)
}

/// Whether the request can be spelled: it puts no more bytes than a frame takes.
fn has_body(asked: &UserRequestMessage) -> bool
    ensures lawful { result ≡ true
        → IsLawfulUserRequestMessage (user_request_message_of asked.now) }
    ensures long { result ≡ false → IsTooLong (user_request_message_of asked.now) }
{
    let _number = asked.number;
    is_lawful(&asked.request)
}

/// The same of what is asked for.
fn is_lawful(request: &UserRequest) -> bool
    ensures lawful { result ≡ true → IsLawfulUserRequest (user_request_of request.now) }
    ensures long { result ≡ false → LONGEST_BODY < length
        (user_request_fields (user_request_of request.now)) }
{
    match request {
        UserRequest::Edit { user, edit } => is_lawful_edit(*user, edit),
        UserRequest::Get { path } => {
            is_path(path);
            true
        }
        UserRequest::Status { place } => {
            let _place = *place;
            true
        }
    }
}

/// The same of an edit.
fn is_lawful_edit(user: u32, edit: &Edit) -> bool
    ensures lawful { result ≡ true → IsSpelledEvent (Edited user (edit_of edit.now)) }
    ensures long { result ≡ false
        → LONGEST_BODY < length (event_spelling (Edited user (edit_of edit.now))) }
{
    match edit {
        Edit::Put(path, bytes) => {
            is_path(path);
            fits_frame(bytes)
        }
        Edit::MakeDir(path) => {
            is_path(path);
            true
        }
        Edit::Remove(path) => {
            is_path(path);
            true
        }
        Edit::Chmod(path, mode) => {
            is_path(path);
            is_mode(*mode);
            true
        }
    }
}

/// Whether there are no more bytes than a frame takes.
fn fits_frame(bytes: &[u8]) -> bool
    ensures bytes { AreBytes bytes.now }
    ensures short { result ≡ true → length bytes.now ≤ LONGEST_BODY }
    ensures long { result ≡ false → LONGEST_BODY < length bytes.now }
{
    bytes.len() <= LONGEST_BODY
}
