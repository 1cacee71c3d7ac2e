//! Reads the body of a user's request.
ghost use Rattle.std.specs.Prelude.{IfOk, option_map};
ghost use Rattle.syn_message.specs.Bodies.{IsWholeReading, ReadsWhole};
ghost use Rattle.syn_message.specs.Users.{IsLawfulUserRequestMessage, user_request_message_of};
ghost use Rattle.syn_message.specs.Users.{user_request_spelling};
ghost use Rattle.syn_message.specs.inner.Heads.{ReadsUserRequest};

use crate::head::read_user_head;
use crate::kind::{EDIT, GET, STATUS};
use crate::user::{UserRequest, UserRequestMessage};
use std::alloc::Global;
use syn_history::Event;
use syn_wire::{ReadError, Reader, Version, WireError, or_none, spelling_laws};

/// The user's request that the body spells; none where it spells none.
///
/// Refused 11 where memory is refused.
pub fn decode_user_request(
    alloc: Global,
    body: &[u8],
) -> Result<Option<UserRequestMessage>, WireError>
    ensures { IfOk result (λ read. IsWholeReading IsLawfulUserRequestMessage user_request_spelling
        body.now
        (option_map user_request_message_of read)) }
{
    or_none(read_user_request(&mut Reader::new(body), alloc))
}

fn read_user_request(
    reader: &mut Reader<'_>,
    alloc: Global,
) -> Result<UserRequestMessage, ReadError>
    ensures { ReadsWhole IsLawfulUserRequestMessage user_request_spelling user_request_message_of
        reader.old result }
{
    let kind = reader.byte()?;
    let number = read_user_head(reader)?;
    let request = read_user_fields(reader, alloc, kind)?;
    Ok(UserRequestMessage { number, request })
}

/// What stands after the number, in a request of the kind.
fn read_user_fields(
    reader: &mut Reader<'_>,
    alloc: Global,
    kind: u8,
) -> Result<UserRequest, ReadError>
    ensures { ReadsUserRequest kind reader.old result }
{
    match kind {
        EDIT => read_edit(reader, alloc),
        GET => read_get(reader, alloc),
        STATUS => read_place(reader),
        _ => Err(ReadError::Malformed),
    }
}

fn read_edit(reader: &mut Reader<'_>, alloc: Global) -> Result<UserRequest, ReadError>
    ensures { ReadsUserRequest EDIT reader.old result }
{
    spelling_laws();
    let event = reader.event(alloc, Version::Two)?;
    reader.end()?;
    match event {
        Event::Edited { user, edit } => Ok(UserRequest::Edit { user, edit }),
        _ => Err(ReadError::Malformed),
    }
}

fn read_get(reader: &mut Reader<'_>, alloc: Global) -> Result<UserRequest, ReadError>
    ensures { ReadsUserRequest GET reader.old result }
{
    spelling_laws();
    let path = reader.path(alloc)?;
    reader.end()?;
    Ok(UserRequest::Get { path })
}

fn read_place(reader: &mut Reader<'_>) -> Result<UserRequest, ReadError>
    ensures { ReadsUserRequest STATUS reader.old result }
{
    spelling_laws();
    let place = reader.u64()?;
    reader.end()?;
    Ok(UserRequest::Status { place })
}
