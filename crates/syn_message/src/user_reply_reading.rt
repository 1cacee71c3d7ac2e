//! Reads the body of a reply to a user.
ghost use Rattle.std.specs.Prelude.{IfOk, option_map};
ghost use Rattle.syn_model.specs.Contents.{contents_spelling, contents_with};
ghost use Rattle.syn_message.specs.Bodies.{IsWholeReading, ReadsWhole};
ghost use Rattle.syn_message.specs.UserReplies.{IsFound, IsLawfulUserReplyMessage, IsWithinFile};
ghost use Rattle.syn_message.specs.UserReplies.{ReadsUserReply};
ghost use Rattle.syn_message.specs.UserReplies.{found_spelling, user_reply_message_of};
ghost use Rattle.syn_message.specs.UserReplies.{user_reply_spelling};
ghost use Rattle.syn_tree.specs.Contents.{content_of};
ghost use Rattle.syn_tree.specs.Modes.{mode_of};

use crate::head::read_user_head;
use crate::kind::{EDITED, GOT, REFUSED, STATED};
use crate::reply_reading::read_refusal;
use crate::status_reading::read_whole_stated;
use crate::user_reply::{UserReply, UserReplyMessage};
use std::alloc::Global;
use syn_tree::{Content, LONGEST_FILE, Mode};
use syn_wire::{
    ABSENT, DIRECTORY, FILE, ReadError, Reader, Version, WireError, or_none, spelling_laws,
};

/// The reply to a user that the body spells; none where it spells none.
///
/// Refused 11 where memory is refused.
pub fn decode_user_reply(alloc: Global, body: &[u8]) -> Result<Option<UserReplyMessage>, WireError>
    ensures { IfOk result (λ read. IsWholeReading IsLawfulUserReplyMessage user_reply_spelling
        body.now
        (option_map user_reply_message_of read)) }
{
    or_none(read_user_reply(&mut Reader::new(body), alloc))
}

fn read_user_reply(reader: &mut Reader<'_>, alloc: Global) -> Result<UserReplyMessage, ReadError>
    ensures { ReadsWhole IsLawfulUserReplyMessage user_reply_spelling user_reply_message_of
        reader.old result }
{
    let kind = reader.byte()?;
    let number = read_user_head(reader)?;
    let reply = read_user_reply_fields(reader, alloc, kind)?;
    Ok(UserReplyMessage { number, reply })
}

/// What stands after the number, in a reply of the kind.
fn read_user_reply_fields(
    reader: &mut Reader<'_>,
    alloc: Global,
    kind: u8,
) -> Result<UserReply, ReadError>
    ensures { ReadsUserReply kind reader.old result }
{
    match kind {
        EDITED => read_edited(reader),
        GOT => read_got(reader, alloc),
        STATED => read_status_reply(reader, alloc),
        REFUSED => read_refused(reader),
        _ => Err(ReadError::Malformed),
    }
}

fn read_edited(reader: &mut Reader<'_>) -> Result<UserReply, ReadError>
    ensures { ReadsUserReply EDITED reader.old result }
{
    spelling_laws();
    let position = reader.u64()?;
    reader.end()?;
    Ok(UserReply::Edited { position })
}

fn read_got(reader: &mut Reader<'_>, alloc: Global) -> Result<UserReply, ReadError>
    ensures { ReadsUserReply GOT reader.old result }
{
    let found = read_found(reader, alloc)?;
    Ok(UserReply::Got { found })
}

fn read_status_reply(reader: &mut Reader<'_>, alloc: Global) -> Result<UserReply, ReadError>
    ensures { ReadsUserReply STATED reader.old result }
{
    let (identity, status) = read_whole_stated(reader, alloc)?;
    Ok(UserReply::Status { identity, status })
}

fn read_refused(reader: &mut Reader<'_>) -> Result<UserReply, ReadError>
    ensures { ReadsUserReply REFUSED reader.old result }
{
    let why = read_refusal(reader)?;
    Ok(UserReply::Refused(why))
}

/// What stands at a path, with nothing after it.
fn read_found(reader: &mut Reader<'_>, alloc: Global) -> Result<Option<Content>, ReadError>
    ensures { ReadsWhole IsFound found_spelling (λ found. option_map content_of found) reader.old
        result }
{
    match reader.byte()? {
        ABSENT => {
            reader.end()?;
            Ok(None)
        }
        FILE => {
            let (mode, bytes) = read_whole_file(reader)?;
            Ok(Some(Content::File(mode, bytes.to_vec(alloc)?)))
        }
        DIRECTORY => {
            reader.end()?;
            Ok(Some(Content::Dir))
        }
        _ => Err(ReadError::Malformed),
    }
}

/// A mode and at most `LONGEST_FILE` bytes, with nothing after them.
fn read_whole_file<'a>(reader: &mut Reader<'a>) -> Result<(Mode, &'a [u8]), ReadError>
    ensures { ReadsWhole IsWithinFile contents_spelling
        (λ file. contents_with (mode_of file.0) file.1.now) reader.old result }
{
    spelling_laws();
    let (mode, file) = reader.contents(Version::Two)?;
    reader.end()?;
    if file.len() > LONGEST_FILE {
        return Err(ReadError::Malformed);
    }
    Ok((mode, file))
}
