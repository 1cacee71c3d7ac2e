//! Reads the body of a side's reply.
ghost use Rattle.std.specs.Prelude.{IfOk, option_map};
ghost use Rattle.syn_message.specs.Bodies.{IsWholeReading, ReadsWhole};
ghost use Rattle.syn_message.specs.Replies.{IsFetchedBytes, IsLawfulReplyMessage, ReadsReply};
ghost use Rattle.syn_message.specs.Replies.{reply_message_of, reply_spelling};
ghost use Rattle.syn_message.specs.inner.Heads.{IsRefusal, refusal_spelling};
ghost use Rattle.syn_refusal.specs.Refusals.{cause_of};
ghost use Rattle.syn_wire.specs.Events.{file_spelling};

use crate::head::read_head;
use crate::kind::{BEGUN, DONE, LISTED, NOT_DIR, PIECE, REFUSED, STAGED};
use crate::listing::read_entries;
use crate::reply::{Reply, ReplyMessage};
use std::alloc::Global;
use syn_refusal::Refusal;
use syn_wire::{LONGEST_PIECE, ReadError, Reader, WireError, or_none, spelling_laws};

/// The reply that the body spells; none where it spells no reply.
///
/// Refused 11 where memory is refused.
pub fn decode_reply(alloc: Global, body: &[u8]) -> Result<Option<ReplyMessage>, WireError>
    ensures { IfOk result (λ read. IsWholeReading IsLawfulReplyMessage reply_spelling body.now
        (option_map reply_message_of read)) }
{
    or_none(read_reply(&mut Reader::new(body), alloc))
}

fn read_reply(reader: &mut Reader<'_>, alloc: Global) -> Result<ReplyMessage, ReadError>
    ensures { ReadsWhole IsLawfulReplyMessage reply_spelling reply_message_of reader.old result }
{
    let kind = reader.byte()?;
    let (session, number) = read_head(reader)?;
    let reply = read_fields(reader, alloc, kind)?;
    Ok(ReplyMessage {
        session,
        number,
        reply,
    })
}

/// What stands after the number, in a reply of the kind.
fn read_fields(reader: &mut Reader<'_>, alloc: Global, kind: u8) -> Result<Reply, ReadError>
    ensures { ReadsReply kind reader.old result }
{
    match kind {
        BEGUN => read_begun(reader),
        LISTED => read_listed(reader, alloc),
        NOT_DIR => read_not_dir(reader),
        PIECE => read_piece(reader, alloc),
        STAGED => read_staged(reader),
        DONE => read_done(reader),
        REFUSED => read_refused(reader),
        _ => Err(ReadError::Malformed),
    }
}

fn read_begun(reader: &mut Reader<'_>) -> Result<Reply, ReadError>
    ensures { ReadsReply BEGUN reader.old result }
{
    spelling_laws();
    let position = reader.u64()?;
    reader.end()?;
    Ok(Reply::Begun { position })
}

fn read_listed(reader: &mut Reader<'_>, alloc: Global) -> Result<Reply, ReadError>
    ensures { ReadsReply LISTED reader.old result }
{
    spelling_laws();
    let position = reader.u64()?;
    let entries = read_entries(reader, alloc)?;
    Ok(Reply::Listed { position, entries })
}

fn read_not_dir(reader: &mut Reader<'_>) -> Result<Reply, ReadError>
    ensures { ReadsReply NOT_DIR reader.old result }
{
    spelling_laws();
    let position = reader.u64()?;
    reader.end()?;
    Ok(Reply::NotDir { position })
}

fn read_piece(reader: &mut Reader<'_>, alloc: Global) -> Result<Reply, ReadError>
    ensures { ReadsReply PIECE reader.old result }
{
    spelling_laws();
    let total = reader.u32()?;
    let bytes = read_fetched(reader)?.to_vec(alloc)?;
    Ok(Reply::Piece { total, bytes })
}

/// At most `LONGEST_PIECE` bytes after their length, with nothing after them.
fn read_fetched<'a>(reader: &mut Reader<'a>) -> Result<&'a [u8], ReadError>
    ensures { ReadsWhole IsFetchedBytes file_spelling (λ piece. piece.now) reader.old result }
{
    spelling_laws();
    let piece = reader.file()?;
    reader.end()?;
    if piece.len() > LONGEST_PIECE {
        return Err(ReadError::Malformed);
    }
    Ok(piece)
}

fn read_staged(reader: &mut Reader<'_>) -> Result<Reply, ReadError>
    ensures { ReadsReply STAGED reader.old result }
{
    reader.end()?;
    Ok(Reply::Staged)
}

fn read_done(reader: &mut Reader<'_>) -> Result<Reply, ReadError>
    ensures { ReadsReply DONE reader.old result }
{
    reader.end()?;
    Ok(Reply::Done)
}

fn read_refused(reader: &mut Reader<'_>) -> Result<Reply, ReadError>
    ensures { ReadsReply REFUSED reader.old result }
{
    let why = read_refusal(reader)?;
    Ok(Reply::Refused(why))
}

/// A refusal by its number, with nothing after it.
pub(crate) fn read_refusal(reader: &mut Reader<'_>) -> Result<Refusal, ReadError>
    ensures { ReadsWhole IsRefusal refusal_spelling cause_of reader.old result }
{
    let number = reader.byte()?;
    reader.end()?;
    match Refusal::from_number(number) {
        Some(why) => Ok(why),
        None => Err(ReadError::Malformed),
    }
}
