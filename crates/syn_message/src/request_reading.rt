//! Reads the body of a request.
ghost use Rattle.std.specs.Prelude.{IfOk, option_map};
ghost use Rattle.syn_message.specs.Bodies.{IsWholeReading, ReadsWhole};
ghost use Rattle.syn_message.specs.Requests.{IsLawfulRequestMessage, ReadsFields};
ghost use Rattle.syn_message.specs.Requests.{request_message_of};
ghost use Rattle.syn_message.specs.Requests.{request_spelling};
ghost use Rattle.syn_message.specs.inner.Heads.{ReadsLast};
ghost use Rattle.syn_machine.specs.Side.{IsPieceBytes};
ghost use Rattle.syn_wire.specs.Events.{file_spelling};

use crate::head::read_head;
use crate::kind::{BEGIN, FETCH, LIST, REPLACE, STAGE};
use crate::request::{Request, RequestMessage};
use crate::staged_piece::StagedPiece;
use std::alloc::Global;
use syn_wire::{LONGEST_PIECE, ReadError, Reader, WireError, or_none, spelling_laws};

/// The request that the body spells; none where it spells no request.
///
/// Refused 11 where memory is refused.
pub fn decode_request(alloc: Global, body: &[u8]) -> Result<Option<RequestMessage>, WireError>
    ensures { IfOk result (λ read. IsWholeReading IsLawfulRequestMessage request_spelling body.now
        (option_map request_message_of read)) }
{
    or_none(read_request(&mut Reader::new(body), alloc))
}

fn read_request(reader: &mut Reader<'_>, alloc: Global) -> Result<RequestMessage, ReadError>
    ensures { ReadsWhole IsLawfulRequestMessage request_spelling request_message_of reader.old
        result }
{
    let kind = reader.byte()?;
    let (session, number) = read_head(reader)?;
    let request = read_fields(reader, alloc, kind)?;
    Ok(RequestMessage {
        session,
        number,
        request,
    })
}

/// What stands after the number, in a request of the kind.
fn read_fields(reader: &mut Reader<'_>, alloc: Global, kind: u8) -> Result<Request, ReadError>
    ensures { ReadsFields kind reader.old result }
{
    match kind {
        BEGIN => read_begin(reader),
        LIST => read_list(reader, alloc),
        FETCH => read_fetch(reader, alloc),
        STAGE => read_stage(reader, alloc),
        REPLACE => read_replace(reader, alloc),
        _ => Err(ReadError::Malformed),
    }
}

fn read_begin(reader: &mut Reader<'_>) -> Result<Request, ReadError>
    ensures { ReadsFields BEGIN reader.old result }
{
    spelling_laws();
    let pair = reader.u64()?;
    reader.end()?;
    Ok(Request::Begin { pair })
}

fn read_list(reader: &mut Reader<'_>, alloc: Global) -> Result<Request, ReadError>
    ensures { ReadsFields LIST reader.old result }
{
    spelling_laws();
    let path = reader.path(alloc)?;
    reader.end()?;
    Ok(Request::List { path })
}

fn read_fetch(reader: &mut Reader<'_>, alloc: Global) -> Result<Request, ReadError>
    ensures { ReadsFields FETCH reader.old result }
{
    spelling_laws();
    let path = reader.path(alloc)?;
    let (since, offset) = read_last(reader)?;
    Ok(Request::Fetch {
        path,
        since,
        offset,
    })
}

fn read_stage(reader: &mut Reader<'_>, alloc: Global) -> Result<Request, ReadError>
    ensures { ReadsFields STAGE reader.old result }
{
    spelling_laws();
    let item = reader.u32()?;
    let offset = reader.u32()?;
    let bytes = read_piece(reader)?.to_vec(alloc)?;
    Ok(Request::Stage {
        item,
        offset,
        piece: StagedPiece::new(bytes),
    })
}

/// From 1 to `LONGEST_PIECE` bytes after their length, with nothing after them.
fn read_piece<'a>(reader: &mut Reader<'a>) -> Result<&'a [u8], ReadError>
    ensures { ReadsWhole IsPieceBytes file_spelling (λ piece. piece.now) reader.old result }
{
    spelling_laws();
    let piece = reader.file()?;
    reader.end()?;
    if piece.is_empty() || piece.len() > LONGEST_PIECE {
        return Err(ReadError::Malformed);
    }
    Ok(piece)
}

fn read_replace(reader: &mut Reader<'_>, alloc: Global) -> Result<Request, ReadError>
    ensures { ReadsFields REPLACE reader.old result }
{
    spelling_laws();
    let item = reader.u32()?;
    let path = reader.path(alloc)?;
    let (since, length) = read_last(reader)?;
    Ok(Request::Replace {
        item,
        path,
        since,
        length,
    })
}

/// A position and a number, with nothing after them.
fn read_last(reader: &mut Reader<'_>) -> Result<(u64, u32), ReadError>
    ensures { ReadsLast reader.old result }
{
    spelling_laws();
    let position = reader.u64()?;
    let number = reader.u32()?;
    reader.end()?;
    Ok((position, number))
}
