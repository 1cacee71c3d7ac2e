//! Frames over a reader and a writer.
ghost use Rattle.std.specs.Prelude.{◌≡◌, ◌≢◌, ◌↔◌, ◌⊎◌, ◌<◌, ◌≤◌, ◌++◌, ℕ, List, Ok, Err, length};
ghost use Rattle.std.specs.Prelude.{take, IfOk, IfErr, IfSome, IfNone, OnOk, OnErr, Some};
ghost use Rattle.std.specs.Io.KnownBytes.{Appends, Consumes, IsAtEnd, Keeps};
ghost use Rattle.std.specs.Int.{to_be_bytes, w32};
ghost use Rattle.syn_link.specs.declared.frames.TheConstants.{LONGEST_BODY};
ghost use Rattle.syn_link.specs.declared.stream.TheConstants.{MOST_JOINED};
ghost use Rattle.syn_link.specs.Frames.{frame_of, AppendsSome};
ghost use Rattle.syn_link.specs.Streams.{Comes, EndsBefore, ComesAtFault};

use crate::error::LinkError;
use crate::framer::Framer;
use crate::frames::{check_length, spelled_length};
use std::alloc::Global;
use std::io::{ErrorKind, Read, Write};

/// The most bytes that one call reads.
const MOST_READ: usize = 16_384;

/// The most bytes of a body that are written at once with its length. The others follow.
const MOST_JOINED: usize = 16_384;

/// Writes the body as a frame, and flushes: a body of up to 16,384 bytes by one write, where the
/// writer takes it whole. It takes no memory.
///
/// Refused 21 and 22 as `frame`, with nothing written, and 9 where a write fails: a beginning of
/// the frame is then written.
pub fn write_frame<W: Write>(writer: &mut W, body: &[u8]) -> Result<(), LinkError>
    ensures written { OnOk result
        (Appends (W.contents writer.old) (W.contents writer.new) (frame_of body.now)) }
    ensures beginning { OnErr result
        (AppendsSome (W.contents writer.old) (W.contents writer.new) (frame_of body.now)) }
    ensures nothing { IfErr result (λ e. (e ≡ LinkError.Device)
        ⊎ Keeps (W.contents writer.old) (W.contents writer.new)) }
    ensures bad_frame { (result ≡ Err LinkError.BadFrame) ↔ (length body.now ≡ 0) }
    ensures too_large { (result ≡ Err LinkError.TooLarge) ↔ (LONGEST_BODY < length body.now) }
    ensures memory { IfErr result (λ e. e ≢ LinkError.Memory) }
{
    check_length(body.len())?;
    let (front, rest) = body.split_at(body.len().min(MOST_JOINED));
    write_front(writer, body.len(), front)?;
    write_whole(writer, rest)?;
    writer.flush().map_err(|_| LinkError::Device)
}

/// Writes the length of a body and its first bytes.
fn write_front<W: Write>(writer: &mut W, total: usize, front: &[u8]) -> Result<(), LinkError>
    requires total { total ≤ LONGEST_BODY }
    requires front { length front.now ≤ MOST_JOINED }
    ensures written { OnOk result (Appends (W.contents writer.old) (W.contents writer.new)
        (to_be_bytes w32 total ++ front.now)) }
    ensures beginning { OnErr result (AppendsSome (W.contents writer.old) (W.contents writer.new)
        (to_be_bytes w32 total ++ front.now)) }
    ensures refusals { IfErr result (λ e. e ≡ LinkError.Device) }
{
    let mut joined = [0; 4 + MOST_JOINED];
    joined[..4].copy_from_slice(&spelled_length(total));
    let count = 4 + front.len();
    joined[4..count].copy_from_slice(front);
    write_whole(writer, &joined[..count])
}

/// Writes all of the bytes, as often as the writer takes some of them.
fn write_whole<W: Write>(writer: &mut W, bytes: &[u8]) -> Result<(), LinkError>
    ensures written { OnOk result
        (Appends (W.contents writer.old) (W.contents writer.new) bytes.now) }
    ensures beginning { OnErr result
        (AppendsSome (W.contents writer.old) (W.contents writer.new) bytes.now) }
    ensures refusals { IfErr result (λ e. e ≡ LinkError.Device) }
{
    let mut rest = bytes;
    for _ in 0..u64::MAX {
        if rest.is_empty() {
            return Ok(());
        }
        let count = write_once(writer, rest)?;
        rest = &rest[count..];
    }
    Err(LinkError::Device)
}

/// Writes as many of the bytes as the writer takes at once, and answers how many; none where it was
/// interrupted.
fn write_once<W: Write>(writer: &mut W, bytes: &[u8]) -> Result<usize, LinkError>
    ensures count { IfOk result (λ n. n ≤ length bytes.now) }
    ensures written { IfOk result
        (λ n. Appends (W.contents writer.old) (W.contents writer.new) (take n bytes.now)) }
    ensures kept { OnErr result (Keeps (W.contents writer.old) (W.contents writer.new)) }
    ensures refusals { IfErr result (λ e. e ≡ LinkError.Device) }
{
    match writer.write(bytes) {
        Ok(0) => Err(LinkError::Device),
        Ok(count) => Ok(count),
        Err(error) if error.kind() == ErrorKind::Interrupted => Ok(0),
        Err(_) => Err(LinkError::Device),
    }
}

/// Feeds what one read gives, and answers how many bytes these are: none only at the end of the
/// stream. Refused 9 where the read fails, and 11 where memory is refused; nothing is fed then.
pub fn read_some<R: Read>(reader: &mut R, framer: &mut Framer) -> Result<usize, LinkError>
    ensures fed { IfOk result
        (λ count. (bytes : List ℕ) × (length bytes ≡ count) × (framer.new ≡ framer.old ++ bytes)
        × Consumes (R.remaining reader.old) (R.remaining reader.new) bytes) }
    ensures end { result ≡ Ok 0 → IsAtEnd (R.remaining reader.new) }
    ensures unchanged { OnErr result (framer.new ≡ framer.old) }
    ensures refusals { IfErr result (λ e. (e ≡ LinkError.Device) ⊎ (e ≡ LinkError.Memory)) }
{
    let mut bytes = [0; MOST_READ];
    match reader.read(&mut bytes) {
        Ok(count) => {
            framer.feed(&bytes[..count])?;
            Ok(count)
        }
        Err(_) => Err(LinkError::Device),
    }
}

/// Reads until a whole frame came, and hands out its body; none where the stream ended before.
///
/// Refused 21 and 22 as `Framer::next`, 9 where a read fails, and 11 where memory is refused. What
/// came before stays in the framer, but for what a read gave that met no memory.
pub fn read_body<R: Read>(
    alloc: Global,
    reader: &mut R,
    framer: &mut Framer,
) -> Result<Option<Vec<u8>>, LinkError>
    ensures body { IfOk result (λ found. IfSome found (λ body.
        Comes (R.remaining reader.old) (R.remaining reader.new) framer.old framer.new
        (Some body.items))) }
    ensures end { IfOk result (λ found. IfNone found
        (EndsBefore (R.remaining reader.old) (R.remaining reader.new) framer.old framer.new)) }
    ensures fault { IfErr result
        (ComesAtFault (R.remaining reader.old) (R.remaining reader.new) framer.old framer.new) }
{
    for _ in 0..u64::MAX {
        if let Some(body) = framer.next(alloc)? {
            return Ok(Some(body));
        }
        if read_some(reader, framer)? == 0 {
            return Ok(None);
        }
    }
    Err(LinkError::Device)
}
