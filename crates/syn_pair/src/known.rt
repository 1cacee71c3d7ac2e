//! What is known of both sides, in bytes.
ghost use Rattle.std.specs.Prelude.{◌≡◌, ◌++◌, IfOk, IfSome};
ghost use Rattle.syn_message.specs.Statuses.{stated_spelling};
ghost use Rattle.syn_pair.specs.Known.{known_of, known_spelling, stated_of};

use crate::side::{KnownSides, SideStatus};
use std::alloc::Global;
use syn_message::{read_stated, write_stated};
use syn_wire::{ReadError, Reader, WireError};

/// "SYNK" and the version.
const FRONT: [u8; 5] = *b"SYNK\x01";

/// The bytes of what is known of both sides: "SYNK", the version 1, and what each has stated, the
/// left side first.
///
/// Refused 11 where memory is refused.
pub fn encode_known(alloc: Global, known: &KnownSides) -> Result<Vec<u8>, WireError>
    ensures { IfOk result (λ bytes. bytes.items ≡ known_spelling (known_of known.now)) }
{
    let mut bytes = Vec::new(alloc);
    bytes.extend_from_slice(&FRONT)?;
    write_stated(&mut bytes, known.left.identity, &known.left.status)?;
    write_stated(&mut bytes, known.right.identity, &known.right.status)?;
    Ok(bytes)
}

/// What is known of both sides, by these bytes; none where they are no such bytes.
///
/// Refused 11 where memory is refused.
pub fn decode_known(alloc: Global, bytes: &[u8]) -> Result<Option<KnownSides>, WireError>
    ensures { IfOk result (λ read. IfSome read (λ known. bytes.now
        ≡ known_spelling (known_of known))) }
{
    match read_known(&mut Reader::new(bytes), alloc) {
        Ok(known) => Ok(Some(known)),
        Err(ReadError::Malformed) => Ok(None),
        Err(ReadError::Memory) => Err(WireError::Memory),
    }
}

fn read_known(reader: &mut Reader<'_>, alloc: Global) -> Result<KnownSides, ReadError>
    ensures { IfOk result (λ known. reader.old ≡ known_spelling (known_of known)) }
{
    if reader.array::<5>()? != FRONT {
        return Err(ReadError::Malformed);
    }
    let left = read_side(reader, alloc)?;
    let right = read_side(reader, alloc)?;
    reader.end()?;
    Ok(KnownSides { left, right })
}

/// What one side has stated.
pub(crate) fn read_side(reader: &mut Reader<'_>, alloc: Global) -> Result<SideStatus, ReadError>
    ensures { IfOk result (λ side. reader.old ≡ stated_spelling (stated_of side) ++ reader.new) }
{
    let (identity, status) = read_stated(reader, alloc)?;
    Ok(SideStatus { identity, status })
}
