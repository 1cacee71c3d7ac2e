//! The front of each body: a kind, a session, and the number of the request in it.
ghost use Rattle.std.specs.Prelude.{◌≡◌, ◌++◌, [], OnOk};
ghost use Rattle.syn_message.specs.Bodies.{body_spelling};
ghost use Rattle.syn_message.specs.inner.Heads.{IsHead, IsUserHead, head_spelling};
ghost use Rattle.syn_wire.specs.Reads.{Reads};

use syn_wire::{ReadError, Reader, WireError, spelling_laws, write_u32, write_u64};

/// Adds the front of a body.
pub(crate) fn write_head(
    body: &mut Vec<u8>,
    kind: u8,
    session: u64,
    number: u32,
) -> Result<(), WireError>
    ensures { OnOk result (body.new.items
        ≡ body.old.items ++ body_spelling kind session number []) }
{
    body.push(kind)?;
    write_u64(body, session)?;
    write_u32(body, number)
}

/// The number of a session, which is not 0, and that of the request in it.
pub(crate) fn read_head(reader: &mut Reader<'_>) -> Result<(u64, u32), ReadError>
    ensures { Reads IsHead head_spelling (λ head. head) reader.old reader.new result }
{
    spelling_laws();
    let session = reader.u64()?;
    let number = reader.u32()?;
    if session == 0 {
        return Err(ReadError::Malformed);
    }
    Ok((session, number))
}

/// The number after a session of 0.
pub(crate) fn read_user_head(reader: &mut Reader<'_>) -> Result<u32, ReadError>
    ensures { Reads IsUserHead head_spelling (λ number. (0, number)) reader.old reader.new result }
{
    spelling_laws();
    let session = reader.u64()?;
    let number = reader.u32()?;
    if session != 0 {
        return Err(ReadError::Malformed);
    }
    Ok(number)
}
