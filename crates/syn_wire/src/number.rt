//! Writes whole numbers of two, four and eight bytes, the highest byte first.
ghost use Rattle.std.specs.Prelude.{◌≡◌, ◌++◌, OnOk};
ghost use Rattle.std.specs.Int.{to_be_bytes, w16, w32, w64};
ghost use Rattle.syn_wire.specs.Reads.{IsBeginning};

use crate::error::WireError;
use byteorder::{BigEndian, ByteOrder};

/// Adds the number. Refused 11 where memory is refused; the bytes are then as they were.
pub fn write_u16(out: &mut Vec<u8>, number: u16) -> Result<(), WireError>
    ensures added { OnOk result (out.new.items ≡ out.old.items ++ to_be_bytes w16 number) }
    ensures kept { IsBeginning out.old.items out.new.items }
{
    let mut spelled = [0; 2];
    BigEndian::write_u16(&mut spelled, number);
    out.extend_from_slice(&spelled)?;
    Ok(())
}

/// Adds the number. Refused 11 where memory is refused; the bytes are then as they were.
pub fn write_u32(out: &mut Vec<u8>, number: u32) -> Result<(), WireError>
    ensures added { OnOk result (out.new.items ≡ out.old.items ++ to_be_bytes w32 number) }
    ensures kept { IsBeginning out.old.items out.new.items }
{
    let mut spelled = [0; 4];
    BigEndian::write_u32(&mut spelled, number);
    out.extend_from_slice(&spelled)?;
    Ok(())
}

/// Adds the number. Refused 11 where memory is refused; the bytes are then as they were.
pub fn write_u64(out: &mut Vec<u8>, number: u64) -> Result<(), WireError>
    ensures added { OnOk result (out.new.items ≡ out.old.items ++ to_be_bytes w64 number) }
    ensures kept { IsBeginning out.old.items out.new.items }
{
    let mut spelled = [0; 8];
    BigEndian::write_u64(&mut spelled, number);
    out.extend_from_slice(&spelled)?;
    Ok(())
}
