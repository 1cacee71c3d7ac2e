//! Whole numbers of four and eight bytes, the highest byte first. All numbers of an image's layout
//! are read and written here.
ghost use Rattle.std.specs.Prelude.{◌≡◌, ◌++◌, OnOk};
ghost use Rattle.std.specs.Int.{w32, w64, from_be_bytes, to_be_bytes};

use byteorder::{BigEndian, ByteOrder};
use std::alloc::AllocError;

/// The number of these bytes, which are the bytes of that number.
pub fn u32_of(bytes: &[u8; 4]) -> u32
    ensures value { result ≡ from_be_bytes w32 bytes.now }
    ensures bytes { to_be_bytes w32 result ≡ bytes.now }
{
    BigEndian::read_u32(bytes)
}

/// The number of these bytes.
pub fn u64_of(bytes: &[u8; 8]) -> u64
    ensures { result ≡ from_be_bytes w64 bytes.now }
{
    BigEndian::read_u64(bytes)
}

/// Adds the number.
pub fn write_u32(body: &mut Vec<u8>, number: u32) -> Result<(), AllocError>
    ensures { OnOk result (body.new.items ≡ body.old.items ++ to_be_bytes w32 number) }
{
    let mut spelled = [0; 4];
    BigEndian::write_u32(&mut spelled, number);
    body.extend_from_slice(&spelled)
}

/// Adds the number.
pub fn write_u64(body: &mut Vec<u8>, number: u64) -> Result<(), AllocError>
    ensures { OnOk result (body.new.items ≡ body.old.items ++ to_be_bytes w64 number) }
{
    let mut spelled = [0; 8];
    BigEndian::write_u64(&mut spelled, number);
    body.extend_from_slice(&spelled)
}
