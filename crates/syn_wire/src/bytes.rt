//! Bytes with their length.
ghost use Rattle.std.specs.Prelude.{◌≡◌, ◌<◌, ◌^◌, ◌++◌, length, IfErr, OnOk};
ghost use Rattle.syn_model.specs.Event.{AreBytes};
ghost use Rattle.syn_wire.specs.Events.{IsFile, file_spelling};
ghost use Rattle.syn_wire.specs.Reads.{IsBeginning, Reads};
ghost use Rattle.syn_wire.specs.declared.error.ReadError.TheVariants.{Malformed};

use crate::error::{ReadError, WireError};
use crate::number::write_u32;
use crate::reader::Reader;

/// The most bytes of a spelling that a session carries at a time.
pub const LONGEST_PIECE: usize = 32_768;

impl<'a> Reader<'a> {
    /// Bytes after their length of four bytes. No memory is taken, so a length is believed only
    /// once its bytes are seen.
    pub fn file(&mut self) -> Result<&'a [u8], ReadError>
        ensures read { Reads IsFile file_spelling (λ file. file.now) self.old self.new result }
        ensures why { IfErr result (λ e. e ≡ Malformed) }
    {
        let length = self.u32()?;
        let file = self.bytes(length as usize)?;
        Ok(file)
    }
}

/// Adds the bytes after their length of four bytes. Refused 11 where memory is refused; a
/// beginning of it may then have been added.
pub fn write_file(out: &mut Vec<u8>, file: &[u8]) -> Result<(), WireError>
    requires { length file.now < 2 ^ 32 }
    ensures added { OnOk result (out.new.items ≡ out.old.items ++ file_spelling file.now) }
    ensures kept { IsBeginning out.old.items out.new.items }
    ensures lawful { AreBytes file.now }
{
    write_u32(out, file.len() as u32)?;
    out.extend_from_slice(file)?;
    Ok(())
}
