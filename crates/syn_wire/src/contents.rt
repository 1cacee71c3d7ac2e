//! What a file and a mark hold.
ghost use Rattle.std.specs.Prelude.{◌≡◌, ◌++◌, ◌<◌, ◌^◌, length, IfErr, OnOk};
ghost use Rattle.std.specs.Int.{to_be_bytes, w16};
ghost use Rattle.syn_model.specs.Contents.{AreLawfulContents, IsDigestIn, IsMode, IsModeIn};
ghost use Rattle.syn_model.specs.Contents.{contents_front, contents_spelling, contents_spelling_in};
ghost use Rattle.syn_model.specs.Contents.{contents_with};
ghost use Rattle.syn_model.specs.Contents.{digest_spelling, digest_spelling_in, mode_spelling_in};
ghost use Rattle.syn_tree.specs.Modes.{mode_of};
ghost use Rattle.syn_wire.specs.Contents.{IsBriefFileIn};
ghost use Rattle.syn_wire.specs.Reads.{IsBeginning, Reads};
ghost use Rattle.syn_wire.specs.Versions.{version_of};
ghost use Rattle.syn_wire.specs.declared.error.ReadError.TheVariants.{Malformed};

use crate::error::{ReadError, WireError};
use crate::number::{write_u16, write_u32};
use crate::reader::Reader;
use crate::version::Version;
use syn_tree::Mode;

/// How many bytes a digest has.
const DIGEST_LENGTH: usize = 32;

impl<'a> Reader<'a> {
    /// The mode and the bytes of a file.
    pub fn contents(&mut self, version: Version) -> Result<(Mode, &'a [u8]), ReadError>
        ensures read { Reads (IsBriefFileIn (version_of version))
            (contents_spelling_in (version_of version))
            (λ found. contents_with (mode_of found.0) found.1.now) self.old self.new result }
        ensures why { IfErr result (λ e. e ≡ Malformed) }
    {
        let mode = self.mode_in(version)?;
        let file = self.file()?;
        Ok((mode, file))
    }

    /// The mode and the digest of a mark.
    pub fn digest(&mut self, version: Version) -> Result<(Mode, [u8; DIGEST_LENGTH]), ReadError>
        ensures read { Reads (IsDigestIn (version_of version))
            (digest_spelling_in (version_of version))
            (λ found. contents_with (mode_of found.0) found.1) self.old self.new result }
        ensures why { IfErr result (λ e. e ≡ Malformed) }
    {
        let mode = self.mode_in(version)?;
        let digest = self.array()?;
        Ok((mode, digest))
    }

    // A mode; the first version spells none.
    fn mode_in(&mut self, version: Version) -> Result<Mode, ReadError>
        ensures read { Reads (IsModeIn (version_of version)) (mode_spelling_in (version_of version))
            (λ mode. mode_of mode) self.old self.new result }
        ensures why { IfErr result (λ e. e ≡ Malformed) }
    {
        match version {
            Version::One => Ok(Mode::NEW_FILE),
            Version::Two => self.mode(),
        }
    }

    // A mode by its bits.
    pub(crate) fn mode(&mut self) -> Result<Mode, ReadError>
        ensures read { Reads IsMode (to_be_bytes w16) (λ mode. mode_of mode) self.old self.new
            result }
        ensures why { IfErr result (λ e. e ≡ Malformed) }
    {
        let bits = self.u16()?;
        Mode::new(bits).ok_or(ReadError::Malformed)
    }
}

/// Adds the mode and the bytes of a file. Refused 11 where memory is refused; a beginning of it may
/// then have been added.
pub fn write_contents(out: &mut Vec<u8>, mode: Mode, file: &[u8]) -> Result<(), WireError>
    requires { length file.now < 2 ^ 32 }
    ensures added { OnOk result (out.new.items ≡ out.old.items
        ++ contents_spelling (contents_with (mode_of mode) file.now)) }
    ensures kept { IsBeginning out.old.items out.new.items }
    ensures lawful { AreLawfulContents (contents_with (mode_of mode) file.now) }
{
    write_front(out, mode, file)?;
    out.extend_from_slice(file)?;
    Ok(())
}

// Adds the mode of a file and the length of its bytes.
pub(crate) fn write_front(out: &mut Vec<u8>, mode: Mode, file: &[u8]) -> Result<(), WireError>
    requires { length file.now < 2 ^ 32 }
    ensures added { OnOk result (out.new.items ≡ out.old.items
        ++ contents_front (contents_with (mode_of mode) file.now)) }
    ensures kept { IsBeginning out.old.items out.new.items }
    ensures lawful { AreLawfulContents (contents_with (mode_of mode) file.now) }
{
    write_mode(out, mode)?;
    write_u32(out, file.len() as u32)
}

// Adds the mode of a file.
pub(crate) fn write_mode(out: &mut Vec<u8>, mode: Mode) -> Result<(), WireError>
    ensures added { OnOk result (out.new.items ≡ out.old.items ++ to_be_bytes w16 (mode_of mode)) }
    ensures kept { IsBeginning out.old.items out.new.items }
    ensures lawful { IsMode (mode_of mode) }
{
    write_u16(out, mode.bits())
}

/// Adds the mode and the digest of a mark. Refused 11 where memory is refused; a beginning of it
/// may then have been added.
pub fn write_digest(
    out: &mut Vec<u8>,
    mode: Mode,
    digest: &[u8; DIGEST_LENGTH],
) -> Result<(), WireError>
    ensures added { OnOk result (out.new.items
        ≡ out.old.items ++ digest_spelling (contents_with (mode_of mode) digest.now)) }
    ensures kept { IsBeginning out.old.items out.new.items }
{
    write_mode(out, mode)?;
    out.extend_from_slice(digest.as_slice())?;
    Ok(())
}
