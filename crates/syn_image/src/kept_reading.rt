//! What is read of what an archive keeps, and of the image of an archive.
ghost use Rattle.std.specs.Prelude.{◌∷◌, IfOk, option_map};
ghost use Rattle.syn_model.specs.MarkSpelling.{kept_spelling_in};
ghost use Rattle.syn_wire.specs.Reads.{IsReading, Reads};
ghost use Rattle.syn_wire.specs.Versions.{version_of};
ghost use Rattle.syn_image.specs.Archives.{ReadsKeptInEach, IsSpelledKept, kept_of};
ghost use Rattle.syn_image.specs.Archives.{IsSpelledArchive};
ghost use Rattle.syn_image.specs.Archives.{spelled_archive, archive_in};

use crate::image_reading::read_two;
use crate::kept::{ArchiveImage, DIR, Kept, RECORD, SESSION, front};
use std::alloc::Global;
use syn_mark::Mark;
use syn_wire::{ReadError, Reader, Version, WireError, spelling_laws};

/// What is kept, as the bytes begin with it in the version, and the rest; none where no front of
/// them is the spelling of a session, a record or a directory.
///
/// Refused 11 where memory is refused.
pub fn decode_kept(
    alloc: Global,
    version: Version,
    bytes: &[u8],
) -> Result<Option<(Kept, &[u8])>, WireError>
    ensures { IfOk result (λ read. IsReading (IsSpelledKept (version_of version))
        (kept_spelling_in (version_of version)) bytes.now
        (option_map (λ found. (kept_of found.0, found.1.now)) read)) }
{
    let mut reader = Reader::new(bytes);
    let kept = read_kept(&mut reader, alloc, version);
    reader.front(kept)
}

fn read_kept(reader: &mut Reader<'_>, alloc: Global, version: Version) -> Result<Kept, ReadError>
    ensures { Reads (IsSpelledKept (version_of version)) (kept_spelling_in (version_of version))
        kept_of reader.old reader.new result }
{
    match reader.byte()? {
        SESSION => read_session(reader),
        RECORD => read_record(reader, alloc, version),
        DIR => read_dir(reader, alloc),
        _ => Err(ReadError::Malformed),
    }
}

// What follows the kind of a session.
fn read_session(reader: &mut Reader<'_>) -> Result<Kept, ReadError>
    ensures { ReadsKeptInEach (SESSION ∷ reader.old) reader.new result }
{
    let session = reader.u64()?;
    Ok(Kept::Session(session))
}

// What follows the kind of a record.
fn read_record(reader: &mut Reader<'_>, alloc: Global, version: Version) -> Result<Kept, ReadError>
    ensures { Reads (IsSpelledKept (version_of version)) (kept_spelling_in (version_of version))
        kept_of (RECORD ∷ reader.old) reader.new result }
{
    let path = reader.path(alloc)?;
    let marks = reader.marks(alloc, version)?;
    Ok(Kept::Record(path, marks))
}

// What follows the kind of a directory.
fn read_dir(reader: &mut Reader<'_>, alloc: Global) -> Result<Kept, ReadError>
    ensures { ReadsKeptInEach (DIR ∷ reader.old) reader.new result }
{
    let path = reader.path(alloc)?;
    Ok(Kept::Dir(path))
}

/// The image of an archive of the version that the bytes begin with, and the rest; none where no
/// front of them is the spelling of what such an image may hold: another version, marks beyond the
/// limits, or marks whose root is no directory.
///
/// Refused 11 where memory is refused.
pub fn decode_archive(
    alloc: Global,
    version: Version,
    bytes: &[u8],
) -> Result<Option<(ArchiveImage, &[u8])>, WireError>
    ensures { IfOk result (λ read. IsReading (IsSpelledArchive (version_of version))
        (spelled_archive (version_of version)) bytes.now
        (option_map (λ found. (archive_in found.0, found.1.now)) read)) }
{
    let mut reader = Reader::new(bytes);
    let image = read_archive(&mut reader, alloc, version);
    reader.front(image)
}

fn read_archive(
    reader: &mut Reader<'_>,
    alloc: Global,
    version: Version,
) -> Result<ArchiveImage, ReadError>
    ensures { Reads (IsSpelledArchive (version_of version)) (spelled_archive (version_of version))
        archive_in reader.old reader.new result }
{
    spelling_laws();
    reader.expect(&front(version))?;
    let (pair, last_session) = read_two(reader)?;
    let marks = reader.mark_tree(alloc, version)?;
    match marks.root() {
        Mark::File(..) => Err(ReadError::Malformed),
        Mark::Dir => Ok(ArchiveImage {
            pair,
            last_session,
            marks,
        }),
    }
}
