//! An archive from what its disk holds.
ghost use Rattle.std.specs.Prelude.{◌≡◌, ◌≢◌, ◌⊎◌, ◌<◌, ◌^◌, ℕ, List, IfOk, IfErr, OnOk, Some};
ghost use Rattle.std.specs.Prelude.{None, option_map, map};
ghost use Rattle.syn_model.specs.Archive as model;
ghost use Rattle.syn_model.specs.Archive.{CanKeepIn};
ghost use Rattle.syn_model.specs.ArchiveImage.{AllKeptIn, ArchiveStandsFor, ArchiveStandsForIn};
ghost use Rattle.syn_model.specs.ArchiveImage.{IsArchive};
ghost use Rattle.syn_model.specs.Mark.{IsMarks};
ghost use Rattle.syn_model.specs.MarkSpelling.{kept_spelling_in};
ghost use Rattle.syn_model.specs.Path.{IsPath};
ghost use Rattle.syn_model.specs.Tree.{replace};
ghost use Rattle.syn_mark.specs.Changes.{replace_refusal};
ghost use Rattle.syn_mark.specs.Marks.{or_absent};
ghost use Rattle.syn_wire.specs.Versions.{version_of};
ghost use Rattle.syn_image.specs.Archives.{kept_of};
ghost use Rattle.syn_archive.specs.Disks.{StandsForNoneIn};
ghost use Rattle.syn_archive.specs.inner.Agreements.{IsUnread};
ghost use Rattle.syn_archive.specs.inner.Openings.{AddsKept, Keeps, Replays, IsKeptOf, IsImageOf};
ghost use Rattle.syn_archive.specs.inner.Openings.{archive_read, bytes_of_each, CannotKeep};
ghost use Rattle.syn_archive.specs.inner.Openings.{IsOfPayload};

use crate::error::ArchiveError;
use crate::laws::opening_laws;
use std::alloc::Global;
use syn_image::{
    ArchiveImage, Kept, decode_archive, decode_kept, image_laws, is_old_archive, is_other_pair,
};
use syn_mark::{Mark, MarkTree};
use syn_path::Path;
use syn_tree::TreeError;
use syn_wire::{Version, WireError};

/// The pair and the archive that the image with the payloads stands for in the version.
///
/// Refused 19 where it stands for none, and 11 where memory is refused.
pub(crate) fn read_archive(
    alloc: Global,
    version: Version,
    image: &[u8],
    payloads: &[Vec<u8>],
) -> Result<ArchiveImage, ArchiveError>
    ensures fits { IfOk result (λ read. read.pair < 2 ^ 64) }
    ensures stands { IfOk result (λ read. ArchiveStandsForIn (version_of version) read.pair
        image.now (bytes_of_each payloads.now) (archive_read read)) }
    ensures refusals { IfErr result IsOfPayload }
    ensures damaged { IfErr result (λ e. e ≡ ArchiveError.Damaged
        → StandsForNoneIn (version_of version) image.now (bytes_of_each payloads.now)) }
{
    opening_laws();
    let mut archive = read_image(alloc, version, image)?;
    keep_each(alloc, version, &mut archive, payloads)?;
    Ok(archive)
}

/// The pair and the archive that the image with the payloads stands for in the second version.
///
/// Refused 26 where the image is of the first version, 19 where it stands for no archive, 20 where
/// the pair is not the wanted one, and 11 where memory is refused.
pub(crate) fn read_wanted(
    alloc: Global,
    image: &[u8],
    wanted: Option<u64>,
    payloads: &[Vec<u8>],
) -> Result<ArchiveImage, ArchiveError>
    ensures fits { IfOk result (λ read. read.pair < 2 ^ 64) }
    ensures stands { IfOk result (λ read. ArchiveStandsFor read.pair image.now
        (bytes_of_each payloads.now) (archive_read read)) }
    ensures wanted { IfOk result (λ read. (asked : ℕ) → wanted ≡ Some asked → asked ≡ read.pair) }
    ensures unread { IfErr result (λ e.
        IsUnread e wanted image.now (bytes_of_each payloads.now)) }
{
    if is_old_archive(image) {
        return Err(ArchiveError::OldVersion);
    }
    let read = read_archive(alloc, Version::Two, image, payloads)?;
    if is_other_pair(wanted, read.pair) {
        return Err(ArchiveError::WrongPair);
    }
    Ok(read)
}

/// The archive of the pair that the image with the payloads stands for in the second version.
///
/// Refused 19 where it stands for none of the pair, and 11 where memory is refused.
pub(crate) fn read_own(
    alloc: Global,
    image: &[u8],
    pair: u64,
    payloads: &[Vec<u8>],
) -> Result<ArchiveImage, ArchiveError>
    ensures fits { IfOk result (λ read. read.pair < 2 ^ 64) }
    ensures pair { IfOk result (λ read. read.pair ≡ pair) }
    ensures stands { IfOk result (λ read. ArchiveStandsFor read.pair image.now
        (bytes_of_each payloads.now) (archive_read read)) }
    ensures refusals { IfErr result IsOfPayload }
    ensures damaged { IfErr result (λ e. e ≡ ArchiveError.Damaged → (archive : model.Archive)
        → ¬ ArchiveStandsFor pair image.now (bytes_of_each payloads.now) archive) }
{
    opening_laws();
    let read = read_archive(alloc, Version::Two, image, payloads)?;
    if read.pair != pair {
        return Err(ArchiveError::Damaged);
    }
    Ok(read)
}

/// The pair and the archive of which it is the image in the version.
///
/// Refused 19 where it is of none, and 11 where memory is refused.
fn read_image(alloc: Global, version: Version, image: &[u8]) -> Result<ArchiveImage, ArchiveError>
    ensures read { IfOk result (λ read.
        IsImageOf (version_of version) image.now read.pair (archive_read read)) }
    ensures sound { IfOk result (λ read. IsArchive (archive_read read)) }
    ensures refusals { IfErr result IsOfPayload }
    ensures damaged { IfErr result (λ e. e ≡ ArchiveError.Damaged
        → (pair : ℕ) (archive : model.Archive)
        → ¬ IsImageOf (version_of version) image.now pair archive) }
{
    image_laws();
    let Some((read, rest)) = decode_archive(alloc, version, image)? else {
        return Err(ArchiveError::Damaged);
    };
    if !rest.is_empty() {
        return Err(ArchiveError::Damaged);
    }
    Ok(read)
}

/// Keeps what each payload in turn is, which has to be what can be kept then.
///
/// Refused 19 where it cannot, and 11 where memory is refused.
fn keep_each(
    alloc: Global,
    version: Version,
    archive: &mut ArchiveImage,
    payloads: &[Vec<u8>],
) -> Result<(), ArchiveError>
    requires { IsArchive (archive_read archive.old) }
    ensures replays { OnOk result (Replays (version_of version) (archive_read archive.old)
        (bytes_of_each payloads.now) (archive_read archive.new)) }
    ensures pair { archive.new.pair ≡ archive.old.pair }
    ensures refusals { IfErr result IsOfPayload }
    ensures damaged { IfErr result (λ e. e ≡ ArchiveError.Damaged → (kept : List model.Kept)
        → AllKeptIn (version_of version) (archive_read archive.old) kept
        → bytes_of_each payloads.now ≢ map (kept_spelling_in (version_of version)) kept) }
{
    opening_laws();
    for payload in payloads {
        add_payload(alloc, version, archive, payload)?;
    }
    Ok(())
}

/// Keeps what one payload is.
///
/// Refused 19 where it is nothing that can be kept, and 11 where memory is refused.
fn add_payload(
    alloc: Global,
    version: Version,
    archive: &mut ArchiveImage,
    payload: &[u8],
) -> Result<(), ArchiveError>
    ensures added { OnOk result (AddsKept (version_of version) (archive_read archive.old)
        payload.now (archive_read archive.new)) }
    ensures pair { archive.new.pair ≡ archive.old.pair }
    ensures refusals { IfErr result IsOfPayload }
    ensures damaged { IfErr result (λ e. e ≡ ArchiveError.Damaged → (kept : model.Kept)
        → IsArchive (archive_read archive.old)
        → payload.now ≡ kept_spelling_in (version_of version) kept
        → ¬ CanKeepIn (version_of version) (archive_read archive.old) kept) }
{
    opening_laws();
    let Some(kept) = read_kept(alloc, version, payload)? else {
        return Err(ArchiveError::Damaged);
    };
    keep(alloc, archive, kept)
}

/// What the payload is; none where it is nothing that is kept. Refused 11 where memory is refused.
fn read_kept(alloc: Global, version: Version, payload: &[u8]) -> Result<Option<Kept>, WireError>
    ensures { IfOk result (λ read.
        IsKeptOf (version_of version) payload.now (option_map kept_of read)) }
{
    image_laws();
    let Some((kept, rest)) = decode_kept(alloc, version, payload)? else {
        return Ok(None);
    };
    if rest.is_empty() {
        Ok(Some(kept))
    } else {
        Ok(None)
    }
}

/// Keeps it. Refused 19 where it cannot be kept, and 11 where memory is refused.
fn keep(alloc: Global, archive: &mut ArchiveImage, kept: Kept) -> Result<(), ArchiveError>
    ensures keeps { OnOk result (Keeps (archive_read archive.old) (kept_of kept)
        (archive_read archive.new)) }
    ensures pair { archive.new.pair ≡ archive.old.pair }
    ensures refused { IfErr result (λ e.
        CannotKeep e (archive_read archive.old) (kept_of kept)) }
{
    match kept {
        Kept::Session(session) => begin(archive, session),
        Kept::Record(path, marks) => put(alloc, &mut archive.marks, &path, marks),
        Kept::Dir(path) => make_dir(alloc, archive, &path),
    }
}

/// Begins the session. Refused 19 where it is not one above the last.
fn begin(archive: &mut ArchiveImage, session: u64) -> Result<(), ArchiveError>
    ensures keeps { OnOk result (Keeps (archive_read archive.old) (model.Session session)
        (archive_read archive.new)) }
    ensures pair { archive.new.pair ≡ archive.old.pair }
    ensures refused { IfErr result (λ e.
        CannotKeep e (archive_read archive.old) (model.Session session)) }
{
    if archive.last_session == u64::MAX || session != archive.last_session + 1 {
        return Err(ArchiveError::Damaged);
    }
    archive.last_session = session;
    Ok(())
}

/// Makes a directory at the path, where none is. Refused 19 where none may be made, and 11 where
/// memory is refused.
fn make_dir(alloc: Global, archive: &mut ArchiveImage, path: &Path) -> Result<(), ArchiveError>
    ensures keeps { OnOk result (Keeps (archive_read archive.old) (model.RecordedDir path.now)
        (archive_read archive.new)) }
    ensures pair { archive.new.pair ≡ archive.old.pair }
    ensures refused { IfErr result (λ e.
        CannotKeep e (archive_read archive.old) (model.RecordedDir path.now)) }
{
    if path.names().is_empty() {
        return Err(ArchiveError::Damaged);
    }
    match archive.marks.get(path) {
        Some(Mark::Dir) => Ok(()),
        _ => {
            let directory = MarkTree::of_mark(alloc, Mark::Dir)?;
            put(alloc, &mut archive.marks, path, Some(directory))
        }
    }
}

/// Puts the marks, or nothing, at the path. Refused 19 where they may not stand there, and 11 where
/// memory is refused.
fn put(
    alloc: Global,
    marks: &mut MarkTree,
    path: &Path,
    new: Option<MarkTree>,
) -> Result<(), ArchiveError>
    ensures put { OnOk result (marks.new ≡ replace marks.old path.now (or_absent new)) }
    ensures allowed { OnOk result
        (replace_refusal marks.old path.now (or_absent new) ≡ None) }
    ensures path { OnOk result (IsPath path.now) }
    ensures marks { OnOk result (IsMarks (or_absent new)) }
    ensures refused { IfErr result (λ e. (e ≡ ArchiveError.Memory)
        ⊎ ((e ≡ ArchiveError.Damaged)
        × (replace_refusal marks.old path.now (or_absent new) ≢ None))) }
{
    match marks.prepare_replace(alloc, path, new) {
        Ok(change) => {
            marks.make(change);
            Ok(())
        }
        Err(TreeError::Memory) => Err(ArchiveError::Memory),
        Err(_) => Err(ArchiveError::Damaged),
    }
}
