//! What an archive keeps, and the image of an archive.
ghost use Rattle.std.specs.Prelude.{◌≡◌, ◌↔◌, true, length, IfOk, option_map};
ghost use Rattle.syn_model.specs.Archive.{Session, Recorded, RecordedDir};
ghost use Rattle.syn_model.specs.MarkSpelling.{IsOldArchiveImage, archive_front};
ghost use Rattle.syn_model.specs.MarkSpelling.{archive_spelling, kept_spelling};
ghost use Rattle.syn_mark.specs.Marks.{or_absent};
ghost use Rattle.syn_wire.specs.Versions.{version_of};
ghost use Rattle.syn_image.specs.Archives.{kept_of};

use std::alloc::{AllocError, Global};
use syn_mark::MarkTree;
use syn_path::Path;
use syn_wire::{
    Version, WireError, optional_marks_length, path_length, write_marks, write_optional_marks,
    write_path, write_u64,
};

/// How many bytes spell the number of a session that begins, with its kind.
pub const SESSION_LENGTH: usize = 9;

pub(crate) const SESSION: u8 = 1;

pub(crate) const RECORD: u8 = 2;

pub(crate) const DIR: u8 = 3;

/// What is kept in an archive.
#[derive(Debug, Drop)]
pub enum Kept {
    /// The number of a session that begins.
    Session(u64),
    /// The marks at and below the path, or that nothing is there.
    Record(Path, Option<MarkTree>),
    /// A directory is at the path, with what the archive has below it.
    Dir(Path),
}

/// What is kept for an item of a plan: all but the number of a session.
#[derive(Debug, Drop)]
pub enum ItemRecord {
    /// The marks at and below the path, or that nothing is there.
    Record(Path, Option<MarkTree>),
    /// A directory is at the path, with what the archive has below it.
    Dir(Path),
}

impl From<ItemRecord> for Kept {
    ghost use Rattle.syn_image.specs.Archives.{kept_for, kept_of};

    ghost from_gives = { λ item kept. kept_of kept ≡ kept_for item };

    fn from(item: ItemRecord) -> Kept {
        match item {
            ItemRecord::Record(path, marks) => Kept::Record(path, marks),
            ItemRecord::Dir(path) => Kept::Dir(path),
        }
    }
}

impl Kept {
    /// The same, on its own. Refused where memory is refused.
    pub fn copy(&self, alloc: Global) -> Result<Kept, AllocError>
        ensures { IfOk result (λ copy. kept_of copy ≡ kept_of self.now) }
    {
        match self {
            Kept::Session(session) => Ok(Kept::Session(*session)),
            Kept::Record(path, marks) => {
                let marks = copied_marks(alloc, marks.as_ref())?;
                Ok(Kept::Record(path.copy(alloc)?, marks))
            }
            Kept::Dir(path) => Ok(Kept::Dir(path.copy(alloc)?)),
        }
    }
}

/// Equal marks of their own, or none. Refused where memory is refused.
pub fn copied_marks(alloc: Global, marks: Option<&MarkTree>) -> Result<Option<MarkTree>, AllocError>
    ensures { IfOk result (λ copy. or_absent copy
        ≡ or_absent (option_map (λ there. there.now) marks.entry)) }
{
    let Some(there) = marks else {
        return Ok(None);
    };
    Ok(Some(there.copy(alloc)?))
}

/// What the image of an archive holds.
#[derive(Debug, Drop)]
pub struct ArchiveImage {
    /// The number of the pair that the archive is of.
    pub pair: u64,
    /// The number of the last session; 0 before the first.
    pub last_session: u64,
    /// The marks, whose root is a directory.
    pub marks: MarkTree,
}

/// The spelling of what is kept.
///
/// Refused 11 where memory is refused.
pub fn encode_kept(alloc: Global, kept: &Kept) -> Result<Vec<u8>, WireError>
    ensures { IfOk result (λ bytes. bytes.items ≡ kept_spelling (kept_of kept.now)) }
{
    match kept {
        Kept::Session(session) => encode_session(alloc, *session),
        Kept::Record(path, marks) => encode_record(alloc, path, marks.as_ref()),
        Kept::Dir(path) => encode_dir(alloc, path),
    }
}

/// The spelling of a session that begins. Refused 11 where memory is refused.
pub fn encode_session(alloc: Global, session: u64) -> Result<Vec<u8>, WireError>
    ensures { IfOk result (λ bytes. bytes.items ≡ kept_spelling (Session session)) }
{
    let mut out = Vec::with_capacity(alloc, SESSION_LENGTH)?;
    out.push(SESSION)?;
    write_u64(&mut out, session)?;
    Ok(out)
}

/// The spelling of the marks that are recorded at a path. Refused 11 where memory is refused.
pub fn encode_record(
    alloc: Global,
    path: &Path,
    marks: Option<&MarkTree>,
) -> Result<Vec<u8>, WireError>
    ensures { IfOk result (λ bytes. bytes.items ≡ kept_spelling
        (Recorded path.now (or_absent (option_map (λ there. there.now) marks.entry)))) }
{
    let mut out = Vec::new(alloc);
    out.push(RECORD)?;
    write_path(&mut out, path)?;
    write_optional_marks(&mut out, marks)?;
    Ok(out)
}

/// The spelling of a directory that is recorded. Refused 11 where memory is refused.
pub fn encode_dir(alloc: Global, path: &Path) -> Result<Vec<u8>, WireError>
    ensures { IfOk result (λ bytes. bytes.items ≡ kept_spelling (RecordedDir path.now)) }
{
    let mut out = Vec::new(alloc);
    out.push(DIR)?;
    write_path(&mut out, path)?;
    Ok(out)
}

/// How many bytes spell the marks that are recorded at a path. It takes no memory.
pub fn record_length(path: &Path, marks: Option<&MarkTree>) -> usize
    ensures { result ≡ length (kept_spelling
        (Recorded path.now (or_absent (option_map (λ there. there.now) marks.entry)))) }
{
    1 + path_length(path) + optional_marks_length(marks)
}

/// How many bytes spell a directory that is recorded. It takes no memory.
pub fn dir_length(path: &Path) -> usize
    ensures { result ≡ length (kept_spelling (RecordedDir path.now)) }
{
    1 + path_length(path)
}

/// The letters and the version that an archive's image begins with.
pub(crate) fn front(version: Version) -> [u8; 5]
    ensures { result ≡ archive_front (version_of version) }
{
    [b'S', b'Y', b'N', b'A', version.number()]
}

/// Whether the bytes begin as an archive's image of the first version does, whatever follows.
pub fn is_old_archive(bytes: &[u8]) -> bool
    ensures { (result ≡ true) ↔ IsOldArchiveImage bytes.now }
{
    bytes.starts_with(&front(Version::One))
}

/// The spelling of the image of an archive of the pair, with this last session and these marks.
///
/// Refused 11 where memory is refused.
pub fn encode_archive(
    alloc: Global,
    pair: u64,
    last_session: u64,
    marks: &MarkTree,
) -> Result<Vec<u8>, WireError>
    ensures { IfOk result (λ bytes. bytes.items ≡ archive_spelling pair
        (record { marks = marks.now; last_session = last_session })) }
{
    let mut out = Vec::new(alloc);
    out.extend_from_slice(&front(Version::Two))?;
    write_u64(&mut out, pair)?;
    write_u64(&mut out, last_session)?;
    write_marks(&mut out, marks)?;
    Ok(out)
}
