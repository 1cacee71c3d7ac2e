//! A record that was sent to the disk, and may be there or not.
ghost use Rattle.std.specs.Prelude.{◌≡◌, option_map};
ghost use Rattle.syn_coordinator.specs.Tries.{IsTriedBy, found_in, is_in, record_of};
ghost use Rattle.syn_image.specs.Archives.{kept_of};

use syn_archive::Archive;
use syn_disk::Disk;
use syn_image::Kept;

/// A record that was being written as a device call failed, with what the archive's journal showed
/// after it. Whether the disk has the record shows when it is opened again.
#[derive(Debug, Drop)]
pub struct TriedRecord {
    pub(crate) kept: Kept,
    pub(crate) room: usize,
    pub(crate) generation: u64,
}

impl TriedRecord {
    /// The record, tried in this archive now.
    pub fn new<D: Disk>(kept: Kept, archive: &Archive<D>) -> TriedRecord
        ensures { IsTriedBy archive.now (kept_of kept) result }
    {
        TriedRecord {
            kept,
            room: archive.room(),
            generation: archive.generation(),
        }
    }

    /// Whether the archive, which was opened again, has the record.
    fn is_in<D: Disk>(&self, archive: &Archive<D>) -> bool
        ensures { result ≡ is_in self.now archive.now }
    {
        archive.generation() == self.generation && archive.room() < self.room
    }

    /// The record.
    pub fn kept(&self) -> &Kept
        ensures { kept_of result.now ≡ record_of self.now }
    {
        &self.kept
    }
}

/// The record that was tried, where the archive, which was opened again, has it.
pub fn recovered_record<D: Disk>(tried: Option<TriedRecord>, archive: &Archive<D>) -> Option<Kept>
    ensures { option_map kept_of result ≡ found_in tried archive.now }
{
    match tried {
        Some(tried) => {
            if tried.is_in(archive) {
                Some(tried.kept)
            } else {
                None
            }
        }
        None => None,
    }
}
