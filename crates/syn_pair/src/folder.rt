//! The folder that marks are of.
ghost use Rattle.std.specs.Prelude.{◌≡◌, ◌++◌, ◌↔◌, IfErr, IfOk, IfSome, OnOk, Some, true};
ghost use Rattle.std.specs.Prelude.{◌<◌, ◌^◌, option_map, suc};
ghost use Rattle.syn_pair.specs.Folders.{AreOfFolder, AreNotOfFolder, stamp_of, stamp_spelling};
ghost use Rattle.syn_model.specs.Refusal.{WrongPair};
ghost use Rattle.syn_refusal.specs.Refusals.{cause_of};

use std::alloc::Global;
use std::fmt;
use syn_refusal::Refusal;
use syn_wire::{ReadError, Reader, WireError, write_u64};

/// How many bytes the number of a folder has.
pub const FOLDER_NUMBER_LENGTH: usize = 16;

/// What no two folders have both.
#[derive(Clone, Copy, Debug, PartialEq, Eq)]
pub struct FolderNumber(pub [u8; FOLDER_NUMBER_LENGTH]);

/// What a folder is known by. It lies in the folder, and beside the marks of it.
///
/// Before anything is recorded the folder gets the counter of the marks and one more, and then the
/// marks get that, too. So a folder is equal to its marks, or one above them where a stop came in
/// between.
#[derive(Clone, Copy, Debug, PartialEq, Eq)]
pub struct FolderStamp {
    /// Drawn at random as the marks were begun.
    pub number: FolderNumber,
    /// It is raised before anything is recorded.
    pub counter: u64,
}

/// Why a folder is not the one that marks are of.
#[derive(Clone, Copy, Debug, PartialEq, Eq)]
pub enum FolderMismatch {
    /// It has no number, as the directory in which a folder was mounted has none.
    NoNumber,
    /// It has another number.
    OtherFolder,
    /// It is older than the marks, as a folder is that was put back from a copy.
    OlderFolder { marks: u64, folder: u64 },
    /// The marks are older than the folder.
    OlderMarks { marks: u64, folder: u64 },
}

impl FolderMismatch {
    /// Which refusal it is: 20.
    pub fn refusal(&self) -> Refusal
        ensures { cause_of result ≡ WrongPair }
    {
        Refusal::WrongPair
    }
}

/// What is wrong with the folder, as a part of a sentence.
impl fmt::Display for FolderMismatch {
    fn fmt<W: fmt::Write>(&self, f: &mut fmt::Formatter<W>) -> fmt::Result {
        match self {
            FolderMismatch::NoNumber => write!(f, "it has no number, as where a mount is missing"),
            FolderMismatch::OtherFolder => write!(f, "it has another number"),
            FolderMismatch::OlderFolder { marks, folder } => {
                write!(
                    f,
                    "it is an older copy: its count is {folder}, and theirs is {marks}"
                )
            }
            FolderMismatch::OlderMarks { marks, folder } => {
                write!(
                    f,
                    "they are older: their count is {marks}, and its is {folder}"
                )
            }
        }
    }
}

impl FolderStamp {
    /// Whether marks that have this stamp are of the folder that was found with the other one.
    ///
    /// Refused 20 where they are not.
    pub fn check(&self, found: Option<FolderStamp>) -> Result<(), FolderMismatch>
        ensures of { OnOk result (IfSome found (λ folder. AreOfFolder (stamp_of self.now)
            (stamp_of folder))) }
        ensures not_of { IfErr result (AreNotOfFolder (stamp_of self.now)
            (option_map stamp_of found)) }
    {
        match found {
            Some(folder) => self.check_stamp(&folder),
            None => Err(FolderMismatch::NoNumber),
        }
    }

    /// The same of a folder that has a stamp.
    fn check_stamp(&self, found: &FolderStamp) -> Result<(), FolderMismatch>
        ensures of { OnOk result (AreOfFolder (stamp_of self.now) (stamp_of found.now)) }
        ensures not_of { IfErr result (AreNotOfFolder (stamp_of self.now)
            (Some (stamp_of found.now))) }
    {
        if !are_same(found.number, self.number) {
            return Err(FolderMismatch::OtherFolder);
        }
        let (marks, folder) = (self.counter, found.counter);
        if folder < marks {
            return Err(FolderMismatch::OlderFolder { marks, folder });
        }
        if folder - marks > 1 {
            return Err(FolderMismatch::OlderMarks { marks, folder });
        }
        Ok(())
    }

    /// The stamp that comes after it.
    pub fn raised(&self) -> FolderStamp
        ensures number { result.number ≡ self.now.number }
        ensures counter { suc self.now.counter < 2 ^ 64 → result.counter ≡ suc self.now.counter }
    {
        FolderStamp {
            number: self.number,
            counter: self.counter.saturating_add(1),
        }
    }

    /// The bytes of it: the number, and then the counter in eight bytes, the greatest first.
    ///
    /// Refused 11 where memory is refused.
    pub fn encode(&self, alloc: Global) -> Result<Vec<u8>, WireError>
        ensures { IfOk result (λ bytes. bytes.items ≡ stamp_spelling (stamp_of self.now)) }
    {
        let mut bytes = Vec::new(alloc);
        self.write(&mut bytes)?;
        Ok(bytes)
    }

    /// The stamp that these bytes are; none where they are none.
    pub fn decode(bytes: &[u8]) -> Option<FolderStamp>
        ensures { IfSome result (λ stamp. bytes.now ≡ stamp_spelling (stamp_of stamp)) }
    {
        let mut reader = Reader::new(bytes);
        let Ok(stamp) = read_stamp(&mut reader) else {
            return None;
        };
        match reader.end() {
            Ok(()) => Some(stamp),
            Err(_) => None,
        }
    }

    /// Adds the bytes of it.
    pub(crate) fn write(&self, bytes: &mut Vec<u8>) -> Result<(), WireError>
        ensures { OnOk result (bytes.new.items
            ≡ bytes.old.items ++ stamp_spelling (stamp_of self.now)) }
    {
        let FolderNumber(number) = self.number;
        bytes.extend_from_slice(&number)?;
        write_u64(bytes, self.counter)?;
        Ok(())
    }
}

fn are_same(one: FolderNumber, other: FolderNumber) -> bool
    ensures { (result ≡ true) ↔ (one.0 ≡ other.0) }
{
    one == other
}

/// A stamp.
pub(crate) fn read_stamp(reader: &mut Reader<'_>) -> Result<FolderStamp, ReadError>
    ensures { IfOk result (λ stamp. reader.old ≡ stamp_spelling (stamp_of stamp) ++ reader.new) }
{
    let number = FolderNumber(reader.array()?);
    let counter = reader.u64()?;
    Ok(FolderStamp { number, counter })
}
