//! A folder is the one that its marks are of: each is stamped before anything is recorded.
ghost use Rattle.std.specs.Prelude.{◌≢◌};
ghost use Rattle.syn_daemon.specs.declared.stamping.Progress.TheVariants.{Opened};

use std::alloc::Global;
use std::fs::Files;
use syn_folder::{EditedFolder, FolderError, StampFile, SystemFolder};
use syn_mark::MarkTree;
use syn_pair::{FolderMismatch, FolderNumber, FolderStamp, SideStatus};
use syn_path::Path;
use syn_reconcile::BeforeItems;
use syn_refusal::Refusal;

/// Keeps, beside the marks of a folder, which folder and which replica they are of.
pub trait KeepsMarks {
    /// The stamp of the folder that was kept last, as this was opened; none where nothing was.
    fn folder(&self) -> Option<FolderStamp>;

    /// Keeps what the replica says of itself and the stamp of the folder, whole and durably.
    ///
    /// Refused 9 where it cannot be kept, and 11 where memory is refused.
    fn keep(&self, replica: SideStatus, folder: FolderStamp) -> Result<(), Refusal>;
}

/// Why a folder is not stamped.
#[derive(Debug, Drop)]
pub enum StampError {
    /// The marks are not of this folder.
    Other(FolderMismatch),
    /// Its stamp cannot be read.
    Folder(FolderError),
}

/// The stamp of a folder that is open, and of its marks.
#[derive(Drop)]
pub struct Stamping<'a, 'k, F, K> {
    alloc: Global,
    file: StampFile<'a, F>,
    keeper: &'k K,
    /// What the replica said of itself before the folder was read.
    replica: Option<SideStatus>,
    /// The stamp of folder and marks; none where both get a new number.
    stamp: Option<FolderStamp>,
    progress: Progress,
}

/// How far a look at a folder has come.
#[derive(Clone, Copy, Debug, PartialEq, Eq)]
enum Progress {
    /// Nothing may be recorded yet.
    Opened,
    /// There is nothing to record.
    Idle,
    /// The stamps were raised.
    Raised,
}

impl<'a, 'k, F: Files, K: KeepsMarks> Stamping<'a, 'k, F, K> {
    /// The stamp of the folder, beside marks that have this tree and this stamp. Nothing is
    /// written. A folder beside empty marks gets a new number, and so does one where nothing is
    /// kept of the marks' folder and half of what is marked stands in it.
    ///
    /// Refused 20 where the marks are of another folder than this one, or of an older or a newer
    /// copy of it. A folder that is empty and has no stamp is left to the plan, which carries that
    /// only where it is asked for. Refused 9 where the stamp cannot be read, and 11 where memory is
    /// refused.
    pub fn open(
        alloc: Global,
        folder: &SystemFolder<'a, F>,
        marks: &MarkTree,
        keeper: &'k K,
        stamp: Option<FolderStamp>,
        replica: SideStatus,
    ) -> Result<Self, StampError> {
        let file = folder.stamp_file().map_err(StampError::Folder)?;
        let mut stamping = Stamping {
            alloc,
            file,
            keeper,
            replica: Some(replica),
            stamp: None,
            progress: Progress::Opened,
        };
        if has_marks(marks) {
            stamping.check(folder, marks, stamp)?;
            stamping.stamp = stamp;
        }
        Ok(stamping)
    }

    /// Whether the marks, which are not empty, are of the folder.
    fn check<E: EditedFolder>(
        &self,
        folder: &E,
        marks: &MarkTree,
        stamp: Option<FolderStamp>,
    ) -> Result<(), StampError> {
        let bytes = self.file.read(self.alloc).map_err(StampError::Folder)?;
        let found = FolderStamp::decode(&bytes);
        let is_empty = folder.tree().node_count() <= 1;
        let checked = match stamp {
            _ if found.is_none() && is_empty => Ok(()),
            Some(stamp) => stamp.check(found),
            None if found.is_some() => Err(FolderMismatch::OtherFolder),
            None if has_half(self.alloc, folder, marks) => Ok(()),
            None => Err(FolderMismatch::NoNumber),
        };
        checked.map_err(StampError::Other)
    }

    /// The stamp of folder and marks by now.
    pub fn stamp(&self) -> Option<FolderStamp> {
        self.stamp
    }

    /// Whether it was raised since it was opened.
    pub fn is_raised(&self) -> bool {
        self.progress == Progress::Raised
    }

    /// Keeps what the replica says of itself by now, beside the stamp that folder and marks have.
    /// Where they have none, they get one.
    ///
    /// Refused 9 where it cannot be kept, and 11 where memory is refused.
    pub fn keep(&mut self, replica: SideStatus) -> Result<(), Refusal> {
        match self.stamp {
            Some(stamp) => self.keeper.keep(replica, stamp),
            None => self.raise(replica),
        }
    }

    /// Raises the stamp of the folder, and then that of the marks, with what the replica says of
    /// itself.
    ///
    /// Refused 9 where one of them cannot be written, and 11 where memory is refused.
    pub fn raise(&mut self, replica: SideStatus) -> Result<(), Refusal> {
        let raised = match self.stamp {
            Some(stamp) => stamp.raised(),
            None => FolderStamp {
                number: self.new_number()?,
                counter: 1,
            },
        };
        self.write(raised)?;
        self.keeper.keep(replica, raised)?;
        self.stamp = Some(raised);
        Ok(())
    }

    /// A number that no folder has.
    fn new_number(&self) -> Result<FolderNumber, Refusal> {
        match self.file.draw() {
            Ok(drawn) => Ok(FolderNumber(drawn)),
            Err(error) => Err(error.refusal()),
        }
    }

    /// Gives the folder the stamp.
    fn write(&mut self, stamp: FolderStamp) -> Result<(), Refusal> {
        let Ok(bytes) = stamp.encode(self.alloc) else {
            return Err(Refusal::Memory);
        };
        match self.file.write(self.alloc, &bytes) {
            Ok(()) => Ok(()),
            Err(error) => Err(error.refusal()),
        }
    }
}

impl<F: Files, K: KeepsMarks> BeforeItems for Stamping<'_, '_, F, K> {
    ghost has_begun = { λ stamping. stamping.progress ≢ Opened };

    fn begin(&mut self, items: usize) -> Result<(), Refusal> {
        if items == 0 {
            self.progress = Progress::Idle;
            return Ok(());
        }
        if let Some(replica) = self.replica.take() {
            self.raise(replica)?;
        }
        self.progress = Progress::Raised;
        Ok(())
    }
}

/// Raises the stamp of the folder of this name and of its marks, where both have this one.
///
/// Refused 20 where the folder has another one, 9 where one of them cannot be read or written, and
/// 11 where memory is refused.
pub(crate) fn raise<F: Files, K: KeepsMarks>(
    alloc: Global,
    files: &F,
    root: &str,
    keeper: &K,
    stamp: Option<FolderStamp>,
    replica: SideStatus,
) -> Result<(), Refusal> {
    let file = match StampFile::open(alloc, files, root) {
        Ok(file) => file,
        Err(error) => return Err(error.refusal()),
    };
    let bytes = match file.read(alloc) {
        Ok(bytes) => bytes,
        Err(error) => return Err(error.refusal()),
    };
    if stamp.is_none() || FolderStamp::decode(&bytes) != stamp {
        return Err(Refusal::WrongPair);
    }
    let mut stamping = Stamping {
        alloc,
        file,
        keeper,
        replica: None,
        stamp,
        progress: Progress::Opened,
    };
    stamping.raise(replica)
}

/// Anything but the root is marked.
fn has_marks(marks: &MarkTree) -> bool {
    marks.node_count() > 1
}

/// At least half of what is marked below the root stands in the folder.
fn has_half<E: EditedFolder>(alloc: Global, folder: &E, marks: &MarkTree) -> bool {
    let marked = marks.below(&Path::root(alloc));
    let standing = marked
        .iter()
        .filter(|entry| folder.tree().get(entry.path()).is_some())
        .count();
    standing.saturating_mul(2) >= marked.len()
}
