//! Folders outside of any replica: what a tree has is written into one, and read from one.
//!
//! # What it promises
//!
//! A `Folder` shows the tree of the files and directories that stand in it. In a `WrittenFolder`
//! `make_all` makes edits of that tree. `fill` and `mirror` leave the wanted tree in the folder
//! (`done`), and `update` adds it. Each of the three is refused before anything is written, with
//! the folder as it was, or since a call of the system failed, and then a part may be written
//! (`refused`). Such a failure is refused 9, or 11 where it is for lack of memory
//! (`FolderError::refusal`). `SystemFolder` is a folder of the system with its tree in memory, and
//! `ExportedFolder` one that is written. What the standard library's calls do to a folder no clause
//! says: that the system's folder follows the memory is taken as given.
//!
//! It is read as it is (`SystemFolder::open`). There are looks, each of which holds what the calls
//! gave at a path. The tree has at each path what the look there shows, each name that a directory
//! lists was looked at, and what can stand in no replica is told, but nothing else. That the looks
//! hold what stands in the folder is taken as given.
//!
//! An `EditedFolder` is one that people go on editing. It shows the tree that was read of it, and
//! has one call that changes it: `replace`, which puts a part in the place of another only where
//! that is still what was read. A `SystemFolder` moves what it replaces into `.syn/kept`, by calls
//! whose order is proved, and tells where it lies (`Kept`); what each call does is taken as given.
//!
//! A `Glimpse` is how a folder of the system looks from outside. Two are the same exactly where the
//! same names were listed and what stood there looked the same (`is_same`).
#![tactic(auto)]

mod edited;
mod error;
mod export;
mod folder;
mod import;
mod kept;
mod stranger;
mod system;

pub use edited::EditedFolder;
pub use error::FolderError;
pub use export::{fill, mirror, update};
pub use folder::{Folder, WrittenFolder};
pub use import::{all_known, skipping};
pub use kept::Kept;
pub use stranger::{Strangeness, Stranger};
pub use system::{ExportedFolder, Glimpse, StampFile, SystemFolder, take_glimpse};
