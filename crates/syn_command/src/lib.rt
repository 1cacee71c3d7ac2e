//! What a command does with a disk, why it is refused, and the status that it ends with.
//!
//! An image on a disk is opened, made, shown and checked, an edit of a replica is made as a command
//! asks for it, and of two servers it is told what a session would do. How a command came out is
//! told on standard error, and is the exit status. Which disk it is, is the caller's to say:
//! nothing here opens a file or a connection.
//!
//! # What it promises
//!
//! - `make_edit`, over any disk and any reader, makes the edit that the command asks for at the
//!   path that the command names. Where it answers, the history has one more event, by the
//!   command's user, and a put is of all that was left of the input (`acknowledged`). At any moment
//!   the disk stands for the history, or for it with that event (`any_moment`). An edit that the
//!   history refuses is refused so (`refused`), and each refusal has its cause (`cause`). After one
//!   other than 9 the replica stands as it did (`unchanged`).
//! - `open_image`, over any disk, answers an archive where the disk has one (`archive`), and a
//!   replica where it has one (`replica`). What it answers is what the disk gives (`given`), and
//!   begins with the letters of its kind (`letters`). Nothing is written (`untouched`). A refusal
//!   has its cause: 19 says that the disk has neither (`refusals`).
//! - `migrate_image`, over any disk, makes what the disk has an image of version 2. It stands for
//!   what the disk stood for, in whichever version (`archive`, `replica`). A stop at any moment
//!   leaves that in version 1 or in version 2 (`archive_moments`, `replica_moments`). A disk that
//!   is not of version 1 stays as it is (`same`). A refusal has its cause, and leaves the disk as
//!   it was unless it is 9 (`refusals`, `untouched`).
//! - `format_image` makes a new replica or a new archive of the pair (`formatted`).
//! - `show_image` and `show_path` work over any disk and any writer (`printed`, `content_shown`).
//!   They add the image's first line and a line for each path, in path order. Or they add the bytes
//!   of the file, or the lines of what is strictly below the directory. They are refused 5 exactly
//!   where nothing is there.
//! - `print_image_numbers` adds the line of numbers of the image (`printed`).
//! - The status of an answer is exact: 0 for one that was done, 1 for one that was refused
//!   (`report`).
//! - `export_part` writes what is at a path of a tree into a folder, any that is a `Folder`. The
//!   folder's tree is that then (`whole`), or has it beside what stood elsewhere (`added`). What
//!   can stand in no replica is not there, or not where something is written (`known`, `apart`). A
//!   refusal leaves the folder as it was, unless a call of the system fails (`refused`).
//! - `import_folder` makes what is at a path of a replica the tree of a folder (`part`). Then the
//!   replica stands for the history with edits of the user after it (`imported`), and for the same
//!   history where the tree was there already (`none`). What can stand in no replica refuses it
//!   (`known`), or is skipped: then the replica keeps what it has there. A stop at any time leaves
//!   the history alone or with all of these edits (`any_moment`). What the plan refuses leaves the
//!   disk as it was (`refused`). `import_part` is the same with a tree, and `part_of` the tree that
//!   a folder gives. `plan_import` gives the
//!   edits: each of them is needed, and no two are alike (`changes`). It tells which limit they
//!   would pass.
//! - `send_edits` asks a server for such edits. Where it succeeds, they were asked for one after
//!   another, and each was answered with the position after the one before (`made`). Else some of
//!   them were, and at most the next one was asked for besides (`stopped`).
//! - `plan_between` answers what a session of two servers would do. It lists both over their
//!   connections as a session lists them. It answers the plan of the two scans and the marks
//!   (`items`), as `syn_recon` has it. Nothing begins, nothing is carried, and nothing is recorded.
//!   Each scan is by what its side replied, one listing after another (`left`, `right`:
//!   `IsScanned`). It is refused for lack of memory, or where a side was not scanned (`cause`:
//!   `NotScanned`). Then a listing was refused, or the reply to it ends a session, or more were
//!   asked for than a scan has nodes.
#![tactic(auto)]

mod check;
mod edit;
mod error;
mod export;
mod failure;
mod image;
mod import;
mod mismatch;
mod outcome;
mod planning;
mod preview;
mod progress;
mod sending;
mod session_lines;
mod show;
mod status;
mod teller;
mod telling;

pub use check::print_image_numbers;
pub use edit::{make_edit, read_edit};
pub use error::{BesideError, CommandError};
pub use export::export_part;
pub use failure::Failure;
pub use image::{OpenedImage, format_image, migrate_image, open_image};
pub use import::{Import, import_folder, import_part, part_of};
pub use outcome::{Outcome, outcome_of, outcome_planned};
pub use planning::plan_import;
pub use preview::plan_between;
pub use progress::SessionProgress;
pub use sending::send_edits;
pub use session_lines::{carried_line, marked_line};
pub use show::{show_image, show_path};
pub use status::Status;
pub use teller::{Teller, Verbosity};
pub use telling::{print_meanings, tell_answer};
