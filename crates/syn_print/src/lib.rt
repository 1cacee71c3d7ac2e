//! What is printed of an image, of its last events, of a session that ended, and of a plan.
//!
//! # What it promises
//!
//! Each function that prints works over any writer. Where it answers, just the lines that its
//! clause names were added. Otherwise it is refused 9 or 11 (`PrintError`).
//!
//! - **An image**: `show_replica` and `show_archive`, over any disk, and `show_served`, of a
//!   replica that is served (`replica_shown`, `archive_shown`, `served_shown`). A line says which
//!   image it is, with its pair and its numbers. Then each path has a line, in path order. Of a
//!   directory it is `d PATH`, of a file of a replica `f PATH MODE LENGTH DIGEST`, and of a file
//!   that an archive keeps `f PATH MODE DIGEST`. The mode has three octal digits, and the
//!   SHA-256 digest is in hexadecimal ones. `show_below` prints the paths below one directory
//!   (`lines_below`).
//! - **A session that ended**: `show_report` (`report_lines`). A line says how it ended, and one
//!   has its numbers. Then, in path order, `conflict PATH` is a conflict, and
//!   `refused NUMBER PATH` an item that was refused, with the refusal's number. Those of one path
//!   stand as they stood, the conflicts first (`in_order`). At last `ended NUMBER` says what ended
//!   it early, if anything did. Only the order takes memory: that is tested.
//! - **The last events of a replica**: `read_log` answers what its disk has of them, the oldest
//!   first (`TellsLast`). The journal has the events since its last checkpoint, whole. Of those
//!   before, the image has which path each changed, for the last 4,096 of them. It is refused only
//!   for a cause for which the disk is opened as no replica (`cause`: `IsOpenRefusal`). `show_log`
//!   prints the last of them, so many at most, the newest first.
//! - **A plan**: `counts_of` counts its items, and `show_plan` prints its counts and its items.
#![tactic(auto)]

mod error;
mod image;
mod log;
mod plan;
mod report;

pub use error::PrintError;
pub use image::{show_archive, show_below, show_replica, show_served};
pub use log::{Logged, What, read_log, show_log};
pub use plan::{Counts, counts_of, show_plan};
pub use report::show_report;
