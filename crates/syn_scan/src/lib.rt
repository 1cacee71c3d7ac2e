//! A scan of one side, made of its listings in pieces: which directory is asked for next, what was
//! answered, and what is known once each was.
//!
//! # What it promises
//!
//! - A `Scanner` is what was found so far (`found`: marks, and the position of each answer), and
//!   the paths that were handed out and not answered (`out`). Its clauses speak of any path that is
//!   out, as several may be at a time.
//! - `next_request` hands out the first directory that was neither answered nor handed out (`some`:
//!   `IsNext`), and none where there is no such directory (`none`: `AreAllOut`). So each is handed
//!   out once.
//! - `take` puts the listing of a path that is out into what was found (`found`), and the path is
//!   out no more (`out`). What was listed is what had been, and this (`listed`, `only`). It is
//!   refused 22 only where the scan would have more than 4,096 nodes (`too_large`). Otherwise it is
//!   refused 23 only where the path is not out, the names do not rise or a path would pass the
//!   limits (`bad`). Or it is refused 11. A listing that is taken has none of these causes
//!   (`belongs`, `small`), and a refusal changes nothing (`same`).
//! - `not_dir` takes it that no directory is there (`found`). It is refused 23 exactly where the
//!   path is not out (`belongs`, `bad`), or 11.
//! - Where memory is taken at all: `next_request` takes none once each directory was handed out
//!   (`whole`). `take` takes none for a listing that is too large, and neither it nor `not_dir`
//!   takes any for a path that is not out (`memory`).
//! - `finish`, once each directory was answered, gives the scan that the listings and answers taken
//!   make (`scan`: the model's `IsScanBy`), and takes no memory.
//! - Of a `Scan`, `tree` gives all marks (`marks`, `found`), and `marks` those at and below a path.
//!   `since` is the position of the parent's listing, and `position` that of the answer for the
//!   parent, 0 where none is known. A `Scanner` shows its scan so far (`scan`). `unstable` tells
//!   whether an answer of no directory is at or below the path, and `is_unstable` whether one is at
//!   the path itself.
#![tactic(auto)]

mod error;
mod paths;
mod positions;
mod scan;
mod scanner;

pub use error::ScanError;
pub use scan::Scan;
pub use scanner::Scanner;
