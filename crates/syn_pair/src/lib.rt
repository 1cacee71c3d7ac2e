//! Whether two replicas and an archive belong together, so that a session of them loses nothing.
//!
//! What both sides agreed on is worth something only beside the replicas that agreed on it. A disk
//! that was formatted again, or put back from a copy, has less than the archive says; an archive
//! that was put back has less than the replicas. Either would make a session remove or overwrite
//! what nobody has removed. A replica therefore says who it is and where it is in its history
//! (`SideStatus`), what it said is kept beside the archive (`KnownSides`), and no session begins
//! where the next answer does not go on from there.
//!
//! # What it promises
//!
//! - `check_pair` allows a session only where the two sides are not one replica, and each side that
//!   is of the archive's pair fits the archive (`belong`: `BelongTogether`). A refusal has its
//!   cause (`apart`: `IsApart`). A session takes the `Belonging` that it gives.
//! - A side fits where its last session is not above the archive's, and its history goes on from
//!   what is known of it (`Fits`). It has not another identity, no earlier session, token or
//!   position, and no other event at the place that is known, as far as it still keeps that
//!   (`GoesOn`). Its last replacement is of no session after the one that is known (`IsKnown`).
//! - Of a side nothing may be known, as after an upgrade. Where the archive has marks then, the
//!   side has to have begun the archive's last session (`IsCurrent`).
//! - `session_after` gives the last session of an archive that goes on with two sides, where theirs
//!   is lost: the greater one of those that they have begun last (`follows`: `Follows`). A refusal
//!   has its cause (`cannot`: `CannotFollow`).
//! - `encode_known` writes what is known of both sides, and what `decode_known` gives is spelled by
//!   just the bytes that it was given (`known_spelling`).
//! - `MarkedReplica::check` allows a folder's marks to be used beside no replica but the one that
//!   they are of (`of`: `AreOf`): its history goes on from what is known of it, and no older copy
//!   of it was found before. A refusal has its cause (`not_of`: `AreNotOf`). `encode` and `decode`
//!   are its bytes (`marked_spelling`).
//! - `FolderStamp::check` allows marks to be used with no folder but their own, in step with them
//!   or one ahead (`of`: `AreOfFolder`). A refusal has its cause (`not_of`: `AreNotOfFolder`).
//! - `KnownSides::entry_for` gives the entry of the identity, whichever side it was then
//!   (`IsEntryFor`).
#![tactic(auto)]

mod check;
mod folder;
mod following;
mod known;
mod marks;
mod side;

pub use check::{ArchiveStatus, Belonging, Cause, Mismatch, check_pair};
pub use folder::{FOLDER_NUMBER_LENGTH, FolderMismatch, FolderNumber, FolderStamp};
pub use following::session_after;
pub use known::{decode_known, encode_known};
pub use marks::{MarkedReplica, MarksMismatch};
pub use side::{KnownSides, LAST_PLACE, SideStatus};
