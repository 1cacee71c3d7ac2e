//! A folder that people go on editing, kept the same as a replica.
//!
//! The folder is the left side and the replica the right, and an archive has what both last agreed
//! on. The plan is that of a session between the two.
//!
//! # What it promises
//!
//! Over any `EditedFolder` and any disks:
//!
//! - `plan` gives the model's plan of the folder, the replica and the marks, and changes nothing.
//!   `reconcile` carries out that plan, item by item (`plan`). What the folder changed becomes
//!   edits of the user in the replica, all of an item's at once, and what the replica changed is
//!   put into the folder. The folder's tree, the replica's and the marks are then what the items
//!   leave that were not refused, and the replica's history is the old one and edits of the user
//!   (`carried`). Each item is told to an `ItemWatch` as it is settled, of which no clause speaks.
//! - Where no item was refused, folder, replica and marks are what the plan leaves (`whole`), and
//!   so what the definition of a synchronization asks (`synchronized`, `reconciled`).
//! - A stop at any device call of either image leaves on the replica's disk what some of the
//!   items leave of it, each of them whole, by edits of the user (`any_moment`), and on the
//!   archive's disk the marks of that (`any_mark`).
//! - A call that ends early leaves the folder, the replica and the marks as the items before it do.
//!   Of the next item nothing is recorded, or it is carried out in the folder and in the replica,
//!   whatever a stop leaves then (`stopped`).
//! - What can stand in no replica is not touched: no item that is carried out puts anything at,
//!   above or below it in the folder, or changes what the replica has at its path (`apart`).
//! - Where the folder or the replica is empty and the marks are not, nothing is carried unless that
//!   is asked for (`emptied`), and marks of another pair are refused (`pair`).
//! - Nothing is carried out or recorded before the caller's `BeforeItems` has begun (`begun`).
//! - The folder changes by `replace` alone, which looks first whether what is there is what was
//!   read. The laws of the plan say what that is: what the marks have, or what another side is
//!   preferred to.
//!
//! Over a replica that others go on editing, under its lock, `reconcile_shared` carries out the
//! same plan (`carried`: `IsSharedRun`):
//!
//! - It is the plan of the folder and the marks with what the replica had in one hold (`took`,
//!   `plan`). Each item for the replica is put there in one hold of its own, which is refused and
//!   changes nothing where somebody touched the path since the first one; no other item enters the
//!   lock (`holds`).
//! - The folder and the marks are what the items leave that were not refused (`leave`). So an item
//!   is marked only where its hold answered that it is there, or the folder took it.
//! - Where no item was refused, folder and marks are what the plan leaves, whatever others edit
//!   meanwhile (`whole`).
//! - The replica is that, too, by edits of the user, if it stood for a history as it was seen and
//!   nobody else edited it from then to the last hold of the run (`alone`). That is, each hold of
//!   another pass in between left the history that it found (`NobodyEdits`): one that reads, a
//!   checkpoint, or an edit that is refused. So all three are then what the definition of a
//!   synchronization asks (`synchronized`, `reconciled`).
//! - Whenever the machine stops, the archive's disk has the marks that the first of the items
//!   leave, and what of these is for the replica was put there before, in holds of its lock
//!   (`any_mark`: `HasSharedMarks`). So each mark was held by both.
//! - A call that ends early has carried out the items up to one of them. Of that one nothing is in
//!   the folder or the marks, and in the replica what its hold left; or it is carried out, and only
//!   its record may be missing (`stopped`: `IsSharedStop`).
//!
//! An archive has no position of the replica. That the replica is older than the marks, as a backup
//! is, is seen only where it is empty or of another pair.
#![tactic(auto)]

mod carry;
mod checks;
mod edits;
mod error;
mod items;
mod marks;
mod report;
mod run;
mod shared;
mod strangers;
mod watch;

pub use checks::WhenEmpty;
pub use error::ReconcileError;
pub use report::{Report, Settled, Settlement};
pub use run::{plan, reconcile};
pub use shared::reconcile_shared;
pub use watch::{BeforeItems, ItemWatch};
