//! What a command does with images that have names, and with replicas that are served.
//!
//! An image lies on a disk that is opened by its name. What such a disk is, `NamedDisks` leaves
//! open: the program's are files of the system. An image is shown, checked, edited and migrated. A
//! replica is served to others, exported to a folder, imported from one and reconciled with one. A
//! session runs between two replicas, is planned, or is run again whenever one of them changed
//! (`keep_servers`).
//!
//! # What it promises
//!
//! - A text that names no path is refused 1, or 11, whatever the disk or the server is (`edit`,
//!   `print_path`, `export`, `import`). That no other text is refused so is shown by tests alone.
//! - `NamedDisks` locks a disk by its name, to change it or only to read it (`locked`). That lock
//!   is held once the disk is read (`LockedDisk` of `syn_disk`: `held`). Nothing else is asked of
//!   the disk but that it is one, so all here holds of any disks that have names.
//! - All other calls put together what the crates below promise, and have no clause of their own.
//!   That they do what the command asks, of the disk that it names, is shown by tests alone.
#![tactic(auto)]

mod asking;
mod folders;
mod following;
mod held;
mod images;
mod keeping;
mod marks;
mod named;
mod network;
mod pairs;
mod plans;
mod reconciling;
mod sessions;
mod side_by_side;
mod upkeep;

pub use folders::{export, import};
pub use following::format_after;
pub use held::{Held, held_in};
pub use images::{edit, migrate, print_image, print_log, print_numbers, print_path};
pub use keeping::keep_servers;
pub use named::{Beside, NamedDisks};
pub use network::serve_named;
pub use plans::print_plan;
pub use reconciling::{plan_named, reconcile_named};
pub use sessions::run_session;
