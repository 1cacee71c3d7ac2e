//! Which paths of a scan changed since the archive.
//!
//! The archive is taken as its marks: a durable archive and one that is only thought of are alike
//! here.
//!
//! # What it promises
//!
//! - `dirty` is the model's dirtiness of a scan and marks, for each path, and takes no memory.
//!   `dirty_set` gives just those paths, rising in path order (`ok`: `AreInOrder`), refused only 11
//!   (`memory`).
//! - That a dirty path has dirty paths above it, and that a clean one has what the archive has, are
//!   laws of the model.
#![tactic(auto)]

mod changed;
mod compared;
mod error;

pub use changed::{dirty, dirty_set};
pub use error::DirtyError;
