//! The plan of a session: what is to be done at each path so that two sides and their archive come
//! to agree.
//!
//! It is the reconciler of Balasubramaniam and Pierce ("What is a File Synchronizer?", 1998), for
//! whole files by their marks.
//!
//! # What it promises
//!
//! - The items of `plan` are the model's `plan` of the preference, the two scans and the marks,
//!   each and in that order (`ok`), and it is refused only 11 (`memory`). So each law of the plan
//!   is one of what the code gives. It synchronizes; a directory is recorded before what is below
//!   it; and nothing dirty on its own side is carried over, but where the other side is preferred.
//! - `compare` gives that plan of two trees in memory, with the marks that both last agreed on
//!   (`items`), and what a scan would find of each tree (`left`, `right`). It is refused only 11,
//!   too (`memory`): a tree keeps the limits of a replica, which are below those of a scan.
#![tactic(auto)]

mod decided;
mod dirty;
mod error;
mod item;
mod tree_scan;
mod trees;
mod walk;

pub use error::PlanError;
pub use item::Item;
pub use trees::{Compared, compare};
pub use walk::plan;
