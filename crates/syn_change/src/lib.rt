//! The edits that make one tree another, planned on a copy before any of them is made.
//!
//! # What it promises
//!
//! `changes` plans the edits that make one tree another: made one after the other, they do. Each of
//! them is needed, and no two are alike (`AreChanges`): what it makes is wanted at its path and is
//! not there, and what goes with a directory is not removed by itself. So where the old tree has
//! what is wanted, no edit is planned (`none`). `puts` plans those that add to a tree what another
//! has: then each path of that one has what it has there, and every other path what it had
//! (`IsOverlaid`). `changes_at` plans those that put a tree in the place of what is at and below a
//! path, and `changes_with` those that put a file there, or take out what is there. All plan on a
//! copy (`copy_part`), and make nothing.
//!
//! Removals come first, then the files that become shorter, then the rest in path order. So no tree
//! on the way takes more bytes than the larger of the old and the wanted one. No public clause says
//! that.
//!
//! A plan is refused for lack of memory, or for what the tree refuses of one of these edits after
//! some of the others (`refused`, `IsRefusedAmong`). `copy_part` is refused exactly where no
//! directory is at the path, or for lack of memory.
#![tactic(auto)]

mod additions;
mod plan;
mod removals;
mod shorter;

pub use plan::{changes, changes_at, changes_with, copy_part, puts};
