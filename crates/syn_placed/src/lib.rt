//! What stands at paths, in path order, of trees and of marks alike.
//!
//! # What it promises
//!
//! - An entry is a path with what stands there (`Placed`): a tree's content, a mark, or something
//!   else that is a file or a directory (`EntryKind`). Contracts see it as the model's pair.
//! - `syn_placed::by_path` looks up, cuts and joins lists of such entries in path order.
//! - `Keyed` is an entry with a key in place of its path, in memory of its own.
//!   `syn_placed::by_key` does with lists of these what `by_path` does with the others (`part_at`,
//!   `entry_at`, `replace_part`).
//! - A `KeyMap` is a finite map from paths to values, with room for a fixed number. `get`, `insert`
//!   and `remove` are those of the map that contracts see, and `within` gives its entries at and
//!   below a path, in path order. A `Slot` is one entry with its memory: once it is made, no call
//!   is refused.
#![tactic(auto)]

pub mod by_key;
pub mod by_path;
mod key_map;
mod keyed;
mod placed;
mod runs;
mod slot;

pub use key_map::KeyMap;
pub use keyed::Keyed;
pub use placed::{EntryKind, Placed};
pub use slot::Slot;
