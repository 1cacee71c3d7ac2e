//! Names and paths of a file tree: their limits, their text, and their order.
//!
//! # What it promises
//!
//! - A `Path` is a list of at most 16 lawful names (`IsPath`), by its type. `parse` refuses 1 just
//!   where the text is no path, and prints as it was read.
//! - A `Key` is a path as 255 bytes, which `Path::key` makes without memory. Contracts see it as
//!   the path. Keys compare as paths do, and `is_prefix` tells whether one path begins with
//!   another. `parent`, `under` and `below` make the keys of other paths, and `last_name` lends the
//!   last name. Only `to_path`, which gives the path back, takes memory.
//! - A `Side` is one of the two sides of a pair, and `other` the one across.
#![tactic(auto)]

mod error;
mod key;
mod name;
mod order;
mod path;
mod printed;
mod side;

pub use error::PathError;
pub use key::Key;
pub use name::Name;
pub use path::{LONGEST_PATH, MOST_NAMES, Path, is_path};
pub use side::Side;
