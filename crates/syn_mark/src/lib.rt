//! Marks: what stands for the contents of a file tree, with the digest of each file in place of its
//! bytes.
//!
//! # What it promises
//!
//! - `Mark::of_file` is the model's mark of a file, its mode with the SHA-256 digest of its bytes,
//!   and takes no memory. `mark_of` marks a file or a directory with all below it (`ok`), refused 7
//!   only where that has more than 4,096 nodes (`full`).
//! - A `MarkTree` is a tree of digests as the model has it, by its type (`as_slice`: `all`,
//!   `present`, `marks`, `fits`). Its root stands, each path has its parents, and the limits of an
//!   archive are kept. `from_vec` takes entries in path order exactly where they are such (`some`,
//!   `none`).
//! - `get`, `root`, `subtree`, `below` and `child_count` give what stands there, without memory.
//!   `copy_at` gives a part on its own. `is_same` and `is_same_at` say exactly whether two trees,
//!   or their parts at a path, are the same, without memory.
//! - `check_replace` answers the definition's refusal of a replacement, or none
//!   (`replace_refusal`), and takes no memory. `prepare_replace` makes it ready (`ready`, `at`,
//!   `new`), refused as `check_replace` or for lack of memory, and `prepare_allowed` one that was
//!   checked before. `make` makes it, without memory, and cannot fail.
//! - `check_dir` answers the same of an empty directory, and takes no memory either. What may be
//!   put somewhere within the limits is within them by itself (`replacement_laws`).
#![tactic(auto)]

mod change;
mod copies;
mod lawful;
mod laws;
mod mark;
mod marking;
mod placing;
mod same;
mod tree;

pub use change::MarkChange;
pub use lawful::is_mark;
pub use laws::replacement_laws;
pub use mark::Mark;
pub use marking::{mark_found, mark_of};
pub use tree::{MOST_NODES, MarkEntry, MarkTree};
