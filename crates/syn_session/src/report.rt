//! What a session reports as it ends.

use syn_path::Path;
use syn_refusal::Refusal;

/// How a session ended.
#[derive(Clone, Copy, Debug, PartialEq, Eq)]
pub enum End {
    /// It came through its plan, no item was refused, and no path changed its kind under the scan.
    Complete,
    /// It ended early, an item was refused, or a path changed its kind under the scan.
    Incomplete,
}

/// What a session reports as it ends.
#[derive(Debug, Drop)]
pub struct Report {
    /// The number of the session.
    pub session: u64,
    pub end: End,
    /// What ended it early, if anything did.
    pub ended: Option<Refusal>,
    /// How many items were carried to the other side and recorded.
    pub done: u32,
    /// How many items were recorded since both sides agreed already.
    pub marked: u32,
    /// The paths that were changed on both sides, in path order. Nothing was done there.
    pub conflicts: Vec<Path>,
    /// The items that were refused, in path order, each with the refusal.
    pub refused: Vec<(Refusal, Path)>,
}
