//! What a stop leaves of a disk in memory.

/// What a stop leaves where something was written since the last sync.
#[derive(Clone, Copy, Debug, PartialEq, Eq)]
pub enum Leaves {
    /// The bytes that were synced.
    Lose,
    /// The bytes that were written.
    Keep,
    /// The complement of each byte that was written.
    Noise,
}
