//! Where the value of a journal stands on its disk.
ghost use Rattle.std.specs.Prelude.{◌<◌};
ghost use Rattle.syn_journal.specs.Layout.{half_size};

use crate::half::Half;

/// Where the value of a journal stands on its disk. A layer above keeps a copy while it reopens the
/// journal.
#[derive(Clone, Copy, Debug)]
pub struct JournalCursor {
    /// The current half.
    pub(crate) half: Half,
    /// The generation of the current half.
    pub(crate) generation: u64,
    /// Where the next gate stands in the current half.
    pub(crate) gate: usize,
    /// Whether the other half is open, too.
    pub(crate) other_is_open: bool,
    ghost within: { gate < half_size },
}
