//! A window on what is written: a piece of it is kept, and the rest is passed over.
ghost use Rattle.std.specs.Prelude.{ℕ, [], ◌++◌, OnOk};
ghost use Rattle.syn_model.specs.Path.{Bytes};
ghost use Rattle.syn_wire.specs.inner.Windows.{Shows};

use crate::bytes::LONGEST_PIECE;
use crate::error::WireError;
use std::alloc::Global;

/// Of what is written into it, the bytes from an offset on, at most as many as a piece has.
#[derive(Debug, Drop)]
pub(crate) struct Window {
    pub(crate) kept: Vec<u8>,
    /// How many bytes are still to come before the offset.
    skip: usize,
}

impl Window {
    /// Nothing was written so far.
    pub(crate) fn new(alloc: Global, offset: usize) -> Window
        ensures { Shows offset [] result.kept.items result.skip }
    {
        Window {
            kept: Vec::new(alloc),
            skip: offset,
        }
    }

    /// Writes the bytes. Refused 11 where memory is refused.
    pub(crate) fn push(&mut self, bytes: &[u8]) -> Result<(), WireError>
        ensures { (offset : ℕ) (written : Bytes)
            → Shows offset written self.old.kept.items self.old.skip
            → OnOk result (Shows offset (written ++ bytes.now) self.new.kept.items self.new.skip) }
    {
        let passed = self.skip.min(bytes.len());
        let (_, rest) = bytes.split_at(passed);
        let room = LONGEST_PIECE.saturating_sub(self.kept.len());
        let (shown, _) = rest.split_at(room.min(rest.len()));
        self.skip -= passed;
        self.kept.extend_from_slice(shown)?;
        Ok(())
    }
}
