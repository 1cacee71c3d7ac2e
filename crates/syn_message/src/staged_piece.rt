//! What is staged at a time.
ghost use Rattle.std.specs.Prelude.{◌≡◌, ◌≤◌, length, IfOk};
ghost use Rattle.syn_machine.specs.Side.{IsPieceBytes};
ghost use Rattle.syn_model.specs.Limits.{greatest_piece};

use std::alloc::AllocError;
use std::marker::Model;
use syn_model::are_bytes;

/// What is staged at a time: from 1 to `LONGEST_PIECE` bytes. Contracts see its bytes.
#[derive(Debug, Drop)]
pub struct StagedPiece {
    bytes: Vec<u8>,
}

impl Model for StagedPiece {
    ghost use Rattle.std.specs.Prelude.{List, ℕ};
    ghost use Rattle.syn_machine.specs.Side.{IsPieceBytes};

    ghost Value = { List ℕ };

    ghost view = { λ piece. piece.bytes.items };

    ghost invariant = { λ piece. IsPieceBytes piece.bytes.items };
}

impl StagedPiece {
    /// A piece of these bytes. It takes no memory.
    pub fn new(bytes: Vec<u8>) -> StagedPiece
        requires some { 1 ≤ length bytes.items }
        requires fits { length bytes.items ≤ greatest_piece }
        ensures { result ≡ bytes.items }
    {
        are_bytes(&bytes);
        StagedPiece { bytes }
    }

    /// Its bytes.
    pub fn as_slice(&self) -> &[u8]
        ensures bytes { result.now ≡ self.now }
        ensures lawful { IsPieceBytes self.now }
    {
        &self.bytes
    }

    /// Its bytes, as they are. It takes no memory.
    pub fn into_bytes(self) -> Vec<u8>
        ensures { result.items ≡ self }
    {
        self.bytes
    }

    /// An equal piece of its own. Refused where memory is refused.
    pub fn copy(&self) -> Result<StagedPiece, AllocError>
        ensures { IfOk result (λ copy. copy ≡ self.now) }
    {
        let bytes = self.bytes.clone()?;
        Ok(StagedPiece { bytes })
    }
}
