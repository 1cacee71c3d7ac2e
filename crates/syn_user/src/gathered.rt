//! The spelling of a tree, out of the pieces in which it comes.
ghost use Rattle.std.specs.Prelude.{◌≡◌, ◌↔◌, ◌⊎◌, ◌≤◌, ◌+◌, ◌++◌, [], None, Some, length, true};
ghost use Rattle.std.specs.Prelude.{IfErr, IfOk, IfSome, OnOk};
ghost use Rattle.syn_tree.specs.declared.measures.TheConstants.{LONGEST_SPELLING};
ghost use Rattle.syn_model.specs.Spelling.{spelling};
ghost use Rattle.syn_user.specs.inner.Parts.{IsFull, IsNext, SpellNoTree};

use crate::error::UserError;
use std::alloc::Global;
use syn_message::LONGEST_PIECE;
use syn_model::spelling_laws;
use syn_tree::{LONGEST_SPELLING, Tree};
use syn_wire::{Version, decode_tree};

/// The pieces that came of the spelling of a tree, one after the other. How long the whole is, the
/// first of them tells.
#[derive(Drop)]
pub(crate) struct Gathered {
    bytes: Vec<u8>,
    total: Option<u32>,
    ghost short: { length bytes.items ≤ LONGEST_SPELLING },
}

impl Gathered {
    /// Nothing came yet. It takes no memory.
    pub(crate) fn new(alloc: Global) -> Gathered
        ensures bytes { result.bytes.items ≡ [] }
        ensures total { result.total ≡ None }
    {
        Gathered {
            bytes: Vec::new(alloc),
            total: None,
        }
    }

    /// The byte from which on the next piece is.
    pub(crate) fn offset(&self) -> u32
        ensures { result ≡ length self.now.bytes.items }
    {
        self.bytes.len() as u32
    }

    /// Whether all of it came.
    pub(crate) fn is_whole(&self) -> bool
        ensures { (result ≡ true) ↔ (self.now.total ≡ Some (length self.now.bytes.items)) }
    {
        match self.total {
            Some(total) => self.bytes.len() == total as usize,
            None => false,
        }
    }

    /// Takes the piece from the offset on.
    ///
    /// Refused 23 where it has another total than the first one, more bytes than a tree can have,
    /// or not all the bytes that it can have; and 11 where memory is refused.
    pub(crate) fn take(&mut self, total: u32, bytes: &[u8]) -> Result<(), UserError>
        ensures taken { OnOk result (self.new.bytes.items ≡ self.old.bytes.items ++ bytes.now) }
        ensures total { OnOk result (self.new.total ≡ Some total) }
        ensures refused { IfErr result (λ error. ((error ≡ UserError.BadMessage)
            × ¬ IsNext self.old.total (length self.old.bytes.items) total (length bytes.now))
            ⊎ (error ≡ UserError.Memory)) }
    {
        if !is_as_told(self.total, total)
            || !is_full(self.bytes.len(), total as usize, bytes.len())
        {
            return Err(UserError::BadMessage);
        }
        self.total = Some(total);
        self.bytes
            .extend_from_slice(bytes)
            .map_err(|_| UserError::Memory)
    }

    /// The tree that all of it spells.
    ///
    /// Refused 23 where it spells none, and 11 where memory is refused.
    pub(crate) fn tree(&self, alloc: Global) -> Result<Tree, UserError>
        ensures tree { IfOk result (λ tree. spelling tree ≡ self.now.bytes.items) }
        ensures refused { IfErr result (λ error. ((error ≡ UserError.BadMessage)
            × SpellNoTree self.now.bytes.items) ⊎ (error ≡ UserError.Memory)) }
    {
        spelling_laws();
        let Some((tree, rest)) = decode_tree(alloc, Version::Two, &self.bytes)? else {
            return Err(UserError::BadMessage);
        };
        if !rest.is_empty() {
            return Err(UserError::BadMessage);
        }
        Ok(tree)
    }
}

/// A piece tells as many bytes in all as the first one did, if that came.
fn is_as_told(told: Option<u32>, total: u32) -> bool
    ensures { (result ≡ true) ↔ IfSome told (λ first. total ≡ first) }
{
    match told {
        Some(first) => total == first,
        None => true,
    }
}

/// A piece from the offset on has as many bytes as it can have, of so many in all as a tree may
/// have.
fn is_full(offset: usize, total: usize, count: usize) -> bool
    ensures full { (result ≡ true) ↔ IsFull offset total count }
    ensures short { result ≡ true → offset + count ≤ LONGEST_SPELLING }
{
    offset <= total && total <= LONGEST_SPELLING && count == LONGEST_PIECE.min(total - offset)
}
