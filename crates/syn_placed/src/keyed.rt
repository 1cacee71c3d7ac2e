//! A key with what stands at its path. A tree is a list of such entries.
ghost use Rattle.std.specs.Prelude.{◌≡◌, IfOk};

use crate::placed::{EntryKind, Placed};
use crate::slot::Slot;
use std::alloc::{AllocError, Global};
use std::marker::Model;
use syn_path::Key;

/// A key with what stands at its path, in memory of its own: a list of such entries moves pointers
/// alone. Contracts see it as the pair of the path and what stands there.
#[derive(Debug, Drop)]
pub struct Keyed<C: EntryKind> {
    slot: Slot<C>,
}

impl<C: EntryKind> Model for Keyed<C> {
    ghost use Rattle.syn_model.specs.Tree.{Pair};

    ghost Value = { Pair };

    ghost view = { λ e. (e.slot.0, C.content e.slot.1) };
}

impl<C: EntryKind> Keyed<C> {
    /// What stands at the path of the key. Refused where memory is refused.
    pub fn new(alloc: Global, key: &Key, content: C) -> Result<Keyed<C>, AllocError>
        ensures { IfOk result (λ entry. entry ≡ (key.now, C.content content)) }
    {
        let slot = Slot::new(alloc, key, content)?;
        Ok(Keyed { slot })
    }

    /// What stands at the path of the other. Refused where memory is refused.
    pub fn of(alloc: Global, placed: Placed<C>) -> Result<Keyed<C>, AllocError>
        ensures { IfOk result (λ entry. entry ≡ placed) }
    {
        let (path, content) = placed.into_parts();
        Keyed::new(alloc, &path.key(), content)
    }

    /// The key.
    pub fn key(&self) -> &Key
        ensures { result.now ≡ self.now.0 }
    {
        self.slot.key()
    }

    /// What stands there.
    pub fn content(&self) -> &C
        ensures { C.content result.now ≡ self.now.1 }
    {
        self.slot.value()
    }

    /// The same at another path. It takes no memory.
    pub fn moved(self, key: &Key) -> Keyed<C>
        ensures { result ≡ (key.now, self.1) }
    {
        Keyed {
            slot: self.slot.moved(key),
        }
    }
}
