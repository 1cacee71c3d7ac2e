//! A path that an event changes, with the memory that a trail takes for it.
ghost use Rattle.std.specs.Prelude.{◌≡◌, IfOk};
ghost use Rattle.std.specs.Option.{ForSome};

use std::alloc::{AllocError, Global};
use std::marker::Model;
use syn_path::Path;
use syn_placed::Slot;

/// A path, with a slot for it in the index of a trail that has one. Contracts see it as the path.
#[derive(Debug, Drop)]
pub struct TouchedPath {
    path: Path,
    slot: Option<Slot<u64>>,
}

impl Model for TouchedPath {
    ghost use Rattle.std.specs.Prelude.{◌≡◌, List, ℕ};
    ghost use Rattle.std.specs.Option.{ForSome};

    ghost Value = { List (List ℕ) };

    ghost view = { λ p. p.path };

    ghost invariant = { λ p. ForSome p.slot (λ slot. slot.0 ≡ p.path) };
}

impl TouchedPath {
    /// The path, with a slot if that is wanted. Refused where memory is refused.
    pub(crate) fn of(alloc: Global, path: &Path, has_slot: bool) -> Result<TouchedPath, AllocError>
        ensures { IfOk result (λ touched. touched ≡ path.now) }
    {
        let own = path.copy(alloc)?;
        if !has_slot {
            return Ok(TouchedPath {
                path: own,
                slot: None,
            });
        }
        let slot = Slot::new(alloc, &path.key(), 0)?;
        Ok(TouchedPath {
            path: own,
            slot: Some(slot),
        })
    }

    /// The path, and its slot for a touch at the position.
    pub fn at(self, position: u64) -> (Path, Option<Slot<u64>>)
        ensures path { result.0 ≡ self }
        ensures slot { ForSome result.1 (λ slot. slot ≡ (self, position)) }
    {
        let TouchedPath { path, slot } = self;
        match slot {
            None => (path, None),
            Some(mut slot) => {
                slot.set(position);
                (path, Some(slot))
            }
        }
    }
}
