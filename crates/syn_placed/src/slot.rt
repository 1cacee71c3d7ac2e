//! A key with a value, in memory of its own.
ghost use Rattle.std.specs.Prelude.{◌≡◌, IfOk};

use std::alloc::{AllocError, Global};
use std::marker::Model;
use syn_path::Key;

/// A key with a value.
#[derive(Debug, Drop)]
struct Held<V> {
    key: Key,
    value: V,
}

/// A key with a value, which has all the memory that a map takes for it. Contracts see it as the
/// pair of the path and the value.
#[derive(Debug, Drop)]
pub struct Slot<V> {
    held: Box<Held<V>>,
}

impl<V> Model for Slot<V> {
    ghost use Rattle.syn_model.specs.Path.{Path};

    ghost Value = { Path × V };

    ghost view = { λ s. (s.held.value.key, s.held.value.value) };
}

impl<V: Drop> Slot<V> {
    /// The value at the key. Refused where memory is refused.
    pub fn new(alloc: Global, key: &Key, value: V) -> Result<Slot<V>, AllocError>
        ensures { IfOk result (λ slot. slot ≡ (key.now, value)) }
    {
        let held = Box::new(alloc, Held { key: *key, value })?;
        Ok(Slot { held })
    }

    /// The key.
    pub fn key(&self) -> &Key
        ensures { result.now ≡ self.now.0 }
    {
        &self.held.key
    }

    /// The value.
    pub fn value(&self) -> &V
        ensures { result.now ≡ self.now.1 }
    {
        &self.held.value
    }

    /// The value at another key.
    pub fn moved(mut self, key: &Key) -> Slot<V>
        ensures { result ≡ (key.now, self.1) }
    {
        self.held.key = *key;
        self
    }

    /// Puts another value in the place of the one that is there.
    pub fn set(&mut self, value: V)
        ensures { self.new ≡ (self.old.0, value) }
    {
        self.held.value = value;
    }
}
