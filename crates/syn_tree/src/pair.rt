//! A path of a tree with what stands there, lent by whatever form the tree has.
ghost use Rattle.std.specs.Prelude.{◌≡◌, ◌-◌, length, slice_get, option_map, IfOk};
ghost use Rattle.std.specs.Prelude.{IfSome};
ghost use Rattle.syn_model.specs.Path.{IsName};
ghost use Rattle.syn_tree.specs.Contents.{found_content};

use crate::content::Found;
use crate::entry::Entry;
use std::alloc::{AllocError, Global};
use std::marker::Model;
use syn_path::Path;

/// A path of a tree with what stands there. Contracts see it as the pair of the two.
#[derive(Debug, Drop)]
pub struct Pair<'a> {
    entry: &'a Entry,
}

impl<'a> Model for Pair<'a> {
    ghost use Rattle.syn_model.specs.Tree.{Pair as There};

    ghost Value = { There };

    ghost view = { λ p. p.entry.now };
}

impl<'a> Pair<'a> {
    /// What the entry has.
    pub(crate) fn of(entry: &'a Entry) -> Pair<'a>
        ensures { result ≡ entry.now }
    {
        Pair { entry }
    }

    /// The entry.
    pub(crate) fn entry(&self) -> &'a Entry
        ensures { result.now ≡ self.now }
    {
        self.entry
    }

    /// The path, on its own. Refused where memory is refused.
    pub fn path(&self, alloc: Global) -> Result<Path, AllocError>
        ensures { IfOk result (λ path. path ≡ self.now.0) }
    {
        self.entry.key().to_path(alloc)
    }

    /// The bytes of the last name; none for the root.
    pub fn last_name(&self) -> Option<&'a [u8]>
        ensures name { option_map (λ name. name.now) result
            ≡ slice_get self.now.0 (length self.now.0 - 1) }
        ensures lawful { IfSome result (λ name. IsName name.now) }
    {
        self.entry.key().last_name()
    }

    /// What stands at the path, with a file's bytes.
    pub fn found(&self) -> Found<'a>
        ensures { found_content result ≡ self.now.1 }
    {
        self.entry.content().as_found()
    }
}
