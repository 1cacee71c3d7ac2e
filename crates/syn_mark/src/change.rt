//! A change of a tree of marks, ready to be made. An archive takes all memory for it before it
//! writes its journal.
ghost use Rattle.std.specs.Prelude.{◌≡◌, vec_capacity};

use crate::tree::MarkEntry;
use std::marker::Model;
use syn_path::Path;

/// A change that is ready to be made in a tree of marks, with all memory for it.
/// Contracts see it as a place, what will stand there, and how many entries it has room for.
#[derive(Debug, Drop)]
pub struct MarkChange {
    at: Path,
    /// What will stand at and below the place, in path order.
    added: Vec<MarkEntry>,
    /// Where the entries of the whole tree will stand.
    space: Vec<MarkEntry>,
}

impl Model for MarkChange {
    ghost use Rattle.std.specs.Prelude.{vec_capacity};
    ghost use Rattle.syn_mark.specs.Changes.{Replacement, coded_replacement};

    ghost Value = { Replacement };

    ghost coded = { coded_replacement };

    ghost use Rattle.syn_tree.specs.Change.{taken_from};
    ghost use Rattle.syn_mark.specs.inner.Spaces.{IsSpaced};

    ghost view = { λ c. record {
      at = c.at;
      new = taken_from c.at c.added.items;
      room = vec_capacity c.space;
    } };

    ghost invariant = { λ c. IsSpaced c.at c.added.items c.space.items };
}

impl MarkChange {
    ghost use Rattle.syn_tree.specs.Change.{taken_from};
    ghost use Rattle.syn_mark.specs.inner.Spaces.{IsSpaced};

    /// These entries will stand at and below the path, and the empty list has room for all.
    pub(crate) fn placed(at: Path, added: Vec<MarkEntry>, space: Vec<MarkEntry>) -> MarkChange
        requires { IsSpaced at added.items space.items }
        ensures at { result.at ≡ at }
        ensures new { result.new ≡ taken_from at added.items }
        ensures room { result.room ≡ vec_capacity space }
    {
        MarkChange { at, added, space }
    }

    /// The place, what will stand there, and the empty list with room for all.
    pub(crate) fn into_parts(self) -> (Path, Vec<MarkEntry>, Vec<MarkEntry>)
        ensures at { result.0 ≡ self.at }
        ensures new { taken_from result.0 result.1.items ≡ self.new }
        ensures room { vec_capacity result.2 ≡ self.room }
        ensures spaced { IsSpaced result.0 result.1.items result.2.items }
    {
        (self.at, self.added, self.space)
    }
}
