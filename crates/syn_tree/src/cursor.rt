//! The pairs of a tree one after the other, whatever form the tree has.
ghost use Rattle.std.specs.Prelude.{◌≡◌};
ghost use Rattle.std.specs.Iterator.{YieldsFirst, YieldsLast, item_count};

use crate::entry::Entry;
use crate::pair::Pair;
use std::marker::Model;

/// Pairs of a tree in path order, one after the other. Contracts see it as the list of those that
/// are left.
#[derive(Debug, Drop)]
pub struct Cursor<'a> {
    rest: &'a [Entry],
}

impl<'a> Model for Cursor<'a> {
    ghost use Rattle.syn_placed.specs.Pairs.{Pairs};

    ghost Value = { Pairs };

    ghost view = { λ c. c.rest.now };
}

impl<'a> Cursor<'a> {
    /// Over these entries.
    pub(crate) fn over(rest: &'a [Entry]) -> Cursor<'a>
        ensures { result ≡ rest.now }
    {
        Cursor { rest }
    }
}

impl<'a> Iterator for Cursor<'a> {
    type Item = Pair<'a>;

    ghost next_gives = { YieldsFirst (λ rest. rest) };

    ghost remaining = { item_count (λ rest. rest) };

    fn next(&mut self) -> Option<Pair<'a>> {
        let (first, others) = self.rest.split_first()?;
        self.rest = others;
        Some(Pair::of(first))
    }

    fn size_hint(&self) -> (usize, Option<usize>) {
        let len = self.rest.len();
        (len, Some(len))
    }
}

impl<'a> DoubleEndedIterator for Cursor<'a> {
    ghost next_back_gives = { YieldsLast (λ rest. rest) };

    fn next_back(&mut self) -> Option<Pair<'a>> {
        let (last, others) = self.rest.split_last()?;
        self.rest = others;
        Some(Pair::of(last))
    }
}

impl ExactSizeIterator for Cursor<'_> {
    fn len(&self) -> usize {
        self.rest.len()
    }
}
