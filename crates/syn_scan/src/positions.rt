//! The positions at which a side answered, by path. A replacement is made only where nothing
//! touched its path since.
ghost use Rattle.std.specs.Prelude.{◌≡◌, OnOk, OnErr, IfErr, None, length};
ghost use Rattle.std.specs.List.{list_any};
ghost use Rattle.std.specs.Ordering.{eq_by_cmp};
ghost use Rattle.std.specs.FinMap.{empty, get, insert, keys};
ghost use Rattle.syn_model.specs.Path.{is_prefix, path_cmp};
ghost use Rattle.syn_scan.specs.inner.Kept.{AreSorted, earlier};

use crate::error::ScanError;
use std::alloc::Global;
use std::cmp::Ordering;
use std::marker::Model;
use syn_path::{Name, Path};

/// The position of the answer for each of some paths. Contracts see it as a finite map.
#[derive(Debug, Drop)]
pub(crate) struct Positions {
    /// In path order.
    list: Vec<(Path, u64)>,
}

impl Model for Positions {
    ghost use Rattle.syn_scan.specs.Found.{Positions as Answered, coded_positions};

    ghost Value = { Answered };

    ghost coded = { coded_positions };

    ghost use Rattle.syn_scan.specs.inner.Kept.{AreSorted, positions_with};

    ghost view = { λ p. positions_with p.list.items };

    ghost invariant = { λ p. AreSorted p.list.items };
}

impl Positions {
    /// No answers.
    pub(crate) fn new(alloc: Global) -> Positions
        ensures { result ≡ empty }
    {
        Positions {
            list: Vec::new(alloc),
        }
    }

    /// The position of the answer for the path of these names; none where there is none.
    pub(crate) fn get(&self, names: &[Name]) -> Option<u64>
        ensures { result ≡ get self.now names.now }
    {
        let at = count_before(&self.list, names);
        let Some(entry) = self.list.get(at) else {
            return None;
        };
        if is_at(entry, names) {
            Some(entry.1)
        } else {
            None
        }
    }

    /// Adds the answer for a path that has none. Refused 11 where memory is refused, and for no
    /// other cause.
    pub(crate) fn insert(&mut self, path: Path, position: u64) -> Result<(), ScanError>
        requires { get self.old path ≡ None }
        ensures ok { OnOk result (self.new ≡ insert self.old path position) }
        ensures same { OnErr result (self.new ≡ self.old) }
        ensures memory { IfErr result (λ e. e ≡ ScanError.Memory) }
    {
        let at = count_before(&self.list, path.names());
        self.list.insert(at, (path, position))?;
        Ok(())
    }

    /// An answer is for a path at or below this one.
    pub(crate) fn any_within(&self, path: &Path) -> bool
        ensures { result ≡ list_any (is_prefix path.now) (keys self.now) }
    {
        any_within(&self.list, path)
    }
}

/// The answer is for the path of these names.
fn is_at(entry: &(Path, u64), names: &[Name]) -> bool
    ensures { result ≡ eq_by_cmp path_cmp entry.now.0 names.now }
{
    entry.0.names().cmp(&names) == Ordering::Equal
}

/// One of the answers is for a path at or below this one.
fn any_within(list: &[(Path, u64)], path: &Path) -> bool
    ensures { result ≡ list_any (λ entry. is_prefix path.now entry.0) list.now }
{
    list.iter().any(|entry| path.is_prefix(&entry.0))
}

/// How many answers are for paths before that of these names.
fn count_before(list: &[(Path, u64)], names: &[Name]) -> usize
    requires { AreSorted list.now }
    ensures { result ≡ length (earlier names.now list.now) }
{
    list.partition_point(|entry| entry.0.names().cmp(&names) == Ordering::Less)
}
