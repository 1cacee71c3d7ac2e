//! What a side showed in a session. A plan is made of the scans of both sides.
ghost use Rattle.std.specs.Prelude.{◌≡◌, ◌≢◌, ◌≤◌, ◌+◌, true, false, OnOk, OnErr, IfOk, IfErr};
ghost use Rattle.std.specs.Prelude.{◌<◌, length, slice_index_or};
ghost use Rattle.std.specs.FinMap.{entries, get, insert, len};
ghost use Rattle.syn_model.specs.Path.{parent};
ghost use Rattle.syn_model.specs.Tree.{replace};
ghost use Rattle.syn_model.specs.Limits.{fits_archive};
ghost use Rattle.syn_model.specs.Mark.{IsMarks};
ghost use Rattle.syn_model.specs.Dirty.{has_unstable, is_unstable};
ghost use Rattle.syn_placed.specs.Pairs.{before, within};
ghost use Rattle.syn_scan.specs.Found.{scan_of, is_open, IsFound, position_of};
ghost use Rattle.syn_scan.specs.Asked.{nothing_found, with_no_directory};
ghost use Rattle.syn_scan.specs.inner.Kept.{IsFlat, with_tree, NoneNext, is_next_entry};
ghost use Rattle.syn_scan.specs.inner.Kept.{is_open_entry};

use crate::error::ScanError;
use crate::paths::is_among;
use crate::positions::Positions;
use std::alloc::{AllocError, Global};
use std::marker::Model;
use syn_mark::{Mark, MarkEntry, MarkTree};
use syn_path::Path;
use syn_placed::EntryKind;
use syn_placed::by_path::{count_before, parent_names};

/// What a side showed in a session: the marks of its tree, each listed directory with the position
/// of its listing, and each path that was answered as no directory. Contracts see it as that.
#[derive(Debug, Drop)]
pub struct Scan {
    marks: MarkTree,
    listed: Positions,
    not_dirs: Positions,
}

impl Model for Scan {
    ghost use Rattle.syn_scan.specs.Found.{Found, coded_found};

    ghost Value = { Found };

    ghost coded = { coded_found };

    ghost use Rattle.syn_scan.specs.Found.{IsFound};

    ghost view = { λ s. record {
      marks = s.marks;
      listed = s.listed;
      not_dirs = s.not_dirs;
    } };

    ghost invariant = { λ s. IsFound (record {
      marks = s.marks;
      listed = s.listed;
      not_dirs = s.not_dirs;
    }) };
}

impl Scan {
    /// A directory of which nothing was answered yet. Refused 11 where memory is refused.
    pub(crate) fn new(alloc: Global) -> Result<Scan, AllocError>
        ensures { IfOk result (λ scan. scan ≡ nothing_found) }
    {
        let marks = MarkTree::of_mark(alloc, Mark::Dir)?;
        is_marks(&marks);
        Ok(Scan {
            marks,
            listed: Positions::new(alloc),
            not_dirs: Positions::new(alloc),
        })
    }

    /// All marks, from the root on.
    pub fn tree(&self) -> &MarkTree
        ensures marks { result.now ≡ self.now.marks }
        ensures found { IsFound self.now }
    {
        &self.marks
    }

    /// The marks at and below the path, in path order. It takes no memory.
    pub fn marks(&self, path: &Path) -> &[MarkEntry]
        ensures { result.now ≡ within path.now (entries self.now.marks) }
    {
        self.marks.subtree(path)
    }

    /// The position at which the path's parent was listed, the root's at the root; none where it
    /// was not. It takes no memory.
    pub fn since(&self, path: &Path) -> Option<u64>
        ensures { result ≡ get self.now.listed (parent path.now) }
    {
        self.listed.get(parent_names(path))
    }

    /// The position of the answer for the path's parent, the root's for the root: 0 where none is
    /// known. It takes no memory.
    pub fn position(&self, path: &Path) -> u64
        ensures { result ≡ position_of self.now (parent path.now) }
    {
        let names = parent_names(path);
        let listed = self.listed.get(names);
        listed.or(self.not_dirs.get(names)).unwrap_or(0)
    }

    /// A path at or below this one was answered as no directory.
    pub fn unstable(&self, path: &Path) -> bool
        ensures { result ≡ has_unstable (scan_of self.now) path.now }
    {
        self.not_dirs.any_within(path)
    }

    /// The path itself was answered as no directory.
    pub fn is_unstable(&self, path: &Path) -> bool
        ensures { result ≡ is_unstable (scan_of self.now) path.now }
    {
        self.not_dirs.get(path.names()).is_some()
    }

    /// The index of the first directory, from `passed` on, that was neither answered nor handed
    /// out; the number of entries where there is none.
    pub(crate) fn first_open(&self, out: &[Path], passed: usize) -> usize
        requires { NoneNext self.now out.now (entries self.now.marks) passed }
        ensures none { NoneNext self.now out.now (entries self.now.marks) result }
        ensures open { (entry : _) → result < length (entries self.now.marks) → is_next_entry
            self.now out.now (slice_index_or (entries self.now.marks) result entry) ≡ true }
    {
        let entries = self.marks.as_slice();
        let mut at = passed;
        while at < entries.len() {
            if self.is_next(out, &entries[at]) {
                return at;
            }
            at += 1;
        }
        at
    }

    /// It is a directory that was not answered yet, and is not among these.
    fn is_next(&self, out: &[Path], entry: &MarkEntry) -> bool
        ensures { result ≡ is_next_entry self.now out.now entry.now }
    {
        self.is_open(entry) && !is_among(out, entry.path())
    }

    /// How many entries stand before the path. It takes no memory.
    pub(crate) fn index_of(&self, path: &Path) -> usize
        ensures { result ≡ length (before path.now (entries self.now.marks)) }
    {
        count_before(self.marks.as_slice(), path.names())
    }

    /// It is a directory that was not answered yet.
    fn is_open(&self, entry: &MarkEntry) -> bool
        ensures { result ≡ is_open_entry self.now entry.now }
    {
        let names = entry.path().names();
        entry.content().is_directory()
            && self.listed.get(names).is_none()
            && self.not_dirs.get(names).is_none()
    }

    /// Takes the listing of a directory that was not answered yet.
    ///
    /// Refused 23 where a path below would pass the limits, and 11 where memory is refused.
    pub(crate) fn take(
        &mut self,
        alloc: Global,
        path: &Path,
        position: u64,
        listing: MarkTree,
    ) -> Result<(), ScanError>
        requires open { is_open self.old path.now ≡ true }
        requires flat { IsFlat listing }
        requires small { len self.old.marks + len listing ≤ 4097 }
        ensures ok { OnOk result (self.new ≡ with_tree self.old path.now position listing) }
        ensures bad { IfErr result (λ e. e ≢ ScanError.Memory → (e ≡ ScanError.BadMessage)
            × (fits_archive (replace self.old.marks path.now listing) ≡ false)) }
        ensures fits { OnOk result (fits_archive (replace self.old.marks path.now listing) ≡ true) }
        ensures same { OnErr result (self.new ≡ self.old) }
    {
        if path.names().is_empty() {
            self.listed.insert(path.copy(alloc)?, position)?;
            self.marks = listing;
            is_marks(&self.marks);
            return Ok(());
        }
        let change = self.marks.prepare_replace(alloc, path, Some(listing))?;
        self.listed.insert(path.copy(alloc)?, position)?;
        self.marks.make(change);
        is_marks(&self.marks);
        Ok(())
    }

    /// Notes that the path, for which no answer came yet, is no directory.
    /// Refused 11 where memory is refused, and for no other cause.
    pub(crate) fn take_no_directory(
        &mut self,
        alloc: Global,
        path: &Path,
        position: u64,
    ) -> Result<(), ScanError>
        requires { is_open self.old path.now ≡ true }
        ensures ok { OnOk result (self.new ≡ with_no_directory self.old path.now position) }
        ensures memory { IfErr result (λ e. e ≡ ScanError.Memory) }
        ensures same { OnErr result (self.new ≡ self.old) }
    {
        self.not_dirs.insert(path.copy(alloc)?, position)?;
        Ok(())
    }
}

/// They are marks within the limits.
fn is_marks(marks: &MarkTree)
    ensures marks { IsMarks marks.now }
    ensures fits { fits_archive marks.now ≡ true }
{
    let _ = marks.as_slice();
}
