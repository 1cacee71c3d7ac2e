//! Makes the scan of a side: it says which directory is asked for next, and takes the listings one
//! by one.
ghost use Rattle.std.specs.Prelude.{◌≡◌, ◌≢◌, ◌<◌, ◌∷◌, ◌++◌, [], true, false, OnOk, OnErr, IfOk};
ghost use Rattle.std.specs.Prelude.{IfErr, IfSome, IfNone, Ok, None, length, ◌+◌};
ghost use Rattle.syn_model.specs.Limits.{most_nodes};
ghost use Rattle.syn_model.specs.Path.{IsPath};
ghost use Rattle.syn_model.specs.Dirty.{IsScanBy};
ghost use Rattle.syn_mark.specs.Marks.{AreMarks, AreMarkPairs};
ghost use Rattle.syn_scan.specs.Found.{scan_of, IsWhole, WasListedIn, IsShownIn};
ghost use Rattle.syn_scan.specs.Found.{WasNoDirectoryIn, position_of};
ghost use Rattle.std.specs.FinMap.{len};
ghost use Rattle.syn_scan.specs.Asked.{nothing_found, handed_out, is_out, without, contents_in};
ghost use Rattle.syn_scan.specs.Asked.{IsNext, AreAllOut};
ghost use Rattle.syn_scan.specs.Asked.{with_listing, with_no_directory, is_too_large, Belongs};
ghost use Rattle.syn_scan.specs.Asked.{ListsOnly, directory_with, listing_pairs, named, names_rise};

use crate::error::ScanError;
use crate::paths::{is_among, take_back};
use crate::scan::Scan;
use std::alloc::{AllocError, Global};
use std::marker::Model;
use syn_mark::{MOST_NODES, Mark, MarkEntry, MarkTree, is_mark};
use syn_path::{Name, Path};

/// Makes a scan of one side, a listing at a time. Contracts see it as what was found so far, and
/// the paths that were handed out and not answered yet.
#[derive(Debug, Drop)]
pub struct Scanner {
    scan: Scan,
    out: Vec<Path>,
    /// So many entries in front, in path order, are files, or were answered or handed out.
    passed: usize,
}

impl Model for Scanner {
    ghost use Rattle.syn_scan.specs.Asked.{Asked, coded_asked};

    ghost Value = { Asked };

    ghost coded = { coded_asked };

    ghost use Rattle.syn_scan.specs.inner.Kept.{IsKept};

    ghost view = { λ s. record { found = s.scan; out = s.out.items } };

    ghost invariant = { λ s. IsKept (record { found = s.scan; out = s.out.items }) s.passed };
}

impl Scanner {
    /// A scanner that was told nothing yet: it shows the root, as a directory. Refused 11 where
    /// memory is refused.
    pub fn new(alloc: Global) -> Result<Scanner, AllocError>
        ensures ok { IfOk result (λ scanner. scanner ≡ record { found = nothing_found; out = [] }) }
    {
        Ok(Scanner {
            scan: Scan::new(alloc)?,
            out: Vec::new(alloc),
            passed: 0,
        })
    }

    /// The directory that is to be listed next: the first in path order that was neither answered
    /// nor handed out yet; none where each was. So each directory is handed out once.
    ///
    /// Refused 11 where memory is refused.
    pub fn next_request(&mut self, alloc: Global) -> Result<Option<Path>, AllocError>
        ensures some { IfOk result (λ next. IfSome next (λ path. IsNext self.old path)) }
        ensures shown { IfOk result (λ next. IfSome next (λ path. IsShownIn self.old.found path)) }
        ensures none { IfOk result (λ next. IfNone next (AreAllOut self.old)) }
        ensures found { self.new.found ≡ self.old.found }
        ensures out { IfOk result (λ next. self.new.out ≡ handed_out self.old.out next) }
        ensures same { OnErr result (self.new ≡ self.old) }

        // Where each was handed out no memory is taken.
        ensures whole { AreAllOut self.old → result ≡ Ok None }
    {
        let at = self.scan.first_open(&self.out, self.passed);
        self.passed = at;
        let Some(next) = self.scan.tree().as_slice().get(at) else {
            return Ok(None);
        };
        let path = next.path().copy(alloc)?;
        self.out.push(path.copy(alloc)?)?;
        Ok(Some(path))
    }

    /// Takes the listing of a path that was handed out: the names in its directory, in byte order,
    /// each with its mark, as they were at the position.
    ///
    /// Refused 22 where the scan would have more than 4,096 nodes; 23 where the path is not handed
    /// out or answered already, the names are out of order or a path would pass the limits; and 11
    /// where memory is refused.
    pub fn take(
        &mut self,
        alloc: Global,
        path: &Path,
        position: u64,
        entries: Vec<(Name, Mark)>,
    ) -> Result<(), ScanError>
        ensures found { OnOk result (self.new.found
            ≡ with_listing self.old.found path.now position (contents_in entries.items)) }
        ensures out { OnOk result (self.new.out ≡ without self.old.out path.now) }
        ensures belongs { OnOk result (Belongs self.old path.now (contents_in entries.items)) }
        ensures small { OnOk result (is_too_large self.old.found (contents_in entries.items)
            ≡ false) }

        ensures nodes { OnOk result (len self.new.found.marks
            ≡ len self.old.found.marks + length entries.items) }

        // What was listed is what had been, and this.
        ensures listed { OnOk result (WasListedIn self.new.found path.now position
            (contents_in entries.items)) }
        ensures only { OnOk result (ListsOnly self.old.found path.now position
            (contents_in entries.items) self.new.found) }

        ensures too_large { IfErr result (λ e. e ≡ ScanError.TooLarge
            → is_too_large self.old.found (contents_in entries.items) ≡ true) }
        ensures bad { IfErr result (λ e. e ≡ ScanError.BadMessage
            → (is_too_large self.old.found (contents_in entries.items) ≡ false)
            × ¬ Belongs self.old path.now (contents_in entries.items)) }

        // Memory is taken for a path that was handed out, where no more nodes come than may be.
        ensures memory { IfErr result (λ e. e ≡ ScanError.Memory
            → (is_too_large self.old.found (contents_in entries.items) ≡ false)
            × (is_out self.old.out path.now ≡ true)) }
        ensures same { OnErr result (self.new ≡ self.old) }
    {
        if self.scan.tree().node_count() + entries.len() > MOST_NODES {
            return Err(ScanError::TooLarge);
        }
        if !is_among(&self.out, path) {
            return Err(ScanError::BadMessage);
        }
        let listing = directory_of(alloc, entries)?;
        let place = self.scan.index_of(path);
        self.scan.take(alloc, path, position, listing)?;
        take_back(&mut self.out, path);
        // What it shows stands right after it, and is still to be handed out.
        self.passed = self.passed.min(place);
        Ok(())
    }

    /// Notes that a path that was handed out was no directory at the position.
    ///
    /// Refused 23 where the path is not handed out or answered already, and 11 where memory is
    /// refused.
    pub fn not_dir(&mut self, alloc: Global, path: &Path, position: u64) -> Result<(), ScanError>
        ensures found { OnOk result (self.new.found
            ≡ with_no_directory self.old.found path.now position) }
        ensures out { OnOk result (self.new.out ≡ without self.old.out path.now) }
        ensures belongs { OnOk result (is_out self.old.out path.now ≡ true) }
        ensures bad { IfErr result (λ e. e ≢ ScanError.Memory → (e ≡ ScanError.BadMessage)
            × (is_out self.old.out path.now ≡ false)) }

        // Memory is taken for a path that was handed out.
        ensures memory { IfErr result (λ e. e ≡ ScanError.Memory
            → is_out self.old.out path.now ≡ true) }
        ensures same { OnErr result (self.new ≡ self.old) }
    {
        if !is_among(&self.out, path) {
            return Err(ScanError::BadMessage);
        }
        self.scan.take_no_directory(alloc, path, position)?;
        take_back(&mut self.out, path);
        Ok(())
    }

    /// What was found so far: the scan, once `next_request` gives nothing more.
    pub fn scan(&self) -> &Scan
        ensures found { result.now ≡ self.now.found }
        ensures scan { IsWhole self.now.found → IsScanBy (WasListedIn self.now.found)
            (WasNoDirectoryIn self.now.found) (scan_of result.now) (position_of result.now) }
    {
        let _ = self.scan.tree();
        &self.scan
    }

    /// The scan, once `next_request` gives nothing more. It takes no memory.
    pub fn finish(self) -> Scan
        requires { IsWhole self.found }
        ensures found { result ≡ self.found }
        ensures scan { IsScanBy (WasListedIn self.found) (WasNoDirectoryIn self.found)
            (scan_of result) (position_of result) }
    {
        let _ = self.scan.tree();
        self.scan
    }
}

/// The listing as the marks of a directory with these names alone.
///
/// Refused 23 where the names do not rise, and 11 where memory is refused.
fn directory_of(alloc: Global, entries: Vec<(Name, Mark)>) -> Result<MarkTree, ScanError>
    ensures ok { IfOk result (λ marks. marks ≡ directory_with (contents_in entries.items)) }
    ensures marks { OnOk result (AreMarks (listing_pairs (contents_in entries.items))) }
    ensures rising { OnOk result (names_rise (contents_in entries.items) ≡ true) }
    ensures bad { IfErr result (λ e. e ≢ ScanError.Memory → (e ≡ ScanError.BadMessage)
        × (length entries.items < most_nodes → names_rise (contents_in entries.items) ≡ false)) }
{
    let mut list = Vec::new(alloc);
    list.push(MarkEntry::new(Path::root(alloc), Mark::Dir))?;
    push_entries(alloc, &mut list, entries)?;
    match MarkTree::from_vec(list) {
        Some(marks) => {
            let _ = marks.as_slice();
            Ok(marks)
        }
        None => Err(ScanError::BadMessage),
    }
}

/// Puts the names, each with its mark, after the entries that are there. Refused 11 where memory
/// is refused, and for no other cause.
fn push_entries(
    alloc: Global,
    list: &mut Vec<MarkEntry>,
    entries: Vec<(Name, Mark)>,
) -> Result<(), ScanError>
    ensures ok { OnOk result (list.new.items ≡ list.old.items
        ++ named (contents_in entries.items)) }
    ensures lawful { OnOk result (AreMarkPairs (named (contents_in entries.items))) }
    ensures memory { IfErr result (λ e. e ≡ ScanError.Memory) }
{
    for (name, mark) in entries {
        let path = path_of(alloc, name)?;
        is_mark(mark);
        list.push(MarkEntry::new(path, mark))?;
    }
    Ok(())
}

/// The path of this one name. Refused 11 where memory is refused, and for no other cause.
fn path_of(alloc: Global, name: Name) -> Result<Path, ScanError>
    ensures ok { IfOk result (λ path. (path ≡ name ∷ []) × IsPath path) }
    ensures memory { IfErr result (λ e. e ≡ ScanError.Memory) }
{
    let _ = name.as_str();
    let mut names = Vec::with_capacity(alloc, 1)?;
    names.push(name)?;
    Ok(Path::from_names(names)?)
}
