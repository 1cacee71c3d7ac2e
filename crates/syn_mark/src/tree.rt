//! A tree of marks, within the limits of an archive by its type: what an archive keeps, and what a
//! scan finds.
ghost use Rattle.std.specs.Prelude.{◌≡◌, ◌≢◌, ◌↔◌, IsTrue, true, length, Some, None, filter};
ghost use Rattle.std.specs.Prelude.{option_map, IfOk, IfErr, IfSome, IfNone};
ghost use Rattle.std.specs.FinMap.{entries, get, len};
ghost use Rattle.syn_model.specs.Path.{root, IsPath};
ghost use Rattle.syn_model.specs.Tree.{Tree as Pairs, at_root, is_directory, is_present, replace};
ghost use Rattle.syn_model.specs.Tree.{empty_directory, subtree};
ghost use Rattle.syn_model.specs.Mark.{IsMarks};
ghost use Rattle.syn_model.specs.Limits.{children, fits_archive};
ghost use Rattle.syn_placed.specs.Pairs.{is_below, within};
ghost use Rattle.syn_tree.specs.Refusals.{refusal_of, refusal_in};
ghost use Rattle.syn_model.specs.Refusal.{first_cause};
ghost use Rattle.syn_model.specs.Standing.{place_causes};
ghost use Rattle.syn_mark.specs.Marks.{content_of, or_absent, AreMarks, marks_with};
ghost use Rattle.syn_mark.specs.Changes.{IsPreparedFor, after_change, replace_refusal};

use crate::change::MarkChange;
use crate::lawful::{is_entry, is_mark};
use crate::mark::Mark;
use crate::placing::{all_fit_below, all_placed, copy_part, is_root, placed, stands_directory};
use crate::same::same_entries;
use std::alloc::{AllocError, Global};
use std::marker::Model;
use syn_path::{Path, is_path};
use syn_placed::by_path::{
    are_rising, count_children_at, entry_at, part_at, part_below, replace_part,
};
use syn_placed::{EntryKind, Placed};
use syn_tree::TreeError;

/// A path with its mark. Contracts see it as the pair of the two.
pub type MarkEntry = Placed<Mark>;

/// The most nodes of a tree of marks, with its root.
pub const MOST_NODES: usize = 4096;

/// The marks of a file, or of a directory with all below it: at most 4,096 nodes with the root, and
/// each path, taken from the root, within the limits of a path. No limit binds the names in a
/// directory. Contracts see it as the set of its paths, each with its mark.
#[derive(Debug, Drop)]
pub struct MarkTree {
    /// The root with its mark, and what stands below it, in path order.
    list: Vec<MarkEntry>,
}

impl Model for MarkTree {
    ghost use Rattle.syn_model.specs.Tree.{Tree as Pairs, coded_tree};

    ghost Value = { Pairs };

    ghost coded = { coded_tree };

    ghost use Rattle.syn_mark.specs.Marks.{marks_with, AreMarks};

    ghost view = { λ m. marks_with m.list.items };

    ghost invariant = { λ m. AreMarks m.list.items };
}

impl MarkTree {
    /// The mark of a file or of an empty directory, alone. Refused where memory is refused.
    pub fn of_mark(alloc: Global, mark: Mark) -> Result<MarkTree, AllocError>
        ensures { IfOk result (λ marks. marks ≡ at_root (content_of mark)) }
    {
        is_mark(mark);
        let mut list = Vec::with_capacity(alloc, 1)?;
        list.push(MarkEntry::new(Path::root(alloc), mark))?;
        Ok(MarkTree { list })
    }

    /// These entries, where they are the marks of a file or of a directory with all below it, in
    /// path order from the root on, and keep the limits; else none.
    pub fn from_vec(list: Vec<MarkEntry>) -> Option<MarkTree>
        ensures some { IfSome result (λ marks. list.items ≡ entries marks) }
        ensures none { IfNone result (¬ AreMarks list.items) }
    {
        let [first, below @ ..] = list.as_slice() else {
            return None;
        };
        if !is_root(first) {
            return None;
        }
        if list.len() > MOST_NODES {
            return None;
        }
        is_entry(first);
        if below.is_empty() {
            return Some(MarkTree { list });
        }
        if !first.content().is_directory() {
            return None;
        }
        if !are_rising(below) {
            return None;
        }
        if !all_placed(below) {
            return None;
        }
        Some(MarkTree { list })
    }

    /// These entries, which are marks.
    pub(crate) fn from_marks(list: Vec<MarkEntry>) -> MarkTree
        requires { AreMarks list.items }
        ensures { result ≡ marks_with list.items }
    {
        MarkTree { list }
    }

    /// The entries in path order, the root's first.
    pub fn as_slice(&self) -> &[MarkEntry]
        ensures all { result.now ≡ entries self.now }
        ensures present { is_present self.now root ≡ true }
        ensures marks { IsMarks self.now }
        ensures fits { fits_archive self.now ≡ true }
    {
        self.list.as_slice()
    }

    /// The entries in path order, the root's first.
    pub fn into_vec(self) -> Vec<MarkEntry>
        ensures all { result.items ≡ entries self }
        ensures marks { IsMarks self }
        ensures fits { fits_archive self ≡ true }
    {
        self.list
    }

    /// The mark at the path; none where nothing is.
    pub fn get(&self, path: &Path) -> Option<Mark>
        ensures { option_map (λ mark. content_of mark) result ≡ get self.now path.now }
    {
        match entry_at(&self.list, path.names()) {
            Some(entry) => Some(*entry.content()),
            None => None,
        }
    }

    /// The marks at and below the path, in path order; nothing where nothing is. It takes no
    /// memory.
    pub fn subtree(&self, path: &Path) -> &[MarkEntry]
        ensures { result.now ≡ within path.now (entries self.now) }
    {
        part_at(&self.list, path.names())
    }

    /// What stands below the path, without what is at it, in path order; nothing where no directory
    /// is there.
    pub fn below(&self, path: &Path) -> &[MarkEntry]
        ensures { result.now ≡ filter (is_below path.now) (entries self.now) }
    {
        part_below(&self.list, path)
    }

    /// How many nodes there are, with the root.
    pub fn node_count(&self) -> usize
        ensures { result ≡ len self.now }
    {
        self.list.len()
    }

    /// How many names are in the directory; none where no directory is there.
    /// The work grows with what is below the path, and not with the whole tree.
    pub fn child_count(&self, path: &Path) -> usize
        ensures { result ≡ length (children self.now path.now) }
    {
        count_children_at(&self.list, path)
    }

    /// The mark of the root.
    pub fn root(&self) -> Mark
        ensures { get self.now root ≡ Some (content_of result) }
    {
        match entry_at(&self.list, &[]) {
            Some(entry) => *entry.content(),
            None => Mark::Dir,
        }
    }

    /// The same marks, on their own. Refused where memory is refused.
    pub fn copy(&self, alloc: Global) -> Result<MarkTree, AllocError>
        ensures { IfOk result (λ marks. marks ≡ self.now) }
    {
        let list = copy_part(alloc, self.root(), &self.list, &Path::root(alloc))?;
        Ok(MarkTree { list })
    }

    /// The marks at and below the path, on their own; none where nothing is. Refused where memory
    /// is refused for what is there.
    pub fn copy_at(&self, alloc: Global, path: &Path) -> Result<Option<MarkTree>, AllocError>
        ensures ok { IfOk result (λ marks. or_absent marks ≡ subtree self.now path.now) }
        ensures refused { IfErr result (λ _. get self.now path.now ≢ None) }
    {
        let part = part_at(&self.list, path.names());
        let Some(mark) = self.get(path) else {
            return Ok(None);
        };
        let list = copy_part(alloc, mark, part, path)?;
        Ok(Some(MarkTree { list }))
    }

    /// Whether the same marks stand at and below the path in both, or none in either. It takes no
    /// memory.
    pub fn is_same_at(&self, other: &MarkTree, path: &Path) -> bool
        ensures { IsTrue result ↔ (subtree self.now path.now ≡ subtree other.now path.now) }
    {
        let left = part_at(&self.list, path.names());
        let right = part_at(&other.list, path.names());
        same_entries(left, right)
    }

    /// Whether both are the same marks. It takes no memory.
    pub fn is_same(&self, other: &MarkTree) -> bool
        ensures { IsTrue result ↔ (self.now ≡ other.now) }
    {
        same_entries(&self.list, &other.list)
    }

    /// Why nothing may be put at the path or taken from it: it is the root (6), or its parent is no
    /// directory (2).
    fn check_place(&self, path: &Path) -> Result<(), TreeError>
        ensures { refusal_in result ≡ first_cause (place_causes self.now path.now) }
    {
        let [above @ .., _] = path.names() else {
            return Err(TreeError::Root);
        };
        if stands_directory(&self.list, above) {
            Ok(())
        } else {
            Err(TreeError::NoParent)
        }
    }

    /// Whether the limits are kept where these marks, or none, take the place of what is at the
    /// path.
    fn fits(&self, path: &Path, new: Option<&MarkTree>) -> bool
        ensures { result ≡ fits_archive (replace self.now path.now
            (or_absent (option_map (λ marks. marks.now) new.entry))) }
    {
        let others = self.list.len() - part_at(&self.list, path.names()).len();
        match new {
            None => others <= MOST_NODES,
            Some(marks) => {
                others + marks.list.len() <= MOST_NODES && all_fit_below(path, &marks.list)
            }
        }
    }

    /// Why the replacement of all that is at and below the path is refused, with no change and no
    /// memory taken.
    ///
    /// Refused 6 at the root, 2 where the parent is no directory, and 7 where the marks would pass
    /// a limit.
    pub fn check_replace(&self, path: &Path, new: Option<&MarkTree>) -> Result<(), TreeError>
        ensures { refusal_in result ≡ replace_refusal self.now path.now
            (or_absent (option_map (λ marks. marks.now) new.entry)) }
    {
        self.check_place(path)?;
        if self.fits(path, new) {
            Ok(())
        } else {
            Err(TreeError::Full)
        }
    }

    /// Why no empty directory may be put in the place of all that is at and below the path, with no
    /// memory taken.
    ///
    /// Refused 6 at the root, 2 where the parent is no directory, and 7 where the marks would pass
    /// a limit.
    pub fn check_dir(&self, path: &Path) -> Result<(), TreeError>
        ensures { refusal_in result ≡ replace_refusal self.now path.now empty_directory }
    {
        self.check_place(path)?;
        if self.fits_dir(path) {
            Ok(())
        } else {
            Err(TreeError::Full)
        }
    }

    /// Whether the limits are kept where an empty directory takes the place of what is at the path.
    fn fits_dir(&self, path: &Path) -> bool
        ensures { result ≡ fits_archive (replace self.now path.now empty_directory) }
    {
        let others = self.list.len() - part_at(&self.list, path.names()).len();
        others < MOST_NODES
    }

    /// The replacement of all that is at and below the path, ready to be made, with all memory for
    /// it. The marks stay as they are.
    ///
    /// Refused as `check_replace` refuses it, and 11 where memory is refused.
    pub fn prepare_replace(
        &self,
        alloc: Global,
        path: &Path,
        new: Option<MarkTree>,
    ) -> Result<MarkChange, TreeError>
        ensures ready { IfOk result (λ change. IsPreparedFor self.now change) }
        ensures at { IfOk result (λ change. change.at ≡ path.now) }
        ensures new { IfOk result (λ change. change.new ≡ or_absent new) }
        ensures allowed { IfOk result (λ _.
            replace_refusal self.now path.now (or_absent new) ≡ None) }
        ensures path { IfOk result (λ _. IsPath path.now) }
        ensures marks { IfOk result (λ _. IsMarks (or_absent new)) }
        ensures refused { IfErr result (λ e. e ≢ TreeError.Memory
            → replace_refusal self.now path.now (or_absent new) ≡ Some (refusal_of e)) }
    {
        self.check_replace(path, new.as_ref())?;
        self.prepare_allowed(alloc, path, new)
    }

    /// The same of a replacement that is allowed. Refused 11 where memory is refused.
    pub fn prepare_allowed(
        &self,
        alloc: Global,
        path: &Path,
        new: Option<MarkTree>,
    ) -> Result<MarkChange, TreeError>
        requires { replace_refusal self.now path.now (or_absent new) ≡ None }
        ensures ready { IfOk result (λ change. IsPreparedFor self.now change) }
        ensures at { IfOk result (λ change. change.at ≡ path.now) }
        ensures new { IfOk result (λ change. change.new ≡ or_absent new) }
        ensures path { IfOk result (λ _. IsPath path.now) }
        ensures marks { IfOk result (λ _. IsMarks (or_absent new)) }
        ensures memory { IfErr result (λ e. e ≡ TreeError.Memory) }
    {
        let nodes = self.list.len();
        is_path(path);
        let at = path.copy(alloc)?;
        let added = placed(alloc, path, new)?;
        let space = Vec::with_capacity(alloc, nodes + added.len())?;
        Ok(MarkChange::placed(at, added, space))
    }

    /// Makes a change that was prepared for the marks as they are. It takes no memory.
    pub fn make(&mut self, change: MarkChange)
        requires { IsPreparedFor self.old change }
        ensures { self.new ≡ after_change self.old change }
    {
        let (at, added, mut space) = change.into_parts();
        let _ = space.append(&mut self.list);
        replace_part(&mut space, &at, added);
        self.list = space;
    }
}
