//! What a tree shows, without memory.
ghost use Rattle.std.specs.Prelude.{◌≡◌, ◌≤◌, true, length, filter, option_map};
ghost use Rattle.std.specs.FinMap.{entries, get, len};
ghost use Rattle.syn_model.specs.Limits.{children, fits_replica, greatest_spelling};
ghost use Rattle.syn_model.specs.Limits.{tree_spelling_length};
ghost use Rattle.syn_model.specs.Tree.{IsTree, subtree};
ghost use Rattle.syn_placed.specs.Pairs.{rooted, is_below};
ghost use Rattle.syn_tree.specs.Contents.{found_content};

use super::Tree;
use crate::content::Found;
use crate::cursor::Cursor;
use crate::measures::{find, found_spelled, spelled};
use crate::pair::Pair;
use syn_path::Path;
use syn_placed::by_key::{count_children_at, part_below};

impl Tree {
    /// What stands at the path; none where nothing does.
    pub fn get(&self, path: &Path) -> Option<Found<'_>>
        ensures { option_map (λ found. found_content found) result ≡ get self.now path.now }
    {
        find(&self.list, &path.key())
    }

    /// What stands below the root, in path order.
    pub fn entries(&self) -> Cursor<'_>
        ensures all { rooted result ≡ entries self.now }
        ensures tree { IsTree self.now }
        ensures fits { fits_replica self.now ≡ true }
    {
        Cursor::over(&self.list)
    }

    /// What stands below the path, without what is at it, in path order; nothing where no directory
    /// is there.
    pub fn below(&self, path: &Path) -> Cursor<'_>
        ensures { result ≡ filter (is_below path.now) (entries self.now) }
    {
        Cursor::over(part_below(&self.list, &path.key()))
    }

    /// How many nodes there are, with the root.
    pub fn node_count(&self) -> usize
        ensures { result ≡ len self.now }
    {
        self.list.len() + 1
    }

    /// How many names are in the directory; none where no directory is there.
    /// The work grows with what is below the path, and not with the whole tree.
    pub fn child_count(&self, path: &Path) -> usize
        ensures { result ≡ length (children self.now path.now) }
    {
        count_children_at(&self.list, &path.key())
    }

    /// How many names are in the directory that the pair is; none where it is a file. The work
    /// grows with what is below it.
    pub fn child_count_of(&self, pair: &Pair<'_>) -> usize
        ensures { result ≡ length (children self.now pair.now.0) }
    {
        count_children_at(&self.list, pair.entry().key())
    }

    /// How many bytes spell the tree.
    pub fn spelling_length(&self) -> usize
        ensures { result ≡ tree_spelling_length self.now }
    {
        self.spelled
    }

    /// How many bytes spell what is at the path with all below it, without its name; none where
    /// nothing is. The work grows with what is below the path.
    pub fn part_length(&self, path: &Path) -> usize
        ensures length { result ≡ tree_spelling_length (subtree self.now path.now) }
        ensures short { result ≤ greatest_spelling }
    {
        match self.get(path) {
            Some(found) => found_spelled(&found) + spelled(part_below(&self.list, &path.key())),
            None => 0,
        }
    }
}
