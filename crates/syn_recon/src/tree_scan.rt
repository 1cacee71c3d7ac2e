//! The scan of a tree that is in memory.
ghost use Rattle.std.specs.Prelude.{◌≡◌, true, IfErr, IfOk};
ghost use Rattle.syn_mark.specs.Marks.{contents_in};
ghost use Rattle.syn_mark.specs.Placings.{marks_of};
ghost use Rattle.syn_model.specs.Limits.{children};
ghost use Rattle.syn_model.specs.Mark.{mark};
ghost use Rattle.syn_model.specs.Plan.{scan_of as scan_of_tree};
ghost use Rattle.syn_model.specs.Tree.{is_directory};
ghost use Rattle.syn_scan.specs.Found.{scan_of};
ghost use Rattle.syn_tree.specs.Lists.{contents_at};

use std::alloc::{AllocError, Global};
use syn_mark::{MOST_NODES, Mark, mark_found};
use syn_path::{Name, Path};
use syn_scan::{Scan, ScanError, Scanner};
use syn_tree::{Found, Tree};

/// What a scan finds of the tree. Refused 11 where memory is refused, and for no other cause: a
/// tree keeps the limits of a replica, which are below those of a scan.
pub(crate) fn scan_tree(alloc: Global, tree: &Tree) -> Result<Scan, ScanError>
    ensures scan { IfOk result (λ scan. scan_of scan ≡ scan_of_tree tree.now) }
    ensures memory { IfErr result (λ e. e ≡ ScanError.Memory) }
{
    // Its type says that each path has its parents, and which limits it keeps.
    let _ = tree.entries();
    let mut scanner = Scanner::new(alloc)?;
    // One call more than there can be directories says that none is left.
    for _ in 0..=MOST_NODES {
        // Only a directory was listed, and nothing stands below one that was not.
        let _ = scanner.scan().tree();
        let Some(path) = scanner.next_request(alloc)? else {
            return Ok(scanner.finish());
        };
        let marks = marks_in(alloc, tree, &path)?;
        scanner.take(alloc, &path, 0, marks)?;
    }
    // No tree has so many directories.
    let _ = scanner.scan().tree();
    Err(ScanError::TooLarge)
}

/// The names in the directory, in byte order, each with the mark of what stands there.
///
/// Refused 23 where no directory is there, and 11 where memory is refused.
fn marks_in(alloc: Global, tree: &Tree, path: &Path) -> Result<Vec<(Name, Mark)>, ScanError>
    ensures marks { IfOk result
        (λ listed. contents_in listed.items ≡ children (mark tree.now) path.now) }
    ensures memory { IfErr result
        (λ e. is_directory tree.now path.now ≡ true → e ≡ ScanError.Memory) }
{
    marks_at(alloc, tree.children(alloc, path)?)
}

/// The names, each with the mark of what stands there. Refused 11 where memory is refused, and for
/// no other cause.
fn marks_at(alloc: Global, children: Vec<(Name, Found<'_>)>) -> Result<Vec<(Name, Mark)>, ScanError>
    ensures marks { IfOk result (λ listed. contents_in listed.items
        ≡ marks_of (contents_at children.entry.items)) }
    ensures memory { IfErr result (λ e. e ≡ ScanError.Memory) }
{
    let mut listed = Vec::with_capacity(alloc, children.len())?;
    for (name, found) in children {
        listed.push((name, mark_found(&found)))?;
    }
    Ok(listed)
}
