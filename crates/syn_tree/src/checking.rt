//! Why an edit is refused, and what mode a put leaves, whatever form the tree has.
ghost use Rattle.std.specs.Prelude.{◌≡◌, ◌<◌, ◌^◌, ℕ, List, None, true, length, option_map};
ghost use Rattle.std.specs.FinMap.{get};
ghost use Rattle.syn_model.specs.Contents.{Contents};
ghost use Rattle.syn_model.specs.Tree.{Tree as Pairs, File, at_root, is_directory, replace};
ghost use Rattle.syn_model.specs.Event.{Put, MakeDir, Remove, Chmod, put_mode};
ghost use Rattle.syn_model.specs.Limits.{fits_replica};
ghost use Rattle.syn_model.specs.Refusal.{first_cause};
ghost use Rattle.syn_model.specs.Standing.{edit_refusal, full_causes, place_causes};
ghost use Rattle.syn_tree.specs.Contents.{found_content};
ghost use Rattle.syn_tree.specs.Edits.{edit_of};
ghost use Rattle.syn_tree.specs.Lists.{IsMeasured};
ghost use Rattle.syn_tree.specs.Modes.{mode_of};
ghost use Rattle.syn_tree.specs.Refusals.{refusal_in};

use crate::content::Found;
use crate::edit::Edit;
use crate::error::TreeError;
use crate::measures::{DIRECTORY_FRONT, FILE_FRONT, LONGEST_FILE, name_spelled};
use crate::mode::Mode;
use syn_path::Path;

/// A form of a tree within the limits of a replica, as far as it decides which edits are refused.
/// Contracts see the tree that it stands for.
pub trait Limited {
    ghost use Rattle.syn_model.specs.Tree.{Tree as Stood};

    ghost tree: { Self → Stood };

    /// What stands at the path; none where nothing does.
    fn get(&self, path: &Path) -> Option<Found<'_>>
        ensures { option_map (λ found. found_content found) result
            ≡ get (tree self.now) path.now };

    /// Why nothing may be put at the path or taken from it: it is the root (6), or its parent is no
    /// directory (2).
    fn check_place(&self, path: &Path) -> Result<(), TreeError>
        ensures { refusal_in result ≡ first_cause (place_causes (tree self.now) path.now) };

    /// Whether the limits are kept where so many nodes, spelled with so many bytes, take the place
    /// of what is at the path.
    fn fits(&self, path: &Path, nodes: usize, size: usize) -> bool
        requires place { first_cause (place_causes (tree self.now) path.now) ≡ None }
        requires nodes { nodes < 2 ^ 62 }
        requires size { size < 2 ^ 62 }
        ensures { (new : Pairs) → IsMeasured path.now new nodes size → result
            ≡ fits_replica (replace (tree self.now) path.now new) };

    /// It keeps the limits of a replica.
    fn limits(&self)
        ensures { fits_replica (tree self.now) ≡ true };
}

/// Why the edit is refused, as `Tree::check` has it.
pub fn check<T: Limited>(tree: &T, edit: &Edit) -> Result<(), TreeError>
    ensures { refusal_in result ≡ edit_refusal (T.tree tree.now) (edit_of edit.now) }
{
    match edit {
        Edit::Put(path, bytes) => check_put(tree, path, bytes.len()),
        Edit::MakeDir(path) => check_make_dir(tree, path),
        Edit::Remove(path) => check_remove(tree, path),
        Edit::Chmod(path, _) => check_chmod(tree, path),
    }
}

/// The mode of a file that is put at the path: that of the file there, or a new one's.
pub fn mode_after_put<T: Limited>(tree: &T, path: &Path) -> Mode
    ensures { mode_of result ≡ put_mode (get (T.tree tree.now) path.now) }
{
    match tree.get(path) {
        Some(Found::File(mode, _)) => mode,
        _ => Mode::NEW_FILE,
    }
}

/// A directory is at the path.
fn is_directory<T: Limited>(tree: &T, path: &Path) -> bool
    ensures { result ≡ is_directory (T.tree tree.now) path.now }
{
    match tree.get(path) {
        Some(found) => found.is_directory(),
        None => false,
    }
}

/// Why a file of so many bytes is not put.
fn check_put<T: Limited>(tree: &T, path: &Path, size: usize) -> Result<(), TreeError>
    ensures { (bytes : List ℕ) → length bytes ≡ size → refusal_in result
        ≡ edit_refusal (T.tree tree.now) (Put path.now bytes) }
{
    tree.check_place(path)?;
    if is_directory(tree, path) {
        return Err(TreeError::IsDirectory);
    }
    check_size(tree, path, size)
}

/// Why a file of so many bytes may not stand at the path, where something may: it is longer than a
/// file may be, or the tree would pass a limit (7).
fn check_size<T: Limited>(tree: &T, path: &Path, size: usize) -> Result<(), TreeError>
    requires { first_cause (place_causes (T.tree tree.now) path.now) ≡ None }
    ensures { (contents : Contents) → length contents.bytes ≡ size → refusal_in result
        ≡ first_cause (full_causes
        (replace (T.tree tree.now) path.now (at_root (File contents)))) }
{
    if size > LONGEST_FILE {
        return Err(TreeError::Full);
    }
    check_fits(tree, path, name_spelled(&path.key()) + FILE_FRONT + size)
}

/// Why a directory is not made.
fn check_make_dir<T: Limited>(tree: &T, path: &Path) -> Result<(), TreeError>
    ensures { refusal_in result ≡ edit_refusal (T.tree tree.now) (MakeDir path.now) }
{
    tree.check_place(path)?;
    if tree.get(path).is_some() {
        return Err(TreeError::Exists);
    }
    check_fits(tree, path, name_spelled(&path.key()) + DIRECTORY_FRONT)
}

/// Why what is spelled with so many bytes may not take the place of what is at the path: the tree
/// would pass a limit (7).
fn check_fits<T: Limited>(tree: &T, path: &Path, size: usize) -> Result<(), TreeError>
    requires place { first_cause (place_causes (T.tree tree.now) path.now) ≡ None }
    requires size { size < 2 ^ 62 }
    ensures { (new : Pairs) → IsMeasured path.now new 1 size → refusal_in result
        ≡ first_cause (full_causes (replace (T.tree tree.now) path.now new)) }
{
    if tree.fits(path, 1, size) {
        Ok(())
    } else {
        Err(TreeError::Full)
    }
}

/// Why nothing is removed.
fn check_remove<T: Limited>(tree: &T, path: &Path) -> Result<(), TreeError>
    ensures { refusal_in result ≡ edit_refusal (T.tree tree.now) (Remove path.now) }
{
    tree.check_place(path)?;
    if tree.get(path).is_none() {
        return Err(TreeError::Absent);
    }
    // what is left keeps the limits that the whole kept
    tree.limits();
    Ok(())
}

/// Why no mode is changed.
fn check_chmod<T: Limited>(tree: &T, path: &Path) -> Result<(), TreeError>
    ensures { (mode : ℕ) → refusal_in result
        ≡ edit_refusal (T.tree tree.now) (Chmod path.now mode) }
{
    tree.check_place(path)?;
    match tree.get(path) {
        Some(Found::File(_, bytes)) => check_size(tree, path, bytes.len()),
        Some(Found::Dir) => Err(TreeError::IsDirectory),
        None => Err(TreeError::Absent),
    }
}
