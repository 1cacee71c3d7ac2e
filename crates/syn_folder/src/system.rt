//! A folder of the system.
ghost use Rattle.std.specs.Prelude.{◌≡◌, [], option_map, IfOk};
ghost use Rattle.syn_model.specs.Tree.{empty_directory};
ghost use Rattle.syn_tree.specs.Nodes.{part_of};
ghost use Rattle.syn_folder.specs.Looks.{IsFolderRead, IsReadOrMissing};

use crate::edited::EditedFolder;
use crate::error::FolderError;
use crate::folder::Folder;
use crate::kept::Kept;
use crate::stranger::Stranger;
use std::alloc::{AllocError, Global};
use std::fs::Files;
use std::io;
use syn_path::Path;
use syn_tree::{Node, Tree};

mod as_read;
mod calls;
mod editing;
mod exported;
mod glimpse;
mod item;
mod laws;
mod listing;
mod looking;
mod looks;
mod note;
mod open_dir;
mod own;
mod picture;
mod place;
mod reading;
mod replacing;
mod stage;
mod stamp;
mod streams;
mod walking;
mod writing;

use as_read::WasRead;
use editing::{Replaced, check_names, check_notes, replace_in, settle_notes};
pub use exported::ExportedFolder;
pub use glimpse::{Glimpse, take_glimpse};
use looks::Looked;
use open_dir::OpenDir;
use picture::FolderRead;
use reading::read_folder;
pub use stamp::StampFile;
use stamp::make_folder;
use walking::Mounts;

/// A folder of the system, with what stands in it in memory.
///
/// No contract can say what the system's folder holds. One sentence is taken as given: as long as
/// no call failed and nobody else changes it, it holds what is in memory, but for what has a name
/// `.syn` in its path. Each name is one of a replica, and no symbolic link in the folder is
/// followed, so nothing outside of it is written.
#[derive(Drop)]
pub struct SystemFolder<'a, F> {
    files: &'a F,
    root: &'a str,
    is_missing: bool,
    /// What stands in it, as it was read and as it was written since.
    tree: Tree,
    strangers: Vec<Stranger>,
    /// How each file and directory looked when it was read, in path order.
    looks: Vec<Looked>,
    /// The folder's directory, once it is open to be edited.
    top: Option<OpenDir>,
    /// No note of an earlier replacement stands.
    is_settled: bool,
    /// What was taken away, the latest last.
    kept: Vec<Kept>,
}

impl<'a, F: Files> SystemFolder<'a, F> {
    /// Reads the folder of this name, for the path `at` of a replica: a stranger is what can not
    /// stand there. Where it has more than a replica may, it is a stranger itself, and its tree is
    /// empty.
    ///
    /// Refused 9 where it cannot be read or is none, 13 where something changed while it was read,
    /// or a replacement that was cut off has moved something away (`open_to_edit`), and 11 where
    /// memory is refused.
    pub fn open(alloc: Global, files: &'a F, root: &'a str, at: &Path) -> Result<Self, FolderError>
        ensures { IfOk result (λ folder. IsFolderRead at.now
            (⟦<SystemFolder<'a, F> as Folder>⟧.tree folder)
            (⟦<SystemFolder<'a, F> as Folder>⟧.strangers folder)) }
    {
        SystemFolder::open_with(alloc, files, root, at, Mounts::Entered)
    }

    /// The same, where what is mounted below the folder is a part of it, or is not.
    fn open_with(
        alloc: Global,
        files: &'a F,
        root: &'a str,
        at: &Path,
        mounts: Mounts,
    ) -> Result<Self, FolderError>
        ensures { IfOk result (λ folder. IsFolderRead at.now folder.tree folder.strangers.items) }
    {
        check_notes(alloc, files, root)?;
        let FolderRead {
            tree,
            strangers,
            looks,
        } = read_folder(alloc, files, root, at.key(), mounts)?;
        Ok(SystemFolder {
            files,
            root,
            is_missing: false,
            tree,
            strangers,
            looks,
            top: None,
            is_settled: false,
            kept: Vec::new(alloc),
        })
    }

    /// The same for the root, where the folder may be missing. It is made as soon as something is
    /// written. Refused as `open` is.
    pub fn open_or_missing(alloc: Global, files: &'a F, root: &'a str) -> Result<Self, FolderError>
        ensures { IfOk result (λ folder. IsReadOrMissing
            (⟦<SystemFolder<'a, F> as Folder>⟧.tree folder)
            (⟦<SystemFolder<'a, F> as Folder>⟧.strangers folder)) }
    {
        match files.metadata(root) {
            Err(error) if error.kind() == io::ErrorKind::NotFound => {
                SystemFolder::missing(alloc, files, root)
            }
            _ => SystemFolder::open(alloc, files, root, &Path::root(alloc)),
        }
    }

    /// The same as `open_to_edit` reads it, for a plan: nothing is written. Refused as `open` is.
    pub fn open_to_plan(alloc: Global, files: &'a F, root: &'a str) -> Result<Self, FolderError>
        ensures { IfOk result (λ folder. IsReadOrMissing
            (⟦<SystemFolder<'a, F> as Folder>⟧.tree folder)
            (⟦<SystemFolder<'a, F> as Folder>⟧.strangers folder)) }
    {
        match files.metadata(root) {
            Err(error) if error.kind() == io::ErrorKind::NotFound => {
                SystemFolder::missing(alloc, files, root)
            }
            _ => {
                let at = Path::root(alloc);
                let mut folder = SystemFolder::open_with(alloc, files, root, &at, Mounts::Apart)?;
                folder.top = Some(OpenDir::open(alloc, root)?);
                Ok(folder)
            }
        }
    }

    /// The same for a folder that is to be edited. What a replacement that was cut off has moved
    /// away is put back first, if its place is free, and is told among what is kept. All goes
    /// through the one directory that is open then, whatever gets the folder's name meanwhile. What
    /// is mounted below it is told as a stranger, and left alone.
    pub fn open_to_edit(alloc: Global, files: &'a F, root: &'a str) -> Result<Self, FolderError>
        ensures { IfOk result (λ folder. IsReadOrMissing
            (⟦<SystemFolder<'a, F> as Folder>⟧.tree folder)
            (⟦<SystemFolder<'a, F> as Folder>⟧.strangers folder)) }
    {
        let top = match OpenDir::open(alloc, root) {
            Ok(top) => top,
            Err(error) if error.kind() == io::ErrorKind::NotFound => {
                return SystemFolder::missing(alloc, files, root);
            }
            Err(error) => return Err(FolderError::System(error)),
        };
        let kept = settle_notes(alloc, files, &top)?;
        let (itself, at) = (top.itself(alloc)?, Path::root(alloc));
        let FolderRead {
            tree,
            strangers,
            looks,
        } = read_folder(alloc, files, itself.as_str(), at.key(), Mounts::Apart)?;
        Ok(SystemFolder {
            files,
            root,
            is_missing: false,
            tree,
            strangers,
            looks,
            top: Some(top),
            is_settled: true,
            kept,
        })
    }

    /// A folder that is missing.
    fn missing(alloc: Global, files: &'a F, root: &'a str) -> Result<Self, FolderError>
        ensures { IfOk result (λ folder. (folder.tree ≡ empty_directory)
            × (folder.strangers.items ≡ [])) }
    {
        Ok(SystemFolder {
            files,
            root,
            is_missing: true,
            tree: Tree::new(alloc)?,
            strangers: Vec::new(alloc),
            looks: Vec::new(alloc),
            top: None,
            is_settled: true,
            kept: Vec::new(alloc),
        })
    }

    /// What was taken away from the folder since it was opened, and lies in its `.syn/kept`, the
    /// latest last.
    pub fn kept(&self) -> &[Kept] {
        self.kept.as_slice()
    }

    /// The file by which the folder is known beside its marks.
    ///
    /// Refused 9 where the system refuses to open the folder's directory once more.
    pub fn stamp_file(&self) -> Result<StampFile<'a, F>, FolderError> {
        Ok(StampFile::new(self.files, self.root, self.top.as_ref())?)
    }
}

impl<F: Files> SystemFolder<'_, F> {
    /// Makes the folder itself, where it is missing.
    fn make_missing(&mut self) -> io::Result<()>
        ensures tree { self.new.tree ≡ self.old.tree }
        ensures strangers { self.new.strangers ≡ self.old.strangers }
    {
        if self.is_missing {
            make_folder(self.files, self.root)?;
            self.is_missing = false;
        }
        Ok(())
    }

    /// Opens the folder's directory, and ends what a note in it tells of, unless that is done.
    fn make_ready(&mut self, alloc: Global) -> Result<(), FolderError>
        ensures tree { self.new.tree ≡ self.old.tree }
        ensures strangers { self.new.strangers ≡ self.old.strangers }
    {
        self.make_missing()?;
        if self.top.is_none() {
            self.top = Some(OpenDir::open(alloc, self.root)?);
        }
        if !self.is_settled {
            let mut kept = self.settled(alloc)?;
            self.is_settled = true;
            self.kept.append(&mut kept)?;
        }
        Ok(())
    }

    /// Ends what a note in the folder tells of, and answers what lies in `.syn/kept` since.
    fn settled(&self, alloc: Global) -> Result<Vec<Kept>, FolderError> {
        match &self.top {
            Some(top) => settle_notes(alloc, self.files, top),
            None => Ok(Vec::new(alloc)),
        }
    }

    /// Writes what is given in the place of what was read at and below the path.
    fn write(&mut self, alloc: Global, path: &Path, new: Option<&Node>) -> Result<(), FolderError>
        ensures tree { self.new.tree ≡ self.old.tree }
        ensures strangers { self.new.strangers ≡ self.old.strangers }
    {
        check_names(alloc, path, new)?;
        self.make_ready(alloc)?;
        let Replaced {
            mut told,
            is_settled,
            answer,
        } = self.replaced(alloc, path, new);
        self.is_settled = is_settled;
        // Without memory it is not told, but what was replaced is replaced.
        let _ = self.kept.append(&mut told);
        answer
    }

    /// What came of putting what is given in the place of what was read.
    fn replaced(&self, alloc: Global, path: &Path, new: Option<&Node>) -> Replaced {
        let was = WasRead {
            tree: &self.tree,
            looks: self.looks.as_slice(),
        };
        match &self.top {
            Some(top) => replace_in(alloc, self.files, top, was, path, new),
            None => Replaced::refused(alloc, io::Error::from(io::ErrorKind::NotFound)),
        }
    }
}

/// An equal node of its own, where there is one. Refused where memory is refused.
fn copy_of(alloc: Global, node: Option<&Node>) -> Result<Option<Node>, AllocError>
    ensures { IfOk result (λ copy.
        part_of copy ≡ part_of (option_map (λ there. there.now) node.entry)) }
{
    match node {
        Some(node) => Ok(Some(node.copy(alloc)?)),
        None => Ok(None),
    }
}

impl<F: Files> Folder for SystemFolder<'_, F> {
    ghost tree = { λ folder. folder.tree };

    ghost strangers = { λ folder. folder.strangers.items };

    fn tree(&self) -> &Tree {
        &self.tree
    }

    fn strangers(&self) -> &[Stranger] {
        self.strangers.as_slice()
    }
}

/// What stands at the path is looked at, moved into `.syn/kept` by one rename, and looked at and
/// read once more there. If it is not what was read it is put back, where nothing stands at the
/// path by then. What takes its place is put there by a second name, or a rename, where nothing
/// stands. A directory goes, and comes, as a whole.
///
/// Names are synced before the call succeeds. A stop in between leaves a note, by which
/// `open_to_edit` puts back what was moved.
impl<F: Files> EditedFolder for SystemFolder<'_, F> {
    ghost tree = { λ folder. folder.tree };

    ghost strangers = { λ folder. folder.strangers.items };

    fn tree(&self) -> &Tree {
        &self.tree
    }

    fn strangers(&self) -> &[Stranger] {
        self.strangers.as_slice()
    }

    fn replace(
        &mut self,
        alloc: Global,
        path: &Path,
        new: Option<Node>,
    ) -> Result<(), FolderError> {
        let copy = copy_of(alloc, new.as_ref())?;
        let change = self.tree.prepare_replace(alloc, path, new)?;
        self.write(alloc, path, copy.as_ref())?;
        self.tree.make(change);
        Ok(())
    }
}
