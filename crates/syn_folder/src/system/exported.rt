//! A folder of the system that an export writes.
ghost use Rattle.std.specs.Prelude.{◌≡◌, map, IfErr, OnOk};
ghost use Rattle.syn_change.specs.Changes.{after_edits};
ghost use Rattle.syn_model.specs.Event.{after_edit};
ghost use Rattle.syn_tree.specs.Edits.{edit_of};
ghost use Rattle.syn_folder.specs.Refusals.{IsOfSystem};

use crate::error::FolderError;
use crate::folder::{Folder, WrittenFolder};
use crate::stranger::Stranger;
use crate::system::SystemFolder;
use crate::system::writing::{self, Part};
use std::alloc::Global;
use std::fs::Files;
use std::io;
use std::thread::Threads;
use syn_tree::{Edit, Tree};

/// A folder of the system that an export writes. New files are written beside their places, and get
/// them once all is made (`put_in_place`).
#[derive(Drop)]
pub struct ExportedFolder<'a, F> {
    folder: SystemFolder<'a, F>,
    parts: Vec<Part>,
}

impl<'a, F: Files> ExportedFolder<'a, F> {
    /// The folder of this name, which may be missing. It is made as soon as something is written.
    ///
    /// Refused as `SystemFolder::open` is.
    pub fn open(alloc: Global, files: &'a F, root: &'a str) -> Result<Self, FolderError> {
        Ok(ExportedFolder {
            folder: SystemFolder::open_or_missing(alloc, files, root)?,
            parts: Vec::new(alloc),
        })
    }

    /// Sees to it that the folder holds the tree: the new files are synced side by side by threads,
    /// and each gets its place then, whole.
    ///
    /// Refused 9, or 11 for lack of memory, where a call of the system fails. Then some of them may
    /// have their places, and the others are removed.
    pub fn put_in_place<H: Threads + Sync>(
        &mut self,
        rt: &H,
        alloc: Global,
    ) -> Result<(), FolderError>
    where
        F::File: Sync,
        ensures tree { self.new.folder.tree ≡ self.old.folder.tree }
        ensures strangers { self.new.folder.strangers ≡ self.old.folder.strangers }
        ensures system { IfErr result IsOfSystem }
    {
        let (files, root) = (self.folder.files, self.folder.root);
        let put = writing::put_in_place(rt, alloc, files, root, &self.parts);
        if put.is_err() {
            self.give_up();
        }
        self.parts.clear();
        Ok(put?)
    }

    /// Removes what was written beside its place.
    pub fn give_up(&self) {
        writing::give_up(self.folder.files, &self.parts);
    }

    /// Makes the edit, or writes what it puts beside its place.
    fn make(&mut self, alloc: Global, edit: Edit) -> Result<(), FolderError>
        ensures made { OnOk result
            (self.new.folder.tree ≡ after_edit self.old.folder.tree (edit_of edit)) }
        ensures system { IfErr result IsOfSystem }
    {
        let (files, root) = (self.folder.files, self.folder.root);
        writing::make(
            alloc,
            files,
            root,
            &self.folder.tree,
            &edit,
            &mut self.parts,
        )?;
        let made = self.folder.tree.apply(alloc, edit);
        made.map_err(|_| FolderError::System(io::ErrorKind::OutOfMemory.into()))
    }
}

impl<F: Files> Folder for ExportedFolder<'_, F> {
    ghost tree = { λ exported. exported.folder.tree };

    ghost strangers = { λ exported. exported.folder.strangers.items };

    fn tree(&self) -> &Tree {
        &self.folder.tree
    }

    fn strangers(&self) -> &[Stranger] {
        self.folder.strangers.as_slice()
    }
}

impl<F: Files> WrittenFolder for ExportedFolder<'_, F> {
    fn make_all(&mut self, alloc: Global, edits: Vec<Edit>) -> Result<(), FolderError> {
        self.folder.make_missing()?;
        for edit in edits {
            self.make(alloc, edit)?;
        }
        Ok(())
    }
}
