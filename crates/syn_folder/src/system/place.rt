//! A path of a folder of the system, at which something is replaced.
ghost use Rattle.std.specs.Prelude.{◌≡◌, false, true, IfOk};
ghost use Rattle.syn_folder.specs.Moments.{pictured};
ghost use Rattle.syn_folder.specs.Stages.{IsCutOff, IsUntouched};
ghost use Rattle.syn_folder.specs.declared.system.stage.Stage.TheVariants.{Moved};

use crate::error::FolderError;
use crate::kept::Kept;
use crate::system::as_read::{WasRead, is_as_read, look_at as look_read_at};
use crate::system::calls::PlaceCalls;
use crate::system::item::{ITEM, remove_item, write_item};
use crate::system::listing::OWN;
use crate::system::looking::{look_at, system_path_of};
use crate::system::looks::{Look, Seen};
use crate::system::note::{Note, make_numbered, remove_note, write_note};
use crate::system::open_dir::{OpenDir, is_none_there};
use crate::system::own::{OwnDirs, made_in};
use crate::system::replacing::changed;
use crate::system::stage::Stage;
use crate::system::walking::{Mounts, walk_folder};
use crate::system::writing::above;
use std::alloc::Global;
use std::fs::Files;
use std::io;
use syn_path::{Name, Path};
use syn_tree::{Found, Node};

/// A path of a folder of the system, at which something is replaced.
///
/// No contract can say what the system's calls do to a folder. It is taken as given that they do
/// what is said of them (`PlaceCalls`), and that `.syn` has of the path what is in memory: that a
/// rename moves what has the name, and that a link is refused where something has the name. Each
/// directory above the path is opened one by one from the folder's own, which is open, and no
/// symbolic link is followed.
#[derive(Drop)]
pub(super) struct SystemPlace<'a, F> {
    files: &'a F,
    top: &'a OpenDir,
    own: OwnDirs,
    path: &'a Path,
    was: WasRead<'a>,
    /// What is wanted at the path, where it is still to be written.
    node: Option<&'a Node>,
    is_wanted: bool,
    stage: Stage,
    /// What stood at the path lies in `.syn/kept`.
    is_kept: bool,
    /// A note of it stands.
    is_noted: bool,
    /// The directory in `.syn/kept` in which what stood at the path is to lie, under its path.
    number: String,
    /// What was seen as what was moved was looked at.
    seen: Vec<Seen>,
    /// What was taken away and stays in `.syn/kept`.
    told: Option<Kept>,
}

impl<'a, F: Files> SystemPlace<'a, F> {
    /// The path of the folder whose directory is open, at which this was read, and at which the
    /// node is wanted, or nothing.
    pub(super) fn new(
        alloc: Global,
        files: &'a F,
        top: &'a OpenDir,
        was: WasRead<'a>,
        path: &'a Path,
        node: Option<&'a Node>,
    ) -> io::Result<Self>
        ensures stage { IfOk result (λ place. IsUntouched place.stage) }
        ensures kept { IfOk result (λ place. place.is_kept ≡ false) }
        ensures noted { IfOk result (λ place. place.is_noted ≡ false) }
    {
        let is_there = was.tree.get(path).is_some();
        Ok(SystemPlace {
            files,
            top,
            own: OwnDirs::open_or_make(alloc, files, top)?,
            path,
            was,
            node,
            is_wanted: node.is_some(),
            stage: if is_there {
                Stage::Standing
            } else {
                Stage::Vacant
            },
            is_kept: false,
            is_noted: false,
            number: String::new(alloc),
            seen: Vec::new(alloc),
            told: None,
        })
    }

    /// The path that the note tells of, as it stands now.
    pub(super) fn noted(
        alloc: Global,
        files: &'a F,
        top: &'a OpenDir,
        own: OwnDirs,
        was: WasRead<'a>,
        note: &'a Note,
    ) -> io::Result<Self>
        ensures stage { IfOk result (λ place. IsCutOff place.stage) }
        ensures kept { IfOk result (λ place. place.stage ≡ Moved → place.is_kept ≡ true) }
    {
        let mut place = SystemPlace {
            files,
            top,
            own,
            path: &note.path,
            was,
            node: None,
            is_wanted: note.is_wanted,
            stage: Stage::Noted,
            is_kept: false,
            is_noted: true,
            number: String::from_str(alloc, note.number.as_str())?,
            seen: Vec::new(alloc),
            told: None,
        };
        place.is_kept = place.lies_in_kept(alloc)?;
        if place.is_placed(alloc)? {
            place.stage = Stage::Placed;
        } else if place.is_kept {
            place.stage = Stage::Moved;
        }
        Ok(place)
    }

    /// What was taken away and stays in `.syn/kept`, if anything is.
    pub(super) fn told(self) -> Option<Kept> {
        self.told
    }
}

impl<F: Files> SystemPlace<'_, F> {
    /// The last name of the path.
    fn name(&self) -> &str {
        match self.path.names().last() {
            Some(name) => name.as_str(),
            None => "",
        }
    }

    /// The directory that the path is in; none where it is gone, or is none any more.
    fn directory(&self) -> io::Result<Option<OpenDir>> {
        opened_below(self.top.open_in(".")?, above(self.path))
    }

    /// The directory in which what stood at the path lies, or is to lie; none where none was made.
    fn room(&self) -> io::Result<Option<OpenDir>> {
        match self.own.kept.open_in(self.number.as_str()) {
            Ok(numbered) => opened_below(numbered, above(self.path)),
            Err(error) if is_none_there(&error) => Ok(None),
            Err(error) => Err(error),
        }
    }

    /// Makes the directory in which what stands at the path is to lie.
    fn make_room(&self, alloc: Global) -> io::Result<()> {
        let mut dir = self.own.kept.open_in(self.number.as_str())?;
        for name in above(self.path) {
            dir = made_in(alloc, self.files, &dir, name.as_str())?;
        }
        Ok(())
    }

    /// Syncs the directories from `.syn/kept` to the one in which what stood at the path lies.
    fn sync_room(&self, alloc: Global) -> io::Result<()> {
        self.own.kept.sync(alloc, self.files)?;
        let mut dir = self.own.kept.open_in(self.number.as_str())?;
        dir.sync(alloc, self.files)?;
        for name in above(self.path) {
            dir = dir.open_in(name.as_str())?;
            dir.sync(alloc, self.files)?;
        }
        Ok(())
    }

    /// Removes the directories in which nothing lies.
    fn remove_room(&self, alloc: Global) -> io::Result<()> {
        let numbered = self.own.kept.place(alloc, self.number.as_str())?;
        let names = above(self.path);
        for less in 0..names.len() {
            let room = system_path_of(alloc, numbered.as_str(), &names[..names.len() - less])?;
            let _ = self.files.remove_dir(room.as_str());
        }
        let _ = self.files.remove_dir(numbered.as_str());
        Ok(())
    }

    /// How what has the name in the directory looks; none where nothing has it.
    fn look_in(&self, alloc: Global, dir: &OpenDir, name: &str) -> io::Result<Option<Look>> {
        let place = dir.place(alloc, name)?;
        match self.files.symlink_metadata(place.as_str()) {
            Ok(there) => Ok(Some(Look::of(&there))),
            Err(error) if is_none_there(&error) => Ok(None),
            Err(error) => Err(error),
        }
    }
}

impl<F: Files> SystemPlace<'_, F> {
    /// What stands at and below the name in the directory: what has the name first, and then what
    /// is below it, in path order. Nothing where nothing has the name.
    fn look_whole(&self, alloc: Global, dir: &OpenDir) -> io::Result<Vec<Seen>> {
        let mut seen = Vec::new(alloc);
        let place = dir.place(alloc, self.name())?;
        match self.files.symlink_metadata(place.as_str()) {
            Ok(there) if there.is_dir() => self.look_below(alloc, dir),
            Ok(_) => {
                let (itself, last) = (dir.itself(alloc)?, self.last(alloc)?);
                let shown = look_at(alloc, self.files, itself.as_str(), None, &last, false);
                let (path, shown) = (Path::root(alloc), shown.map_err(cause_of)?);
                seen.push(Seen { path, shown })?;
                Ok(seen)
            }
            Err(error) if is_none_there(&error) => Ok(seen),
            Err(error) => Err(error),
        }
    }

    /// The same of a directory.
    fn look_below(&self, alloc: Global, dir: &OpenDir) -> io::Result<Vec<Seen>> {
        match dir.open_in(self.name()) {
            Ok(open) => {
                let (itself, at) = (open.itself(alloc)?, self.path.key());
                let walk = walk_folder(alloc, self.files, itself.as_str(), at, Mounts::Apart);
                Ok(walk.map_err(cause_of)?.looks)
            }
            Err(error) if is_none_there(&error) => Ok(Vec::new(alloc)),
            Err(error) => Err(error),
        }
    }

    /// The last name of the path, as a path.
    fn last(&self, alloc: Global) -> io::Result<Path> {
        let root = Path::root(alloc);
        match self.path.names().last() {
            Some(name) => match root.child(alloc, name) {
                Ok(last) => Ok(last),
                Err(_) => Err(io::Error::from(io::ErrorKind::OutOfMemory)),
            },
            None => Ok(root),
        }
    }

    /// Makes the directory in `.syn/kept` for what stands at the path, and writes a note of it.
    fn note(&self, alloc: Global) -> io::Result<()> {
        self.make_room(alloc)?;
        let note = Note {
            number: String::from_str(alloc, self.number.as_str())?,
            is_wanted: self.is_wanted,
            path: self.path.copy(alloc)?,
        };
        write_note(alloc, self.files, &self.own.new, &note)
    }

    /// Moves what stands at the path; false where nothing does.
    fn try_take(&self, alloc: Global) -> io::Result<bool> {
        let (Some(dir), Some(room)) = (self.directory()?, self.room()?) else {
            return Ok(false);
        };
        let (from, to) = (
            dir.place(alloc, self.name())?,
            room.place(alloc, self.name())?,
        );
        match self.files.rename(from.as_str(), to.as_str()) {
            Ok(()) => Ok(true),
            Err(error) if is_none_there(&error) => Ok(false),
            Err(error) => Err(error),
        }
    }

    /// Puts what is wanted where nothing is; false where something is.
    fn try_place(&self, alloc: Global) -> io::Result<bool> {
        let Some(dir) = self.directory()? else {
            return Ok(false);
        };
        let (from, to) = (
            self.own.new.place(alloc, ITEM)?,
            dir.place(alloc, self.name())?,
        );
        move_to_free(self.files, from.as_str(), to.as_str())
    }

    /// Puts what was moved back where nothing is; false where something is.
    fn try_put_back(&self, alloc: Global) -> io::Result<bool> {
        let (Some(dir), Some(room)) = (self.directory()?, self.room()?) else {
            return Ok(false);
        };
        let (from, to) = (
            room.place(alloc, self.name())?,
            dir.place(alloc, self.name())?,
        );
        let is_back = move_to_free(self.files, from.as_str(), to.as_str())?;
        if !is_back && !is_same_file(self.files, from.as_str(), to.as_str())? {
            return Ok(false);
        }
        match self.files.remove_file(from.as_str()) {
            Err(error) if !is_none_there(&error) => return Err(error),
            _ => {}
        }
        self.remove_room(alloc)?;
        Ok(true)
    }

    /// What is wanted was put at the path: it stands there, or it is gone from `.syn/new`.
    fn is_placed(&self, alloc: Global) -> io::Result<bool> {
        if !self.is_wanted {
            return Ok(false);
        }
        let Some(item) = self.look_in(alloc, &self.own.new, ITEM)? else {
            return Ok(true);
        };
        let Some(dir) = self.directory()? else {
            return Ok(false);
        };
        match self.look_in(alloc, &dir, self.name())? {
            Some(there) => Ok(there.is_of_same(&item)),
            None => Ok(false),
        }
    }

    /// What stood at the path lies in `.syn/kept`.
    fn lies_in_kept(&self, alloc: Global) -> io::Result<bool> {
        match self.room()? {
            Some(room) => Ok(self.look_in(alloc, &room, self.name())?.is_some()),
            None => Ok(false),
        }
    }

    /// Syncs the directory in which what stood at the path lies, or removes it where nothing does.
    fn end_room(&self, alloc: Global) -> io::Result<()> {
        if self.lies_in_kept(alloc)? {
            self.sync_room(alloc)
        } else {
            self.remove_room(alloc)
        }
    }

    /// Syncs the directories in which names came or went, and removes the note then.
    fn try_close(&self, alloc: Global) -> io::Result<()> {
        if let Some(dir) = self.directory()? {
            dir.sync(alloc, self.files)?;
        }
        if self.is_noted {
            self.end_room(alloc)?;
        }
        remove_note(alloc, self.files, &self.own.new)?;
        remove_item(alloc, self.files, &self.own.new)?;
        if self.is_noted {
            // Else a stop could bring the note back, and undo a removal that is recorded.
            self.own.new.sync(alloc, self.files)?;
        }
        Ok(())
    }

    /// What is told of what lies in `.syn/kept`.
    fn kept(&self, alloc: Global, is_apart: bool) -> io::Result<Option<Kept>> {
        if !self.is_kept || !self.lies_in_kept(alloc)? {
            return Ok(None);
        }
        let (number, path) = (&self.number, self.path);
        Ok(Some(Kept {
            path: path.copy(alloc)?,
            place: format!(in alloc; "{OWN}/kept/{number}/{path}")?,
            is_apart,
        }))
    }
}

impl<F: Files> PlaceCalls for SystemPlace<'_, F> {
    ghost stage = { λ place. place.stage };

    ghost is_wanted = { λ place. place.is_wanted };

    ghost tree = { λ place. place.was.tree.now };

    ghost path = { λ place. place.path.now };

    ghost seen = { λ place. place.seen.items };

    ghost moment = { λ place. pictured place.is_kept place.is_wanted place.is_noted };

    fn path(&self) -> &Path {
        self.path
    }

    fn stage(&self) -> Stage {
        self.stage
    }

    fn is_wanted(&self) -> bool {
        self.is_wanted
    }

    fn looks_as_read(&self, alloc: Global) -> io::Result<bool> {
        let Some(dir) = self.directory()? else {
            return Ok(false);
        };
        let there = self.look_in(alloc, &dir, self.name())?;
        match (self.was.tree.get(self.path), there) {
            (None, None) => Ok(true),
            (Some(Found::Dir), Some(_)) => {
                let seen = self.look_below(alloc, &dir)?;
                Ok(is_as_read(alloc, self.was, self.path, &seen, false)?)
            }
            (Some(Found::File(..)), Some(look)) => {
                Ok(look_read_at(self.was.looks, self.path) == Some(look))
            }
            _ => Ok(false),
        }
    }

    fn prepare(&mut self, alloc: Global) -> io::Result<()> {
        if let Some(node) = self.node {
            write_item(alloc, self.files, &self.own.new, node)?;
        }
        if let Stage::Standing = self.stage {
            self.number = make_numbered(alloc, self.files, &self.own)?;
            if let Err(error) = self.note(alloc) {
                // A look a second at a disk that is full would leave a directory each.
                let _ = self.remove_room(alloc);
                return Err(error);
            }
            self.stage = Stage::Noted;
            self.is_noted = true;
        }
        Ok(())
    }

    fn take(&mut self, alloc: Global) -> io::Result<bool> {
        let is_taken = self.try_take(alloc)?;
        if is_taken {
            self.stage = Stage::Moved;
            self.is_kept = true;
        }
        Ok(is_taken)
    }

    fn compare(&mut self, alloc: Global) -> io::Result<bool> {
        let seen = match self.room()? {
            Some(room) => self.look_whole(alloc, &room)?,
            None => Vec::new(alloc),
        };
        let is_same = is_as_read(alloc, self.was, self.path, &seen, true)?;
        self.seen = seen;
        self.stage = if is_same { Stage::Kept } else { Stage::Strange };
        Ok(is_same)
    }

    fn place(&mut self, alloc: Global) -> io::Result<bool> {
        let is_placed = self.try_place(alloc)?;
        if is_placed {
            self.stage = Stage::Placed;
        }
        Ok(is_placed)
    }

    fn put_back(&mut self, alloc: Global) -> io::Result<bool> {
        let is_back = self.try_put_back(alloc)?;
        if is_back {
            self.stage = Stage::Noted;
            self.is_kept = false;
        }
        Ok(is_back)
    }

    fn close(&mut self, alloc: Global) -> io::Result<()> {
        let told = self.kept(alloc, false)?;
        self.try_close(alloc)?;
        self.told = told;
        self.is_noted = false;
        self.stage = match self.stage {
            Stage::Noted => Stage::Standing,
            _ => Stage::Done,
        };
        Ok(())
    }

    fn leave(&mut self, alloc: Global) -> io::Result<()> {
        let told = self.kept(alloc, true)?;
        self.try_close(alloc)?;
        self.told = told;
        self.is_noted = false;
        self.stage = Stage::Left;
        Ok(())
    }
}

/// The directory that has these names below the open one, each opened in the one before it; none
/// where one is gone, or is none.
fn opened_below(top: OpenDir, names: &[Name]) -> io::Result<Option<OpenDir>> {
    let mut dir = top;
    for name in names {
        match dir.open_in(name.as_str()) {
            Ok(below) => dir = below,
            Err(error) if is_none_there(&error) => return Ok(None),
            Err(error) => return Err(error),
        }
    }
    Ok(Some(dir))
}

/// Removes the directory at the path of the folder whose directory is open, where nothing is in it.
///
/// Refused 13 where something is in it, or it is gone, 9 where the system refuses it otherwise, and
/// 11 where memory is refused.
pub(super) fn remove_empty<F: Files>(
    alloc: Global,
    files: &F,
    top: &OpenDir,
    path: &Path,
) -> Result<(), FolderError> {
    let (Some(dir), Some(name)) = (
        opened_below(top.open_in(".")?, above(path))?,
        path.names().last(),
    ) else {
        return Err(changed(alloc, path));
    };
    match files.remove_dir(dir.place(alloc, name.as_str())?.as_str()) {
        Ok(()) => Ok(dir.sync(alloc, files)?),
        Err(error) if is_taken(&error) => Err(changed(alloc, path)),
        Err(error) => Err(FolderError::System(error)),
    }
}

/// Gives what stands at one path of the system another, where nothing is; false where something is,
/// or the directory is gone. A file may keep the first name, too.
fn move_to_free<F: Files>(files: &F, from: &str, to: &str) -> io::Result<bool> {
    if !files.symlink_metadata(from)?.is_dir() {
        match files.hard_link(from, to) {
            Ok(()) => return Ok(true),
            Err(error) if is_taken(&error) => return Ok(false),
            // The file system may have no second names.
            Err(_) => {}
        }
    }
    if files.symlink_metadata(to).is_ok() {
        return Ok(false);
    }
    match files.rename(from, to) {
        Ok(()) => Ok(true),
        Err(error) if is_taken(&error) => Ok(false),
        Err(error) => Err(error),
    }
}

/// Both are the same file of the system.
fn is_same_file<F: Files>(files: &F, one: &str, other: &str) -> io::Result<bool> {
    let (one, other) = (files.symlink_metadata(one)?, files.symlink_metadata(other));
    match other {
        Ok(other) => Ok(Look::of(&one).is_of_same(&Look::of(&other))),
        Err(error) if is_none_there(&error) => Ok(false),
        Err(error) => Err(error),
    }
}

/// Something is there, or the directory is none any more.
fn is_taken(error: &io::Error) -> bool {
    is_none_there(error)
        || matches!(
            error.kind(),
            io::ErrorKind::AlreadyExists | io::ErrorKind::DirectoryNotEmpty
        )
}

/// Why the system refused to show something.
fn cause_of(error: FolderError) -> io::Error {
    match error {
        FolderError::System(error) => error,
        _ => io::Error::from(io::ErrorKind::OutOfMemory),
    }
}
