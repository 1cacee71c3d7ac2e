//! Replacements in a folder of the system, and what a note of one that was cut off comes to.

use crate::error::FolderError;
use crate::kept::Kept;
use crate::stranger::{Strangeness, Stranger};
use crate::system::as_read::WasRead;
use crate::system::calls::PlaceCalls;
use crate::system::listing::OWN;
use crate::system::note::read_note;
use crate::system::open_dir::OpenDir;
use crate::system::own::OwnDirs;
use crate::system::place::{SystemPlace, remove_empty};
use crate::system::replacing::{changed, replace, settle};
use std::alloc::Global;
use std::fs::Files;
use std::io;
use syn_path::{Name, Path};
use syn_tree::{Found, Node, Tree};

/// What came of a replacement.
#[derive(Drop)]
pub(super) struct Replaced {
    /// What was taken away, and lies in `.syn/kept`.
    pub(super) told: Vec<Kept>,
    /// No note of it stands.
    pub(super) is_settled: bool,
    pub(super) answer: Result<(), FolderError>,
}

impl Replaced {
    /// The system refused it before anything was done.
    pub(super) fn refused(alloc: Global, error: io::Error) -> Replaced {
        Replaced {
            told: Vec::new(alloc),
            is_settled: true,
            answer: Err(FolderError::System(error)),
        }
    }
}

/// Puts the node, or nothing, in the place of what was read at and below the path of the folder
/// whose directory is open. Where the file system moves no directory, each file of one is moved by
/// itself.
pub(super) fn replace_in<F: Files>(
    alloc: Global,
    files: &F,
    top: &OpenDir,
    was: WasRead<'_>,
    path: &Path,
    node: Option<&Node>,
) -> Replaced {
    let whole = replace_whole(alloc, files, top, was, path, node);
    match (&whole.answer, was.tree.get(path)) {
        (Err(FolderError::System(error)), Some(Found::Dir))
            if error.kind() == io::ErrorKind::CrossesDevices && whole.is_settled => {}
        _ => return whole,
    }
    let mut replaced = Replaced {
        told: Vec::new(alloc),
        is_settled: true,
        answer: Ok(()),
    };
    let answer = replaced.replace_each(alloc, files, top, was, path, node);
    if answer.is_err() {
        replaced.answer = answer;
    }
    replaced
}

/// The same by one rename.
fn replace_whole<F: Files>(
    alloc: Global,
    files: &F,
    top: &OpenDir,
    was: WasRead<'_>,
    path: &Path,
    node: Option<&Node>,
) -> Replaced {
    let mut told = Vec::new(alloc);
    if let Err(error) = told.reserve(1) {
        return Replaced::refused(alloc, io::Error::from(error));
    }
    let mut place = match SystemPlace::new(alloc, files, top, was, path, node) {
        Ok(place) => place,
        Err(error) => return Replaced::refused(alloc, error),
    };
    let answer = replace(alloc, &mut place);
    let is_settled = !place.stage().is_under_way();
    if let Some(kept) = place.told() {
        told.push_reserved(kept);
    }
    Replaced {
        told,
        is_settled,
        answer,
    }
}

impl Replaced {
    /// Moves each file below the path away by itself, the last in path order first, and removes
    /// each directory that is empty then. What is wanted comes where nothing is.
    fn replace_each<F: Files>(
        &mut self,
        alloc: Global,
        files: &F,
        top: &OpenDir,
        was: WasRead<'_>,
        path: &Path,
        node: Option<&Node>,
    ) -> Result<(), FolderError> {
        for pair in was.tree.below(path).rev() {
            let below = pair.path(alloc)?;
            match pair.found() {
                Found::Dir => remove_empty(alloc, files, top, &below)?,
                Found::File(..) => {
                    self.add(replace_whole(alloc, files, top, was, &below, None))?;
                }
            }
        }
        remove_empty(alloc, files, top, path)?;
        let nothing = Tree::new(alloc)?;
        let vacant = WasRead {
            tree: &nothing,
            looks: &[],
        };
        self.add(replace_whole(alloc, files, top, vacant, path, node))
    }

    /// Takes up what came of a part.
    fn add(&mut self, part: Replaced) -> Result<(), FolderError> {
        let Replaced {
            mut told,
            is_settled,
            answer,
        } = part;
        self.is_settled = is_settled;
        self.told.append(&mut told)?;
        answer
    }
}

/// Ends what a note in the folder whose directory is open tells of, and answers what lies in
/// `.syn/kept` since.
///
/// Refused 9 where the system refuses it, or the note is none, and 11 where memory is refused.
pub(super) fn settle_notes<F: Files>(
    alloc: Global,
    files: &F,
    top: &OpenDir,
) -> Result<Vec<Kept>, FolderError> {
    let mut kept = Vec::new(alloc);
    let Some(own) = OwnDirs::open(top)? else {
        return Ok(kept);
    };
    let Some(note) = read_note(alloc, files, &own.new)? else {
        return Ok(kept);
    };
    let tree = Tree::new(alloc)?;
    let was = WasRead {
        tree: &tree,
        looks: &[],
    };
    let mut place = SystemPlace::noted(alloc, files, top, own, was, &note)?;
    settle(alloc, &mut place)?;
    if let Some(told) = place.told() {
        kept.push(told)?;
    }
    Ok(kept)
}

/// Refuses 13 where a note in the folder of this name tells of a replacement that was cut off: what
/// it has moved away would count as removed.
///
/// Refused 9 where the system refuses it, or the note is none, and 11 where memory is refused.
pub(super) fn check_notes<F: Files>(
    alloc: Global,
    files: &F,
    root: &str,
) -> Result<(), FolderError> {
    let top = OpenDir::open(alloc, root)?;
    let own = match OwnDirs::open(&top) {
        Ok(Some(own)) => own,
        Ok(None) => return Ok(()),
        // Somebody else's, who keeps the folder the same as a replica.
        Err(error) if error.kind() == io::ErrorKind::PermissionDenied => return Ok(()),
        Err(error) => return Err(FolderError::System(error)),
    };
    match read_note(alloc, files, &own.new)? {
        Some(note) => Err(changed(alloc, &note.path)),
        None => Ok(()),
    }
}

/// Refuses 7 where a name of the path, or of what is to stand there, is that of what belongs to
/// `syn` itself, and 11 where memory is refused.
pub(super) fn check_names(
    alloc: Global,
    path: &Path,
    node: Option<&Node>,
) -> Result<(), FolderError> {
    if !has_own(path.names()) && !is_own_below(alloc, node)? {
        return Ok(());
    }
    let mut strange = Vec::new(alloc);
    strange.push(Stranger {
        text: format!(in alloc; "{path}")?,
        path: Some(path.copy(alloc)?),
        why: Strangeness::Own,
    })?;
    Err(FolderError::Strange(strange))
}

/// One of the names is that of what belongs to `syn` itself.
pub(super) fn has_own(names: &[Name]) -> bool {
    names.iter().any(|name| name.as_str() == OWN)
}

/// The same of a name below the node.
fn is_own_below(alloc: Global, node: Option<&Node>) -> Result<bool, FolderError> {
    let Some(Node::Dir(entries)) = node else {
        return Ok(false);
    };
    for pair in entries.iter() {
        if has_own(pair.path(alloc)?.names()) {
            return Ok(true);
        }
    }
    Ok(false)
}
