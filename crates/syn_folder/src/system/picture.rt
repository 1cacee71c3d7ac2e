//! What the looks at a folder make of it: a tree, and what can stand in no replica.
ghost use Rattle.std.specs.FinMap.{entries};
ghost use Rattle.std.specs.Prelude.{◌≡◌, ◌↔◌, ◌⊎◌, ◌++◌, ◌∷◌, [], map, filter_map, option_map};
ghost use Rattle.std.specs.Prelude.{Contains};
ghost use Rattle.std.specs.Prelude.{IfNone, IfOk, IfSome};
ghost use Rattle.syn_folder.specs.Looks.{AreShown, FitsNoReplica, IsPicture, ShowsStranger, Told};
ghost use Rattle.syn_folder.specs.Looks.{content_in, look_in, look_of, node_of, placed, told};
ghost use Rattle.syn_folder.specs.Looks.{told_at};
ghost use Rattle.syn_tree.specs.Contents.{content_of};
ghost use Rattle.syn_model.specs.Tree.{empty_directory};
ghost use Rattle.syn_model.specs.Path.{root};
ghost use Rattle.syn_placed.specs.Pairs.{rooted};

use crate::error::FolderError;
use crate::stranger::{Strangeness, Stranger};
use crate::system::listing::strange_names;
use crate::system::looks::{Look, Looked, Seen, Shown};
use crate::system::walking::Walk;
use std::alloc::{AllocError, Global};
use syn_path::{Key, Path};
use syn_tree::{Content, Entries, Entry, Tree, TreeError};

/// What stands in a folder.
#[derive(Drop)]
pub(super) struct FolderRead {
    pub(super) tree: Tree,
    pub(super) strangers: Vec<Stranger>,
    /// How each file and directory of the tree looked, in path order.
    pub(super) looks: Vec<Looked>,
}

/// What the walk saw. Where there is more than a replica may have, the folder itself is among the
/// strangers, and the tree is empty.
///
/// Refused 11 where memory is refused.
pub(super) fn picture(alloc: Global, walk: Walk) -> Result<FolderRead, FolderError>
    ensures picture { IfOk result (λ read. IsPicture walk.at walk.looks.items walk.pending.items
        read.tree read.strangers.items) }
    ensures looks { IfOk result (λ read. (read.looks.items ≡ [])
        ⊎ (map placed read.looks.items ≡ filter_map look_of walk.looks.items)) }
{
    let strangers = strangers_of(alloc, &walk.at, &walk.looks)?;
    if walk.is_over() {
        return over(alloc, strangers, Strangeness::Count);
    }
    let (entries, looks) = nodes_of(alloc, walk.looks)?;
    match tree_of(alloc, entries)? {
        Some(tree) => Ok(FolderRead {
            tree,
            strangers,
            looks,
        }),
        None => over(alloc, strangers, Strangeness::Room),
    }
}

/// A folder that has more than a replica may: an empty tree, and the folder itself beside the
/// strangers.
fn over(
    alloc: Global,
    mut strangers: Vec<Stranger>,
    why: Strangeness,
) -> Result<FolderRead, FolderError>
    ensures empty { IfOk result (λ read. read.tree ≡ empty_directory) }
    ensures told { IfOk result (λ read. map told read.strangers.items
        ≡ map told strangers.items ++ told_at root why ∷ []) }
    ensures looks { IfOk result (λ read. read.looks.items ≡ []) }
{
    strangers.push(stranger_at(alloc, &Path::root(alloc), why)?)?;
    Ok(FolderRead {
        tree: Tree::new(alloc)?,
        strangers,
        looks: Vec::new(alloc),
    })
}

/// The tree with these entries below its root; none where it would pass a limit.
///
/// Refused 11 where memory is refused.
fn tree_of(alloc: Global, found: Vec<Entry>) -> Result<Option<Tree>, TreeError>
    ensures some { IfOk result (λ there. IfSome there (λ tree. entries tree ≡ rooted found.items)) }
    ensures none { IfOk result (λ there. IfNone there (FitsNoReplica found.items)) }
{
    let Some(entries) = Entries::from_vec(found) else {
        return Ok(None);
    };
    match Tree::from_entries(alloc, entries) {
        Ok(tree) => Ok(Some(tree)),
        Err(TreeError::Full) => Ok(None),
        Err(error) => Err(error),
    }
}

/// The files and directories that the looks show below the root, and how each looked.
fn nodes_of(alloc: Global, looks: Vec<Seen>) -> Result<(Vec<Entry>, Vec<Looked>), AllocError>
    ensures entries { IfOk result (λ found. found.0.items ≡ filter_map node_of looks.items) }
    ensures looks { IfOk result (λ found. map placed found.1.items
        ≡ filter_map look_of looks.items) }
{
    let mut entries = Vec::new(alloc);
    let mut looked = Vec::new(alloc);
    for seen in looks {
        if let Some((entry, look)) = node_of(alloc, seen)? {
            entries.push(entry)?;
            looked.push(look)?;
        }
    }
    Ok((entries, looked))
}

/// The file or the directory that is seen below the root, and how it looked; else none.
fn node_of(alloc: Global, seen: Seen) -> Result<Option<(Entry, Looked)>, AllocError>
    ensures entry { IfOk result (λ node. option_map (λ n. n.0) node ≡ node_of seen) }
    ensures look { IfOk result (λ node. option_map (λ n. placed n.1) node ≡ look_of seen) }
{
    let Seen { path, shown } = seen;
    if path.names().is_empty() {
        return Ok(None);
    }
    let Some((look, content)) = node_in(shown) else {
        return Ok(None);
    };
    let entry = Entry::new(alloc, &path.key(), content)?;
    Ok(Some((entry, Looked { path, look })))
}

/// The file or the directory that is shown, and how it looked; else none.
fn node_in(shown: Shown) -> Option<(Look, Content)>
    ensures look { option_map (λ n. n.0) result ≡ look_in shown }
    ensures content { option_map (λ n. content_of n.1) result ≡ content_in shown }
{
    match shown {
        Shown::Directory(look, _) => Some((look, Content::Dir)),
        Shown::File(look, bytes) => Some((look, Content::File(look.file_mode(), bytes))),
        _ => None,
    }
}

/// What the looks show that can stand in no replica.
fn strangers_of(alloc: Global, at: &Key, looks: &[Seen]) -> Result<Vec<Stranger>, FolderError>
    ensures { IfOk result (λ strangers.
        AreShown (ShowsStranger at.now) looks.now (map told strangers.items)) }
{
    let mut strangers = Vec::new(alloc);
    for seen in looks {
        let mut more = strangers_at(alloc, at, seen)?;
        strangers.append(&mut more)?;
    }
    Ok(strangers)
}

/// What the look shows that can stand in no replica.
fn strangers_at(alloc: Global, at: &Key, seen: &Seen) -> Result<Vec<Stranger>, FolderError>
    ensures { IfOk result (λ strangers. (one : Told) → Contains (map told strangers.items) one
        ↔ ShowsStranger at.now seen.now one) }
{
    match &seen.shown {
        Shown::Directory(_, listing) => strange_names(alloc, at, &seen.path, listing, false),
        Shown::Crowded(listing) => {
            let mut told = strange_names(alloc, at, &seen.path, listing, true)?;
            told.push(stranger_at(alloc, &seen.path, Strangeness::Names)?)?;
            Ok(told)
        }
        Shown::Strange(why) => {
            let mut told = Vec::new(alloc);
            told.push(stranger_at(alloc, &seen.path, *why)?)?;
            Ok(told)
        }
        Shown::File(..) | Shown::Unread | Shown::Changed => Ok(Vec::new(alloc)),
    }
}

/// What stands at the path, as a stranger.
fn stranger_at(alloc: Global, path: &Path, why: Strangeness) -> Result<Stranger, AllocError>
    ensures { IfOk result (λ stranger. told stranger ≡ told_at path.now why) }
{
    let text = format!(in alloc; "{path}")?;
    Ok(Stranger {
        text,
        path: Some(path.copy(alloc)?),
        why,
    })
}
