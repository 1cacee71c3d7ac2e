//! What the names in a directory of the system are for a replica.
ghost use Rattle.std.specs.Prelude.{◌≡◌, ◌↔◌, count_by, map, option_map, Some, None, IfOk};
ghost use Rattle.std.specs.Prelude.{string_bytes};
ghost use Rattle.std.specs.List.Sorted.{IsPermutation};
ghost use Rattle.syn_folder.specs.Looks.{AreShown, IsChildOf, IsFit, IsStrangeName, is_listed};
ghost use Rattle.syn_folder.specs.Looks.{pieces, text_below, told, Told};
ghost use Rattle.syn_model.specs.Path.{Path as ModelPath};

use crate::error::FolderError;
use crate::stranger::{Strangeness, Stranger};
use std::alloc::{AllocError, Global};
use syn_path::{Key, Name, Path, PathError};

/// The name of a file that is being written, which lies beside the one that it will be. Where many
/// are written at a time, each has a number after it. It is too long for a name of a replica, so it
/// is none of anybody's.
pub(super) const PART: &str =
    ".a-part-of-a-file-that-syn-export-was-writing-when-it-was-cut-off-remove-it";

/// The name of the directory in which a folder has what belongs to `syn` itself. At any depth, what
/// has this name is neither read nor written as a part of the folder.
pub(super) const OWN: &str = ".syn";

/// What has a name in a directory, for a replica.
#[derive(Drop)]
enum Fit {
    /// It has this path in the folder.
    Child(Path),
    /// Its name is none of a replica.
    NoName,
    /// Its path is none of a replica.
    NoPath,
}

/// The name is that of something in the directory, and neither of a part of an export nor of what
/// belongs to `syn` itself.
pub(super) fn is_listed(name: &[u8]) -> bool
    ensures { result ≡ is_listed name.now }
{
    !name.is_empty()
        && name != b".".as_slice()
        && name != b"..".as_slice()
        && name != OWN.as_bytes()
        && !name.starts_with(PART.as_bytes())
}

/// How many names are listed.
pub(super) fn count_listed(listing: &[u8]) -> usize
    ensures { result ≡ count_by is_listed (pieces listing.now) }
{
    let names = listing.split(|byte| *byte == 0);
    names.filter(|name| is_listed(name)).count()
}

/// What stands between the zero bytes.
fn pieces_of(alloc: Global, listing: &[u8]) -> Result<Vec<&[u8]>, AllocError>
    ensures { IfOk result (λ names. map (λ name. name.now) names.items ≡ pieces listing.now) }
{
    listing.split(|byte| *byte == 0).collect(alloc)
}

/// What stands between the zero bytes, in byte order.
fn names_in(alloc: Global, listing: &[u8]) -> Result<Vec<&[u8]>, AllocError>
    ensures { IfOk result (λ names. IsPermutation (pieces listing.now)
        (map (λ name. name.now) names.items)) }
{
    let mut names = pieces_of(alloc, listing)?;
    names.sort()?;
    Ok(names)
}

/// What has the name in the directory at the path, where the folder is for the path `at`.
fn fit_of(alloc: Global, at: &Key, path: &Path, name: &[u8]) -> Result<Fit, FolderError>
    ensures { IfOk result (λ fit. IsFit at.now path.now name.now fit) }
{
    let name = match Name::from_bytes(alloc, name) {
        Ok(name) => name,
        Err(PathError::BadPath) => return Ok(Fit::NoName),
        Err(error) => return Err(FolderError::from(error)),
    };
    match path.child(alloc, &name) {
        Ok(child) => {
            if child.key().under(at).is_some() {
                Ok(Fit::Child(child))
            } else {
                Ok(Fit::NoPath)
            }
        }
        Err(PathError::BadPath) => Ok(Fit::NoPath),
        Err(error) => Err(FolderError::from(error)),
    }
}

/// The path of what is listed by the name in the directory at the path; none where a replica can
/// not have it.
fn child_at(alloc: Global, at: &Key, path: &Path, name: &[u8]) -> Result<Option<Path>, FolderError>
    ensures { IfOk result (λ found. (child : ModelPath) → (found ≡ Some child)
        ↔ IsChildOf at.now path.now name.now child) }
{
    if !is_listed(name) {
        return Ok(None);
    }
    match fit_of(alloc, at, path, name)? {
        Fit::Child(child) => Ok(Some(child)),
        Fit::NoName | Fit::NoPath => Ok(None),
    }
}

/// The paths of what is listed in the directory at the path, in path order, as far as a replica can
/// have them.
pub(super) fn children_of(
    alloc: Global,
    at: &Key,
    path: &Path,
    listing: &[u8],
) -> Result<Vec<Path>, FolderError>
    ensures { IfOk result (λ children. AreShown (IsChildOf at.now path.now)
        (pieces listing.now) children.items) }
{
    let names = names_in(alloc, listing)?;
    let mut children = Vec::new(alloc);
    for name in &names {
        if let Some(child) = child_at(alloc, at, path, name)? {
            children.push(child)?;
        }
    }
    Ok(children)
}

/// What is listed by the name in the directory at the path, where its name or its path is none of a
/// replica. Of a crowded directory the names alone are told.
fn strange_name(
    alloc: Global,
    at: &Key,
    path: &Path,
    name: &[u8],
    is_crowded: bool,
) -> Result<Option<Stranger>, FolderError>
    ensures { IfOk result (λ found. (one : Told) → (option_map told found ≡ Some one)
        ↔ IsStrangeName at.now path.now is_crowded name.now one) }
{
    if !is_listed(name) {
        return Ok(None);
    }
    let why = match fit_of(alloc, at, path, name)? {
        Fit::NoName => Strangeness::Name,
        Fit::NoPath if !is_crowded => Strangeness::Path,
        _ => return Ok(None),
    };
    Ok(Some(stranger_below(alloc, path, name, why)?))
}

/// What is listed in the directory at the path and has a name or a path that is none of a replica.
/// Of a crowded directory the names alone are told.
pub(super) fn strange_names(
    alloc: Global,
    at: &Key,
    path: &Path,
    listing: &[u8],
    is_crowded: bool,
) -> Result<Vec<Stranger>, FolderError>
    ensures { IfOk result (λ strangers. AreShown (IsStrangeName at.now path.now is_crowded)
        (pieces listing.now) (map told strangers.items)) }
{
    let names = names_in(alloc, listing)?;
    let mut strangers = Vec::new(alloc);
    for name in &names {
        if let Some(stranger) = strange_name(alloc, at, path, name, is_crowded)? {
            strangers.push(stranger)?;
        }
    }
    Ok(strangers)
}

/// What has these bytes as its name in the directory at the path.
fn stranger_below(
    alloc: Global,
    path: &Path,
    name: &[u8],
    why: Strangeness,
) -> Result<Stranger, AllocError>
    ensures { IfOk result (λ stranger. told stranger ≡ (text_below path.now name.now, None, why)) }
{
    let text = text_of(alloc, path, name)?;
    Ok(Stranger {
        text,
        path: None,
        why,
    })
}

/// The path in the folder of what has these bytes as its name, as text.
fn text_of(alloc: Global, path: &Path, name: &[u8]) -> Result<String, AllocError>
    ensures { IfOk result (λ text. string_bytes text ≡ text_below path.now name.now) }
{
    let name = String::from_utf8_lossy(alloc, name)?;
    let name = name.as_str();
    if path.names().is_empty() {
        String::from_str(alloc, name)
    } else {
        format!(in alloc; "{path}/{name}")
    }
}
