//! A path of a replica, lawful by its type, so that no layer above looks at its limits again.
ghost use Rattle.std.specs.Prelude.{◌≡◌, ◌↔◌, ◌++◌, ◌∷◌, [], ◌+◌, ◌==◌, ◌<◌, ◌≤◌, length, map};
ghost use Rattle.std.specs.Prelude.{IfOk, IfSome, IfNone, IfErr, IsTrue, All};
ghost use Rattle.std.specs.List.{slice_split};
ghost use Rattle.syn_model.specs.Path.{IsName, IsPath, comparable, is_prefix, parent};
ghost use Rattle.syn_model.specs.Path.{path_spelling};
ghost use Rattle.syn_path.specs.Paths.{IsPrefix, NamesPath};

use crate::error::PathError;
use crate::key::Key;
use crate::name::Name;
use std::alloc::{AllocError, Global};
use std::marker::Model;

/// The most names of a path.
pub const MOST_NAMES: usize = 16;

/// The most bytes that spell a path: a count, and each name with its length.
pub const LONGEST_PATH: usize = 255;

/// The most bytes of the text of a path, which has a slash between two names and no count.
const LONGEST_TEXT: usize = LONGEST_PATH - 2;

/// A path of a replica: at most 16 names, whose spelling (a count, and each name with its length)
/// has at most 255 bytes. Contracts see it as the list of its names.
#[derive(Debug, Drop)]
pub struct Path {
    names: Vec<Name>,
}

impl Model for Path {
    ghost use Rattle.std.specs.Prelude.{List, ℕ};
    ghost use Rattle.syn_model.specs.Path.{IsPath};

    ghost Value = { List (List ℕ) };

    ghost view = { λ p. p.names.items };

    ghost invariant = { λ p. IsPath p.names.items };
}

impl Path {
    /// The root.
    pub fn root(alloc: Global) -> Path
        ensures { result ≡ [] }
    {
        Path {
            names: Vec::new(alloc),
        }
    }

    /// The path that the text names: `.` is the root, and else the names stand between slashes.
    ///
    /// Refused 1 where the text names no path within the limits, and 11 where memory is refused.
    pub fn parse(alloc: Global, text: &str) -> Result<Path, PathError>
        ensures ok { IfOk result (λ path. NamesPath text.now path) }
        ensures bad { IfErr result (λ e. e ≡ PathError.BadPath → (path : _)
            → ¬ NamesPath text.now path) }
    {
        if text == "." {
            return Ok(Path::root(alloc));
        }
        if text.len() > LONGEST_TEXT {
            return Err(PathError::BadPath);
        }
        let pieces = pieces_of(alloc, text, '/')?;
        if pieces.len() > MOST_NAMES {
            return Err(PathError::BadPath);
        }
        let names = parse_names(alloc, pieces.as_slice())?;
        Ok(Path { names })
    }

    /// The path of these names, from the root on.
    ///
    /// Refused 1 where it would pass the limits.
    pub fn from_names(names: Vec<Name>) -> Result<Path, PathError>
        ensures ok { IfOk result (λ path. (path ≡ names.items) × IsPath path) }
        ensures bad { IfErr result (λ e. (e ≡ PathError.BadPath) × ¬ IsPath names.items) }
    {
        if names.len() > MOST_NAMES || spelled_len(names.as_slice()) > LONGEST_PATH {
            return Err(PathError::BadPath);
        }
        Ok(Path { names })
    }

    /// The names from the root on, none for the root.
    pub fn names(&self) -> &[Name]
        ensures names { result.now ≡ self.now }
        ensures lawful { IsPath self.now }
    {
        self.names.as_slice()
    }

    /// The key of the path. It takes no memory.
    pub fn key(&self) -> Key
        ensures { result ≡ self.now }
    {
        Key::of(self.names.as_slice())
    }

    /// The key of the path without its last name; of the root, that of the root. It takes no
    /// memory.
    pub fn parent_key(&self) -> Key
        ensures { result ≡ parent self.now }
    {
        match self.names.as_slice() {
            [above @ .., _] => Key::of(above),
            names => Key::of(names),
        }
    }

    /// How many bytes spell the path: a count, and each name with its length.
    pub fn spelling_length(&self) -> usize
        ensures { result ≡ length (path_spelling self.now) }
    {
        spelled_len(self.names.as_slice())
    }

    /// The path of the name below this one.
    ///
    /// Refused 1 where that path would pass the limits, and 11 where memory is refused.
    pub fn child(&self, alloc: Global, name: &Name) -> Result<Path, PathError>
        ensures ok { IfOk result (λ path. (path ≡ self.now ++ name.now ∷ []) × IsPath path) }
        ensures bad { IfErr result (λ e. e ≡ PathError.BadPath
            → ¬ IsPath (self.now ++ name.now ∷ [])) }

        // The limits are looked at before memory is asked for.
        ensures memory { IfErr result (λ e. e ≡ PathError.Memory
            → IsPath (self.now ++ name.now ∷ [])) }
    {
        if self.names.len() >= MOST_NAMES
            || spelled_len(self.names.as_slice()) + 1 + name.as_str().len() > LONGEST_PATH
        {
            return Err(PathError::BadPath);
        }
        let mut names = copy_names(alloc, self.names.as_slice(), 1)?;
        names.push(name.copy(alloc)?)?;
        Ok(Path { names })
    }

    /// The path without its last name; none for the root. Refused where memory is refused.
    pub fn parent(&self, alloc: Global) -> Result<Option<Path>, AllocError>
        ensures root { IfOk result (λ parent. IfNone parent (self.now ≡ [])) }
        ensures below { IfOk result (λ parent. IfSome parent
            (λ path. (name : _) × (path ++ name ∷ [] ≡ self.now))) }
    {
        match self.names.as_slice() {
            [] => Ok(None),
            [above @ .., _] => {
                let names = copy_names(alloc, above, 0)?;
                Ok(Some(Path { names }))
            }
        }
    }

    /// The other path begins with this one.
    pub fn is_prefix(&self, other: &Path) -> bool
        ensures value { result ≡ is_prefix self.now other.now }
        ensures means { IsTrue result ↔ IsPrefix self.now other.now }
    {
        other.names.as_slice().starts_with(self.names.as_slice())
    }

    /// One of the two begins with the other.
    pub fn comparable(&self, other: &Path) -> bool
        ensures { result ≡ comparable self.now other.now }
    {
        self.is_prefix(other) || other.is_prefix(self)
    }

    /// An equal path of its own. Refused where memory is refused.
    pub fn copy(&self, alloc: Global) -> Result<Path, AllocError>
        ensures { IfOk result (λ path. path ≡ self.now) }
    {
        let names = copy_names(alloc, self.names.as_slice(), 0)?;
        Ok(Path { names })
    }
}

/// The pieces of the text between the marks, which are one byte each.
pub(crate) fn pieces_of(alloc: Global, text: &str, mark: char) -> Result<Vec<&str>, AllocError>
    requires { mark < 128 }
    ensures { IfOk result (λ pieces. map (λ p. p.now) pieces.items
        ≡ slice_split (λ b. b == mark) text.now) }
{
    text.split(mark).collect(alloc)
}

/// The names that the pieces are.
pub(crate) fn parse_names(alloc: Global, pieces: &[&str]) -> Result<Vec<Name>, PathError>
    ensures ok { IfOk result (λ names. (names.items ≡ map (λ p. p.now) pieces.now)
        × All IsName names.items) }
    ensures bad { IfErr result (λ e. e ≡ PathError.BadPath
        → ¬ All IsName (map (λ p. p.now) pieces.now)) }
{
    let mut names = Vec::new(alloc);
    for piece in pieces {
        let name = Name::parse(alloc, piece)?;
        names.push(name)?;
    }
    Ok(names)
}

/// Equal names of their own, with room for more.
fn copy_names(alloc: Global, source: &[Name], more: usize) -> Result<Vec<Name>, AllocError>
    requires { length source.now + more < 100 }
    ensures { IfOk result (λ names. names.items ≡ source.now) }
{
    let mut names = Vec::with_capacity(alloc, source.len() + more)?;
    for name in source {
        names.push(name.copy(alloc)?)?;
    }
    Ok(names)
}

/// What the type of a path says: it is within the limits.
pub fn is_path(path: &Path)
    ensures { IsPath path.now }
{
    let _ = path.names();
}

/// How many bytes the names are spelled with, the count among them.
fn spelled_len(names: &[Name]) -> usize
    requires { length names.now ≤ 16 }
    ensures length { result ≡ length (path_spelling names.now) }
    ensures lawful { All IsName names.now }
{
    let mut len = 1;
    for name in names {
        len += 1 + name.as_str().len();
    }
    len
}
