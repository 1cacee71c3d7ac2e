//! A path as bytes of one size, which take no memory and go in the order of paths.
ghost use Rattle.std.specs.Prelude.{◌≡◌, ◌++◌, ◌-◌, ◌&&◌, not, length, bytes_eq, Some, IfSome};
ghost use Rattle.std.specs.Prelude.{option_map, slice_get, IfOk, IfNone, ◌+◌, ◌≤◌, IsTrue};
ghost use Rattle.std.specs.Prelude.{replicate, [], ◌↔◌};
ghost use Rattle.std.proofs.Common.{rules};
ghost use Rattle.std.specs.Cmp.{partial_equiv_from_equiv};
ghost use Rattle.std.specs.Cmp.Lexicographic.{pointwise, slice_cmp, nat_list_eq_equiv};
ghost use Rattle.std.specs.Cmp.Lexicographic.{nat_list_cmp_total, texts_ties, lists_equiv};
ghost use Rattle.std.specs.Cmp.Lexicographic.{lists_total, lists_ties};
ghost use Rattle.std.specs.Ordering.{nat_cmp, eq_by_cmp};
ghost use Rattle.syn_model.specs.Path.{IsName, IsPath, is_prefix, is_root, parent, Bytes, path_cmp};
ghost use Rattle.syn_model.specs.Path.{path_key, strip_prefix};
ghost use Rattle.syn_path.specs.Paths.{paths_po};
ghost use Rattle.syn_path.specs.Keys.{filled, names_of, IsSpelling};

use crate::error::PathError;
use crate::name::Name;
use crate::path::{LONGEST_PATH, MOST_NAMES, Path, parse_names, pieces_of};
use std::alloc::{AllocError, Global};
use std::cmp::Ordering;
use std::marker::Model;
use std::str;

/// The bytes of a key: as many as spell the longest path.
const KEY_LENGTH: usize = LONGEST_PATH;

/// The most bytes of a key that are of names, with the zero byte after each. A spelling has its
/// count beside as many.
const LONGEST_NAMES: usize = LONGEST_PATH - 1;

/// The key of a path: its names, each followed by one zero byte, filled with zeros to 255 bytes. It
/// takes no memory, and the order of keys, byte by byte, is that of paths. Contracts see it as the
/// path.
#[derive(Clone, Copy, Debug)]
pub struct Key {
    bytes: [u8; KEY_LENGTH],
    /// How many of the bytes are of the names, with the zero byte after each.
    len: usize,
    /// Where the last name begins; 0 for the root.
    start: usize,
}

impl Model for Key {
    ghost use Rattle.std.specs.Prelude.{List, ℕ, length};
    ghost use Rattle.std.proofs.Common.{sym};
    ghost use Rattle.syn_model.specs.Path.{path_key, parent};
    ghost use Rattle.syn_path.specs.Keys.{names_of, filled, IsKey};

    ghost Value = { List (List ℕ) };

    ghost view = { λ k. names_of k.bytes };

    ghost invariant = { λ k. IsKey k.bytes k.len k.start };

    ghost inverse = { λ path. record {
      bytes = filled path;
      len = length (path_key path);
      start = length (path_key (parent path));
    } };

    ghost inverse_ok = { λ k h i. record {
      bytes = sym h.spelled i;
      len = sym h.counted i;
      start = sym h.begun i;
    } };
}

impl Key {
    /// The key of the root.
    pub fn root() -> Key
        ensures { result ≡ [] }
    {
        of_bytes(&[], &[], 0)
    }

    /// The key of the path of these names.
    pub fn of(names: &[Name]) -> Key
        requires { IsPath names.now }
        ensures { result ≡ names.now }
    {
        let (bytes, len, start) = spelling_of(names);
        Key { bytes, len, start }
    }

    /// It is the key of the root.
    pub fn is_root(&self) -> bool
        ensures root { result ≡ is_root self.now }
        ensures lawful { IsPath self.now }
    {
        self.spelled().is_empty()
    }

    /// The path of the other key begins with that of this one.
    pub fn is_prefix(&self, other: &Key) -> bool
        ensures { result ≡ is_prefix self.now other.now }
    {
        other.spelled().starts_with(self.spelled())
    }

    /// The path is one name longer than that of the other key, which it begins with.
    pub fn is_child(&self, above: &Key) -> bool
        ensures { result ≡ (not (is_root self.now)
            && eq_by_cmp path_cmp (parent self.now) above.now) }
    {
        self.len > 0 && self.above().cmp(&above.spelled()) == Ordering::Equal
    }

    /// The bytes of the last name; none for the root.
    pub fn last_name(&self) -> Option<&[u8]>
        ensures name { option_map (λ name. name.now) result
            ≡ slice_get self.now (length self.now - 1) }
        ensures lawful { IfSome result (λ name. IsName name.now) }
    {
        let (_, last) = self.spelled().split_at(self.start);
        match last {
            [] => None,
            [name @ .., _] => Some(name),
        }
    }

    /// The path. Refused where memory is refused.
    pub fn to_path(&self, alloc: Global) -> Result<Path, AllocError>
        ensures { IfOk result (λ path. path ≡ self.now) }
    {
        let Ok(text) = str::from_utf8(self.spelled()) else {
            unreachable!()
        };
        let mut pieces = pieces_of(alloc, text, '\0')?;
        let _ = pieces.pop();
        let names = match parse_names(alloc, pieces.as_slice()) {
            Ok(names) => names,
            Err(PathError::Memory) => return Err(AllocError),
            Err(PathError::BadPath) => unreachable!(),
        };
        let Ok(path) = Path::from_names(names) else {
            unreachable!()
        };
        Ok(path)
    }

    /// The key of the path without its last name; of the root, that of the root.
    pub fn parent(&self) -> Key
        ensures { result ≡ parent self.now }
    {
        of_bytes(self.above(), &[], self.above_start())
    }

    /// The key of the path with the other before it; none where that would pass the limits of a
    /// path.
    pub fn under(&self, above: &Key) -> Option<Key>
        ensures some { IfSome result (λ key. (key ≡ above.now ++ self.now) × IsPath key) }
        ensures none { IfNone result (¬ IsPath (above.now ++ self.now)) }
    {
        if !self.fits_under(above) {
            return None;
        }
        let start = self.start_under(above);
        Some(of_bytes(above.spelled(), self.spelled(), start))
    }

    /// The key of the path without the other before it; none where it does not begin with that.
    pub fn below(&self, above: &Key) -> Option<Key>
        ensures { result ≡ strip_prefix above.now self.now }
    {
        if !above.is_prefix(self) {
            return None;
        }
        let (_, rest) = self.spelled().split_at(above.len);
        Some(of_bytes(rest, &[], self.start.saturating_sub(above.len)))
    }

    /// The path with the other before it keeps the limits of a path.
    fn fits_under(&self, above: &Key) -> bool
        ensures { IsTrue result ↔ IsPath (above.now ++ self.now) }
    {
        let short = above.spelled().len() + self.spelled().len() <= LONGEST_NAMES;
        short && above.depth() + self.depth() <= MOST_NAMES
    }

    /// Where the last name of the path with the other before it begins.
    fn start_under(&self, above: &Key) -> usize
        ensures { result ≡ length (path_key (parent (above.now ++ self.now))) }
    {
        if self.is_root() {
            above.above().len()
        } else {
            above.spelled().len() + self.above().len()
        }
    }

    /// How many names the path has.
    fn depth(&self) -> usize
        ensures names { result ≡ length self.now }
        ensures few { result ≤ 16 }
    {
        self.spelled().iter().filter(|byte| **byte == 0).count()
    }

    /// Where the last name of the path above begins.
    fn above_start(&self) -> usize
        ensures { result ≡ length (path_key (parent (parent self.now))) }
    {
        let [names @ .., _] = self.above() else {
            return 0;
        };
        match names.split(|byte| *byte == 0).last() {
            Some(last) => names.len() - last.len(),
            None => 0,
        }
    }

    /// The bytes of the names but for the last, with the zero byte after each.
    fn above(&self) -> &[u8]
        ensures bytes { result.now ≡ path_key (parent self.now) }
        ensures lawful { IsPath (parent self.now) }
    {
        &self.bytes[..self.start]
    }

    /// The bytes of the names, with the zero byte after each.
    fn spelled(&self) -> &[u8]
        ensures bytes { result.now ≡ path_key self.now }
        ensures lawful { IsPath self.now }
    {
        &self.bytes[..self.len]
    }
}

/// The names, each followed by a zero byte, filled with zeros; how many bytes they have without
/// these; and where the last name begins.
fn spelling_of(names: &[Name]) -> ([u8; KEY_LENGTH], usize, usize)
    requires { IsPath names.now }
    ensures bytes { result.0 ≡ filled names.now }
    ensures len { result.1 ≡ length (path_key names.now) }
    ensures start { result.2 ≡ length (path_key (parent names.now)) }
{
    let mut bytes = [0; KEY_LENGTH];
    let mut len = 0;
    let mut start = 0;
    for name in names {
        let text = name.as_str().as_bytes();
        let end = len + text.len();
        bytes[len..end].copy_from_slice(text);
        start = len;
        len = end + 1;
    }
    (bytes, len, start)
}

/// The key whose names have the bytes of the two, one after the other, and whose last name begins
/// there.
fn of_bytes(front: &[u8], back: &[u8], start: usize) -> Key
    requires { IsSpelling (front.now ++ back.now) start }
    ensures { result ≡ names_of (front.now ++ back.now) }
{
    let mut bytes = [0; KEY_LENGTH];
    put_at(&mut bytes, 0, front);
    put_at(&mut bytes, front.len(), back);
    Key {
        bytes,
        len: front.len() + back.len(),
        start,
    }
}

/// Puts more bytes after so many, where zeros are.
fn put_at(bytes: &mut [u8; KEY_LENGTH], at: usize, more: &[u8])
    requires { at + length more.now ≤ 255 }
    ensures { (front : Bytes) → at ≡ length front
        → bytes.old ≡ front ++ replicate (255 - at) 0
        → bytes.new ≡ (front ++ more.now) ++ replicate (255 - (at + length more.now)) 0 }
{
    let end = at + more.len();
    bytes[at..end].copy_from_slice(more);
}

impl PartialEq for Key {
    ghost eq = { pointwise bytes_eq };

    ghost laws = { partial_equiv_from_equiv (lists_equiv nat_list_eq_equiv) };

    fn eq(&self, other: &Key) -> bool {
        self.cmp(other).is_eq()
    }
}

impl Eq for Key {
    ghost laws = { lists_equiv nat_list_eq_equiv };
}

impl PartialOrd for Key {
    ghost partial_cmp = { λ x y. Some (path_cmp x y) };

    ghost laws = { paths_po };

    fn partial_cmp(&self, other: &Key) -> Option<Ordering> {
        Some(self.cmp(other))
    }
}

impl Ord for Key {
    ghost cmp = { path_cmp };

    ghost total = { lists_total nat_list_cmp_total };

    ghost matches_partial_cmp = { Prim.search rules };

    ghost matches_eq = { lists_ties (slice_cmp nat_cmp) texts_ties };

    fn cmp(&self, other: &Key) -> Ordering {
        self.spelled().cmp(&other.spelled())
    }
}
