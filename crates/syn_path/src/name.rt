//! A name in a directory, lawful by its type: what paths and listings are made of.
ghost use Rattle.std.specs.Prelude.{◌≡◌, ◌↔◌, IfOk, IfErr, IsTrue};
ghost use Rattle.syn_model.specs.Path.{IsName};

use crate::error::PathError;
use std::alloc::{AllocError, Global};
use std::marker::Model;
use std::str;

/// The most bytes of a name.
const LONGEST_NAME: usize = 64;

/// A name in a directory: 1 to 64 bytes of UTF-8 without `/` and the zero byte, and neither `.` nor
/// `..`. Contracts see it as its bytes.
#[derive(Debug, Drop)]
pub struct Name {
    text: String,
}

impl Model for Name {
    ghost use Rattle.std.specs.Prelude.{List, ℕ};
    ghost use Rattle.std.specs.String.{string_bytes};
    ghost use Rattle.syn_model.specs.Path.{IsName};

    ghost Value = { List ℕ };

    ghost view = { λ n. string_bytes n.text };

    ghost invariant = { λ n. IsName (string_bytes n.text) };
}

impl Name {
    /// The name that the text is.
    ///
    /// Refused 1 where the text is no lawful name, and 11 where memory is refused.
    pub fn parse(alloc: Global, text: &str) -> Result<Name, PathError>
        ensures ok { IfOk result (λ name. (name ≡ text.now) × IsName text.now) }
        ensures bad { IfErr result (λ e. e ≡ PathError.BadPath → ¬ IsName text.now) }
    {
        if !is_name(text) {
            return Err(PathError::BadPath);
        }
        let text = String::from_str(alloc, text)?;
        Ok(Name { text })
    }

    /// The name that the bytes are.
    ///
    /// Refused 1 where the bytes are no lawful name, and 11 where memory is refused.
    pub fn from_bytes(alloc: Global, bytes: &[u8]) -> Result<Name, PathError>
        ensures ok { IfOk result (λ name. (name ≡ bytes.now) × IsName bytes.now) }
        ensures bad { IfErr result (λ e. e ≡ PathError.BadPath → ¬ IsName bytes.now) }
    {
        match str::from_utf8(bytes) {
            Ok(text) => Name::parse(alloc, text),
            Err(_) => Err(PathError::BadPath),
        }
    }

    /// The text of the name.
    pub fn as_str(&self) -> &str
        ensures bytes { result.now ≡ self.now }
        ensures lawful { IsName self.now }
    {
        self.text.as_str()
    }

    /// An equal name of its own. Refused where memory is refused.
    pub fn copy(&self, alloc: Global) -> Result<Name, AllocError>
        ensures { IfOk result (λ name. name ≡ self.now) }
    {
        let text = String::from_str(alloc, self.text.as_str())?;
        Ok(Name { text })
    }
}

/// The text is a lawful name.
fn is_name(text: &str) -> bool
    ensures { IsTrue result ↔ IsName text.now }
{
    let bytes = text.as_bytes();
    !bytes.is_empty()
        && bytes.len() <= LONGEST_NAME
        && !bytes.contains(&b'/')
        && !bytes.contains(&0)
        && text != "."
        && text != ".."
}
