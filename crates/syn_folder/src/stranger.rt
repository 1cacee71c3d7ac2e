//! What stands in a folder and can stand in no replica.

use std::alloc::{AllocError, Global};
use std::fmt;
use syn_path::Path;

/// Why something can stand in no replica.
#[derive(Clone, Copy, Debug, PartialEq, Eq)]
pub enum Strangeness {
    /// Its name is none of a replica: longer than 64 bytes, or no UTF-8.
    Name,
    /// Its path has more than 16 names, or is too long.
    Path,
    /// It is neither a file nor a directory, but a symbolic link, say.
    Kind,
    /// It is a file of more than 16,384 bytes.
    Size,
    /// It is a directory with more than 256 names. What is in it was not looked at.
    Names,
    /// It may not be read.
    Locked,
    /// It is the folder itself, and has more files and directories than a replica.
    Count,
    /// It is the folder itself, and takes more bytes in all than a replica has.
    Room,
    /// It is a directory on another file system than the folder, as one in which something is
    /// mounted.
    Elsewhere,
    /// It has a name `.syn` in its path, which a folder keeps for what belongs to `syn` itself.
    Own,
}

/// Something of a folder that can stand in no replica.
#[derive(Debug, Drop)]
pub struct Stranger {
    /// Its path in the folder, as text. What is no UTF-8 of it is replaced.
    pub text: String,
    /// The same as a path, where it is one. The folder itself is the root.
    pub path: Option<Path>,
    pub why: Strangeness,
}

impl Stranger {
    /// An equal one of its own. Refused where memory is refused.
    pub fn copy(&self, alloc: Global) -> Result<Stranger, AllocError> {
        let text = String::from_str(alloc, self.text.as_str())?;
        let path = match &self.path {
            Some(path) => Some(path.copy(alloc)?),
            None => None,
        };
        Ok(Stranger {
            text,
            path,
            why: self.why,
        })
    }
}

/// The path, with what cannot be printed spelled out, and why it is strange.
impl fmt::Display for Stranger {
    fn fmt<W: fmt::Write>(&self, f: &mut fmt::Formatter<W>) -> fmt::Result {
        let text = self.text.as_str();
        match self.why {
            Strangeness::Name => write!(f, "{text:?} is no name here"),
            Strangeness::Path => write!(f, "{text:?} lies too deep, or its path is too long"),
            Strangeness::Kind => write!(f, "{text:?} is neither a file nor a directory"),
            Strangeness::Size => write!(f, "{text:?} has more than 16384 bytes"),
            Strangeness::Names => write!(f, "{text:?} has more than 256 names"),
            Strangeness::Locked => write!(f, "{text:?} may not be read"),
            Strangeness::Count => write!(f, "{text:?} has more than 1023 files and directories"),
            Strangeness::Room => write!(f, "{text:?} takes more than 526336 bytes in all"),
            Strangeness::Elsewhere => write!(f, "{text:?} lies on another file system"),
            Strangeness::Own => write!(f, "{text:?} has a name that belongs to syn itself"),
        }
    }
}
