//! What was taken away from a folder, and where it lies.

use std::alloc::{AllocError, Global};
use std::fmt;
use syn_path::Path;

/// What was taken away from a folder, and where it lies.
#[derive(Debug, Drop)]
pub struct Kept {
    /// The path at which it stood.
    pub path: Path,
    /// Where it lies: the path of the folder, as text.
    pub place: String,
    /// Something else stood at the path by the time that it was to be put back there, and stays.
    pub is_apart: bool,
}

impl Kept {
    /// An equal one of its own. Refused where memory is refused.
    pub fn copy(&self, alloc: Global) -> Result<Kept, AllocError> {
        Ok(Kept {
            path: self.path.copy(alloc)?,
            place: String::from_str(alloc, self.place.as_str())?,
            is_apart: self.is_apart,
        })
    }
}

/// The path, and where what stood there lies.
impl fmt::Display for Kept {
    fn fmt<W: fmt::Write>(&self, f: &mut fmt::Formatter<W>) -> fmt::Result {
        let (path, place) = (&self.path, self.place.as_str());
        if self.is_apart {
            write!(f, "{path} as {place}, beside what stands there by now")
        } else {
            write!(f, "{path} as {place}")
        }
    }
}
