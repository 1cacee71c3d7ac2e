//! Names and paths.
ghost use Rattle.std.specs.Prelude.{◌≡◌, ◌≤◌, ◌++◌, length, IfOk, OnOk};
ghost use Rattle.syn_model.specs.Path.{IsName, IsPath, path_spelling};
ghost use Rattle.syn_wire.specs.Reads.{IsBeginning, Reads};
ghost use Rattle.syn_wire.specs.Names.{AreNames, name_spelling, names_spelling};

use crate::error::{ReadError, WireError};
use crate::reader::Reader;
use std::alloc::Global;
use syn_path::{Name, Path};

impl<'a> Reader<'a> {
    /// A path.
    pub fn path(&mut self, alloc: Global) -> Result<Path, ReadError>
        ensures { Reads IsPath path_spelling (λ path. path) self.old self.new result }
    {
        let count = self.byte()?;
        let names = self.names(alloc, count)?;
        Ok(Path::from_names(names)?)
    }

    // So many names.
    fn names(&mut self, alloc: Global, count: u8) -> Result<Vec<Name>, ReadError>
        ensures { Reads (AreNames count) names_spelling (λ names. names.items) self.old self.new
            result }
    {
        let mut names = Vec::new(alloc);
        for _read in 0..count {
            names.push(self.name(alloc)?)?;
        }
        Ok(names)
    }

    /// A name after its length.
    pub fn name(&mut self, alloc: Global) -> Result<Name, ReadError>
        ensures { Reads IsName name_spelling (λ name. name) self.old self.new result }
    {
        let length = self.byte()?;
        let bytes = self.bytes(usize::from(length))?;
        Ok(Name::from_bytes(alloc, bytes)?)
    }
}

/// The spelling of the path: the count of its names, and each name with its length.
///
/// Refused 11 where memory is refused.
pub fn encode_path(alloc: Global, path: &Path) -> Result<Vec<u8>, WireError>
    ensures { IfOk result (λ bytes. bytes.items ≡ path_spelling path.now) }
{
    let mut out = Vec::new(alloc);
    write_path(&mut out, path)?;
    Ok(out)
}

/// Adds the spelling of the path. Refused 11 where memory is refused; a beginning of it may then
/// have been added.
pub fn write_path(out: &mut Vec<u8>, path: &Path) -> Result<(), WireError>
    ensures added { OnOk result (out.new.items ≡ out.old.items ++ path_spelling path.now) }
    ensures kept { IsBeginning out.old.items out.new.items }
    ensures lawful { IsPath path.now }
{
    let names = path.names();
    out.push(names.len() as u8)?;
    for name in names {
        let text = name.as_str();
        out.push(text.len() as u8)?;
        out.extend_from_slice(text.as_bytes())?;
    }
    Ok(())
}

/// How many bytes spell the path. It takes no memory.
pub fn path_length(path: &Path) -> usize
    ensures length { result ≡ length (path_spelling path.now) }
    ensures brief { result ≤ 255 }
{
    let mut length = 1;
    for name in path.names() {
        length += 1 + name.as_str().len();
    }
    length
}
