//! What is read of the parts of a directory, of trees and of marks alike.
ghost use Rattle.std.specs.Prelude.{◌∷◌, OnOk};
ghost use Rattle.syn_wire.specs.Reads.{Reads};
ghost use Rattle.syn_wire.specs.Trees.{last_name_spelling};
ghost use Rattle.syn_wire.specs.Versions.{version_of};
ghost use Rattle.syn_wire.specs.inner.Parts.{IsChildOf, LeavesFor, ReadsPart, ReadsParts};
ghost use Rattle.syn_wire.specs.inner.Parts.{PartIsRead, PartsAreRead};

use crate::error::ReadError;
use crate::readable::Readable;
use crate::reader::Reader;
use crate::tree::{DIRECTORY, FILE};
use crate::version::Version;
use std::alloc::Global;
use syn_path::Path;
use syn_placed::Placed;

// Adds so many names of a directory, each with what stands there and all below it.
#[cycle(parts)]
pub(crate) fn read_parts<C: Readable>(
    reader: &mut Reader<'_>,
    alloc: Global,
    version: Version,
    list: &mut Vec<Placed<C>>,
    above: &Path,
    count: u16,
) -> Result<(), ReadError>
    ensures reads { LeavesFor result reader.new (λ left. ReadsParts (C.kind (version_of version))
        above.now count reader.old list.old.items list.new.items left) }
    ensures spelled { OnOk result (PartsAreRead (C.kind (version_of version))
        above.now count reader.old list.old.items list.new.items reader.new) }
{
    for _read in 0..count {
        let path = read_child(reader, alloc, above)?;
        read_part(reader, alloc, version, list, path)?;
    }
    Ok(())
}

// Adds what stands at the path with all below it. Each call goes one name deeper, and a path has at
// most 16.
#[cycle(parts)]
pub(crate) fn read_part<C: Readable>(
    reader: &mut Reader<'_>,
    alloc: Global,
    version: Version,
    list: &mut Vec<Placed<C>>,
    path: Path,
) -> Result<(), ReadError>
    ensures reads { LeavesFor result reader.new (λ left. ReadsPart (C.kind (version_of version))
        path reader.old list.old.items list.new.items left) }
    ensures spelled { OnOk result (PartIsRead (C.kind (version_of version)) path
        reader.old list.old.items list.new.items reader.new) }
{
    match reader.byte()? {
        FILE => read_file_at(reader, alloc, version, list, path),
        DIRECTORY => read_directory_at(reader, alloc, version, list, path),
        _ => Err(ReadError::Malformed),
    }
}

// The same of a directory, after its kind.
#[cycle(parts)]
fn read_directory_at<C: Readable>(
    reader: &mut Reader<'_>,
    alloc: Global,
    version: Version,
    list: &mut Vec<Placed<C>>,
    path: Path,
) -> Result<(), ReadError>
    ensures reads { LeavesFor result reader.new (λ left. ReadsPart (C.kind (version_of version))
        path (DIRECTORY ∷ reader.old) list.old.items list.new.items left) }
    ensures spelled { OnOk result (PartIsRead (C.kind (version_of version)) path
        (DIRECTORY ∷ reader.old) list.old.items list.new.items reader.new) }
{
    let count = reader.u16()?;
    let above = path.copy(alloc)?;
    list.push(Placed::new(path, C::directory()))?;
    read_parts(reader, alloc, version, list, &above, count)
}

// The same of a file, after its kind.
fn read_file_at<C: Readable>(
    reader: &mut Reader<'_>,
    alloc: Global,
    version: Version,
    list: &mut Vec<Placed<C>>,
    path: Path,
) -> Result<(), ReadError>
    ensures reads { LeavesFor result reader.new (λ left. ReadsPart (C.kind (version_of version))
        path (FILE ∷ reader.old) list.old.items list.new.items left) }
    ensures spelled { OnOk result (PartIsRead (C.kind (version_of version)) path
        (FILE ∷ reader.old) list.old.items list.new.items reader.new) }
{
    let file = C::read_file(reader, alloc, version)?;
    list.push(Placed::new(path, file))?;
    Ok(())
}

// A path one name below another, by that name.
fn read_child(reader: &mut Reader<'_>, alloc: Global, above: &Path) -> Result<Path, ReadError>
    ensures { Reads (IsChildOf above.now) last_name_spelling (λ path. path) reader.old reader.new
        result }
{
    let name = reader.name(alloc)?;
    Ok(above.child(alloc, &name)?)
}
