//! What a command does with an image of a name, or with a replica that is served.
ghost use Rattle.std.specs.Prelude.{IsErrAnd};
ghost use Rattle.syn_path.specs.Paths.{NamesPath};
ghost use Rattle.syn_model.specs.Path.{Path as ModelPath};
ghost use Rattle.syn_command.specs.Errors.{IsOfPath};

use crate::named::{NamedDisks, image_to_read, replica_in, replica_to_read};
use crate::network::{edit_served, show_path_served, show_tree_served};
use std::alloc::Global;
use std::io::{Read, Write};
use std::net::{Net, TcpStream};
use syn_cli::{EditCommand, ReplicaLocation};
use syn_command::{
    CommandError, make_edit, migrate_image, print_image_numbers, show_image, show_path,
};
use syn_disk::{Access, LockedDisk};
use syn_path::Path;
use syn_print::{read_log, show_log};

/// Prints the whole image.
///
/// Refused as an opening to read is or as the server refuses it, 9 where the output cannot be
/// written, and 11 where memory is refused.
pub fn print_image<H: Net<Stream = TcpStream>, N: NamedDisks, O: Write>(
    rt: &H,
    alloc: Global,
    disks: &N,
    location: ReplicaLocation<'_>,
    output: &mut O,
) -> Result<(), CommandError> {
    match location {
        ReplicaLocation::File(name) => show_image(
            alloc,
            &image_to_read(alloc, disks, name)?,
            output,
        ),
        ReplicaLocation::Served(address) => show_tree_served(rt, alloc, address, output),
    }
}

/// Prints the numbers of the image of that name.
///
/// Refused as an opening to read is, 9 where the output cannot be written, and 11 where memory is
/// refused.
pub fn print_numbers<N: NamedDisks, O: Write>(
    alloc: Global,
    disks: &N,
    name: &str,
    output: &mut O,
) -> Result<(), CommandError> {
    print_image_numbers(alloc, &image_to_read(alloc, disks, name)?, output)
}

/// Makes the image of that name one of version 2, where it is one of version 1. No other process
/// may open it meanwhile.
///
/// Refused as an opening to write is, but for 20 and 26, and 7 where it is of version 1 and its
/// generation is the greatest.
pub fn migrate<N: NamedDisks>(alloc: Global, disks: &N, name: &str) -> Result<(), CommandError> {
    let locked = disks.lock(name, Access::Write)?;
    migrate_image(alloc, locked.into_disk(alloc)?).map_err(|(error, _)| error)?;
    Ok(())
}

/// Prints the last events of the replica of that name, so many lines at most, the newest first.
///
/// Refused as an opening to read is, 9 where the output cannot be written, and 11 where memory is
/// refused.
pub fn print_log<N: NamedDisks, O: Write>(
    alloc: Global,
    disks: &N,
    name: &str,
    lines: Option<u64>,
    output: &mut O,
) -> Result<(), CommandError> {
    // As a replica it makes each event again, so that no log is printed of a disk that is none. It
    // keeps no events, so these are read from its disk once more.
    let replica = replica_to_read(alloc, disks, name)?;
    let logged = read_log(alloc, replica.into_disk())?;
    let most = lines.unwrap_or(u64::MAX) as usize;
    Ok(show_log(alloc, &logged, most, output)?)
}

/// Makes the edit where the command says, and answers the new position. A text that names no path
/// is refused, whatever the disk or the server is.
///
/// Else it is refused as an opening and as the replica or the server refuses it, 9 where the input
/// cannot be read, and 11 where memory is refused.
pub fn edit<H: Net<Stream = TcpStream>, N: NamedDisks, I: Read>(
    rt: &H,
    alloc: Global,
    disks: &N,
    command: &EditCommand<'_>,
    input: &mut I,
) -> Result<u64, CommandError>
    ensures { ((path : ModelPath) → ¬ NamesPath command.entry.now.path.now path)
        → IsErrAnd result IsOfPath }
{
    let path = Path::parse(alloc, command.path)?;
    match command.location {
        ReplicaLocation::File(name) => {
            let mut replica = replica_in(alloc, disks, name)?;
            make_edit(alloc, &mut replica, command, path, input)
        }
        ReplicaLocation::Served(address) => edit_served(rt, alloc, address, command, path, input),
    }
}

/// Prints what stands at the path. A text that names no path is refused, whatever the disk or the
/// server is.
///
/// Else it is refused 5 where nothing is there, as an opening and as the server refuses it, 9 where
/// the output cannot be written, and 11 where memory is refused.
pub fn print_path<H: Net<Stream = TcpStream>, N: NamedDisks, O: Write>(
    rt: &H,
    alloc: Global,
    disks: &N,
    location: ReplicaLocation<'_>,
    path: &str,
    output: &mut O,
) -> Result<(), CommandError>
    ensures { ((at : ModelPath) → ¬ NamesPath path.now at) → IsErrAnd result IsOfPath }
{
    let path = Path::parse(alloc, path)?;
    match location {
        ReplicaLocation::File(name) => {
            let replica = replica_to_read(alloc, disks, name)?;
            show_path(alloc, replica.tree(), &path, output)
        }
        ReplicaLocation::Served(address) => show_path_served(rt, alloc, address, &path, output),
    }
}
