//! Replicas of a name or after a server, written into folders and made what folders are.
ghost use Rattle.std.specs.Prelude.{IfSome, IsErrAnd};
ghost use Rattle.syn_path.specs.Paths.{NamesPath};
ghost use Rattle.syn_model.specs.Path.{Path as ModelPath};
ghost use Rattle.syn_command.specs.Errors.{IsOfPath};

use crate::named::{NamedDisks, replica_in, replica_to_read};
use crate::network::tree_over;
use std::alloc::Global;
use std::fs::Files;
use std::io::Write;
use std::net::{Net, TcpStream};
use std::thread::Threads;
use syn_cli::{ExportCommand, ImportCommand, ReplicaLocation};
use syn_command::{
    CommandError, Import, Teller, export_part, import_folder, part_of, plan_import, send_edits,
};
use syn_daemon::reach;
use syn_folder::{ExportedFolder, Folder, FolderError, SystemFolder};
use syn_path::Path;
use syn_tree::Tree;
use syn_user::UserConnection;

/// Writes what the directory at the command's path has into its folder, and answers the position of
/// the replica.
///
/// A text that names no path is refused. Else it is refused 5 where no directory is at the path, as
/// an opening is or as the server refuses it, and as the folder is written.
pub fn export<H: Net<Stream = TcpStream> + Threads + Sync, N: NamedDisks, F: Files>(
    rt: &H,
    alloc: Global,
    disks: &N,
    files: &F,
    command: &ExportCommand<'_>,
) -> Result<u64, CommandError>
where
    F::File: Sync,
    ensures { IfSome command.now.path (λ path.
        ((at : ModelPath) → ¬ NamesPath path.now at) → IsErrAnd result IsOfPath) }
{
    let path = path_of(alloc, command.path)?;
    match command.location {
        ReplicaLocation::File(name) => {
            let replica = replica_to_read(alloc, disks, name)?;
            export_into(rt, alloc, files, replica.tree(), &path, command)?;
            Ok(replica.position())
        }
        ReplicaLocation::Served(address) => {
            let stream = reach(rt, address)?;
            let (position, tree) = tree_over(alloc, &stream)?;
            export_into(rt, alloc, files, &tree, &path, command)?;
            Ok(position)
        }
    }
}

/// Makes what is at the command's path what stands in its folder, by edits of its user, and answers
/// the new position. The edits are told, and what is skipped.
///
/// A text that names no path is refused. Else it is refused as the folder is read, as an opening
/// is, 7 where something stands in the folder that can stand in no replica and nothing is to be
/// skipped, and as the replica or the server refuses the edits. Into a file all edits go, or none.
/// A server makes them one after another, and those before a refusal stand; it is refused 13 where
/// somebody else edits the replica meanwhile.
pub fn import<H: Net<Stream = TcpStream>, N: NamedDisks, F: Files, E: Write>(
    rt: &H,
    alloc: Global,
    disks: &N,
    files: &F,
    command: &ImportCommand<'_>,
    teller: &mut Teller<'_, E>,
) -> Result<u64, CommandError>
    ensures { IfSome command.now.path (λ path.
        ((at : ModelPath) → ¬ NamesPath path.now at) → IsErrAnd result IsOfPath) }
{
    let path = path_of(alloc, command.path)?;
    let folder = SystemFolder::open(alloc, files, command.folder, &path)?;
    let asked = Import {
        user: command.user,
        path: &path,
        on_stranger: command.on_stranger,
    };
    match command.location {
        ReplicaLocation::File(name) => {
            let replica = replica_in(alloc, disks, name)?;
            let imported = import_folder(alloc, replica, asked, &folder, teller);
            let replica = imported.map_err(|(error, _)| error)?;
            Ok(replica.position())
        }
        ReplicaLocation::Served(address) => {
            let stream = reach(rt, address)?;
            import_over(alloc, &stream, asked, &folder, teller)
        }
    }
}

/// The path that a command names: the root where it names none.
///
/// A text that names no path is refused.
fn path_of(alloc: Global, text: Option<&str>) -> Result<Path, CommandError>
    ensures { IfSome text.entry (λ path.
        ((at : ModelPath) → ¬ NamesPath path.now at) → IsErrAnd result IsOfPath) }
{
    match text {
        Some(text) => Ok(Path::parse(alloc, text)?),
        None => Ok(Path::root(alloc)),
    }
}

/// Imports the folder into the replica that is served over the stream.
fn import_over<F: Folder, E: Write>(
    alloc: Global,
    stream: &TcpStream,
    asked: Import<'_>,
    folder: &F,
    teller: &mut Teller<'_, E>,
) -> Result<u64, CommandError> {
    let (position, tree) = tree_over(alloc, stream)?;
    let part = part_of(
        alloc,
        folder,
        asked.on_stranger,
        &tree,
        asked.path,
        teller.errors,
    )?;
    let edits = plan_import(alloc, &tree, asked.path, &part, teller.errors)?;
    let mut connection = UserConnection::new(alloc, stream, stream);
    send_edits(alloc, &mut connection, asked.user, position, edits, teller)
}

/// Writes what the directory at the path of the tree has into the command's folder.
fn export_into<H: Threads + Sync, F: Files>(
    rt: &H,
    alloc: Global,
    files: &F,
    tree: &Tree,
    path: &Path,
    command: &ExportCommand<'_>,
) -> Result<(), FolderError>
where
    F::File: Sync,
{
    let mut folder = ExportedFolder::open(alloc, files, command.folder)?;
    let written = export_part(alloc, tree, path, command.existing, &mut folder);
    if written.is_err() {
        folder.give_up();
    }
    written?;
    folder.put_in_place(rt, alloc)
}
