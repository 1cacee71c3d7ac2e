//! What goes over the network: a server, and a user of a served replica.

use crate::marks::MarksKeeper;
use crate::named::{NamedDisks, replica_in};
use crate::reconciling::{archive_name, archive_or_new, has_marks, takes_replica};
use crate::sessions::shared;
use log::{LevelFilter, Logged};
use std::alloc::Global;
use std::fs::Files;
use std::io::{Read, Write};
use std::net::{Net, TcpListener, TcpStream};
use std::sync::Wait;
use std::thread::Threads;
use std::time::Clock;
use syn_cli::{EditCommand, ServeCommand};
use syn_command::{CommandError, read_edit, show_path};
use syn_daemon::{FolderSide, KeepsMarks, NoPauses, Plain, reach, serve, serve_beside};
use syn_disk::{Access, Disk};
use syn_path::Path;
use syn_print::show_served;
use syn_refusal::Refusal;
use syn_shared::SharedReplica;
use syn_tree::{Content, Edit, Tree};
use syn_user::{SideConnection, UserConnection};

/// Serves the command's replica at its address, `HOST:PORT`, until so many connections were opened
/// and served; with none it serves on. Where the command has a folder, that is kept the same as the
/// replica meanwhile. It logs to the handle's standard error.
///
/// Refused as an opening of the disk is, and of the archive that a folder has; 20 where that
/// archive is of another replica, or the replica is an older copy; 9 where the address cannot be
/// bound, and 11 where memory is refused.
pub fn serve_named<'a, H, N, F>(
    rt: &H,
    alloc: Global,
    disks: &N,
    files: &'a F,
    command: &ServeCommand<'a>,
) -> Result<(), CommandError>
where
    H: Net<Listener = TcpListener, Stream = TcpStream> + Threads + Wait + Clock + Eprint,
    H: Copy + Sync,
    N: NamedDisks + Sync,
    F: Files + Sync,
    F::File: Send,
    F::Dir: Send,
{
    let replica = replica_in(alloc, disks, command.file)?;
    let identity = disks.identity(alloc, command.file, Access::Write)?;
    let Some(folder) = command.folder else {
        let shared = shared(alloc, replica)?.with_identity(identity);
        return serve_alone(rt, alloc, &shared, command);
    };
    let name = archive_name(alloc, command.file, None)?;
    let archive = archive_or_new(alloc, disks, &name, replica.pair())?;
    let mut keeper = MarksKeeper::open(alloc, disks, &name, !has_marks(&archive))?;
    let found = keeper.ask(identity, &replica)?;
    keeper.check_to_use(&found)?;
    let takes_replica = takes_replica(&keeper, &archive);
    let side = FolderSide {
        files,
        root: folder.folder,
        archive,
        keeper,
        user: folder.user,
        seconds: folder.seconds.unwrap_or(1),
        takes_replica,
    };
    let shared = shared(alloc, replica)?.with_identity(identity);
    serve_with_folder(rt, alloc, &shared, command, side)
}

/// Serves the replica at the address.
fn serve_alone<H, D>(
    rt: &H,
    alloc: Global,
    shared: &SharedReplica<D>,
    command: &ServeCommand<'_>,
) -> Result<(), CommandError>
where
    H: Net<Listener = TcpListener, Stream = TcpStream> + Threads + Wait + Clock + Eprint,
    H: Copy + Sync,
    D: Disk + Send,
{
    let listener = TcpListener::bind(rt, command.address)?;
    let logged = Logged::new(*rt, LevelFilter::Info, Plain(*rt));
    let most = command.connections;
    serve(&logged, alloc, shared, &listener, most, &NoPauses)?;
    Ok(())
}

/// Serves the replica at the address, and keeps the folder the same.
fn serve_with_folder<H, D, F, A, K>(
    rt: &H,
    alloc: Global,
    shared: &SharedReplica<D>,
    command: &ServeCommand<'_>,
    side: FolderSide<'_, F, A, K>,
) -> Result<(), CommandError>
where
    H: Net<Listener = TcpListener, Stream = TcpStream> + Threads + Wait + Clock + Eprint,
    H: Copy + Sync,
    D: Disk + Send,
    F: Files + Sync,
    F::File: Send,
    F::Dir: Send,
    A: Disk + Drop + Send,
    K: KeepsMarks + Drop + Send,
{
    let listener = TcpListener::bind(rt, command.address)?;
    let logged = Logged::new(*rt, LevelFilter::Info, Plain(*rt));
    let most = command.connections;
    serve_beside(&logged, alloc, shared, &listener, most, &NoPauses, side)?;
    Ok(())
}

/// Asks the server at the address for the command's edit, and answers the new position.
///
/// Refused as the server refuses it, and 9 where the address cannot be reached. Refused 9 also
/// where the connection ends before the answer, or none comes in a minute: then the edit may have
/// been made.
pub fn edit_served<H: Net<Stream = TcpStream>, I: Read>(
    rt: &H,
    alloc: Global,
    address: &str,
    command: &EditCommand<'_>,
    path: Path,
    input: &mut I,
) -> Result<u64, CommandError> {
    let edit = read_edit(alloc, command.kind, path, input)?;
    edit_over(rt, alloc, address, command.user, edit)
}

/// Asks the server at the address for the edit, and answers the new position. Refused as
/// `edit_served` is.
pub fn edit_over<H: Net<Stream = TcpStream>>(
    rt: &H,
    alloc: Global,
    address: &str,
    user: u32,
    edit: Edit,
) -> Result<u64, CommandError> {
    let stream = reach(rt, address)?;
    let mut connection = UserConnection::new(alloc, &stream, &stream);
    Ok(connection.edit(alloc, user, edit)?)
}

/// Prints the whole tree that the server at the address has, with its position.
///
/// Refused as `tree_over` is, and 9 where the address cannot be reached or the output cannot be
/// written.
pub fn show_tree_served<H: Net<Stream = TcpStream>, O: Write>(
    rt: &H,
    alloc: Global,
    address: &str,
    output: &mut O,
) -> Result<(), CommandError> {
    let stream = reach(rt, address)?;
    let (position, tree) = tree_over(alloc, &stream)?;
    Ok(show_served(alloc, position, &tree, output)?)
}

/// Prints what the server at the address has at the path: the bytes of a file, or the lines of what
/// is below a directory.
///
/// Refused 5 where nothing is there, and else as `edit_served` and `tree_over` are.
pub fn show_path_served<H: Net<Stream = TcpStream>, O: Write>(
    rt: &H,
    alloc: Global,
    address: &str,
    path: &Path,
    output: &mut O,
) -> Result<(), CommandError> {
    let stream = reach(rt, address)?;
    let mut connection = UserConnection::new(alloc, &stream, &stream);
    match connection.get(alloc, path)? {
        Some(Content::File(_, bytes)) => Ok(output.write_all(&bytes)?),
        Some(Content::Dir) => {
            let (_, tree) = tree_over(alloc, &stream)?;
            show_path(alloc, &tree, path, output)
        }
        None => Err(CommandError::Refused(Refusal::Absent)),
    }
}

/// The whole tree of the replica that is served over the stream, and its position then.
///
/// Refused 9 where the connection ends or no answer comes in a minute, 11 where memory is refused,
/// 13 where somebody edits as long as it is asked, 21 to 23 where what comes is no answer, and as
/// the server refuses it.
pub fn tree_over(alloc: Global, stream: &TcpStream) -> Result<(u64, Tree), CommandError> {
    Ok(SideConnection::new(alloc, stream, stream).tree(alloc)?)
}
