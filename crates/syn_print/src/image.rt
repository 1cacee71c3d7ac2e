//! The lines of a replica, of a directory and of an archive.
ghost use Rattle.std.specs.Prelude.{◌≡◌, IfOk, OnOk};
ghost use Rattle.std.specs.Io.KnownBytes.{Appends};
ghost use Rattle.std.specs.String.{string_bytes};
ghost use Rattle.syn_model.specs.Contents.{contents_with};
ghost use Rattle.syn_print.specs.Images.{content_line, digest_line, directory_line};
ghost use Rattle.syn_print.specs.Images.{archive_line, file_line, lines_below, lines_of_marks};
ghost use Rattle.syn_print.specs.Images.{mark_line, replica_line, served_line};
ghost use Rattle.syn_print.specs.Images.{archive_shown, replica_shown, served_shown};
ghost use Rattle.syn_tree.specs.Modes.{mode_of};

use crate::error::PrintError;
use sha2::{Digest, Sha256};
use std::alloc::{AllocError, Global};
use std::io::Write;
use syn_archive::Archive;
use syn_disk::Disk;
use syn_mark::{Mark, MarkEntry};
use syn_path::Path;
use syn_replica::Replica;
use syn_tree::{Found, Mode, Pair, Tree};

/// Prints the whole replica: a line with its numbers, and a line for each path but the root, in
/// path order.
///
/// Refused 9 where the output cannot be written, and 11 where memory is refused.
pub fn show_replica<D: Disk, W: Write>(
    alloc: Global,
    replica: &Replica<D>,
    output: &mut W,
) -> Result<(), PrintError>
    ensures { OnOk result (Appends (W.contents output.old) (W.contents output.new)
        (replica_shown replica.now)) }
{
    let line = replica_line(alloc, replica.pair(), replica.position())?;
    output.write_all(line.as_bytes())?;
    show_below(alloc, replica.tree(), &Path::root(alloc), output)
}

/// Prints the whole tree of a replica that is served: a line with the position that it is of, and a
/// line for each path but the root, in path order.
///
/// Refused 9 where the output cannot be written, and 11 where memory is refused.
pub fn show_served<W: Write>(
    alloc: Global,
    position: u64,
    tree: &Tree,
    output: &mut W,
) -> Result<(), PrintError>
    ensures { OnOk result (Appends (W.contents output.old) (W.contents output.new)
        (served_shown position tree.now)) }
{
    let line = served_line(alloc, position)?;
    output.write_all(line.as_bytes())?;
    show_below(alloc, tree, &Path::root(alloc), output)
}

/// Prints the whole archive: a line with its numbers, and a line for each path but the root, in
/// path order.
///
/// Refused 9 where the output cannot be written, and 11 where memory is refused.
pub fn show_archive<D: Disk, W: Write>(
    alloc: Global,
    archive: &Archive<D>,
    output: &mut W,
) -> Result<(), PrintError>
    ensures { OnOk result (Appends (W.contents output.old) (W.contents output.new)
        (archive_shown archive.now)) }
{
    let line = archive_line(alloc, archive.pair(), archive.last_session())?;
    output.write_all(line.as_bytes())?;
    show_marks(alloc, archive.tree().below(&Path::root(alloc)), output)
}

/// Prints a line for each path below the directory, in path order.
///
/// Refused 9 where the output cannot be written, and 11 where memory is refused.
pub fn show_below<W: Write>(
    alloc: Global,
    tree: &Tree,
    directory: &Path,
    output: &mut W,
) -> Result<(), PrintError>
    ensures { OnOk result (Appends (W.contents output.old) (W.contents output.new)
        (lines_below tree.now directory.now)) }
{
    for pair in tree.below(directory) {
        let line = pair_line(alloc, &pair)?;
        output.write_all(line.as_bytes())?;
    }
    Ok(())
}

/// Prints a line for each of the marks, in their order.
fn show_marks<W: Write>(
    alloc: Global,
    marks: &[MarkEntry],
    output: &mut W,
) -> Result<(), PrintError>
    ensures { OnOk result (Appends (W.contents output.old) (W.contents output.new)
        (lines_of_marks marks.now)) }
{
    for entry in marks {
        let line = mark_line(alloc, entry)?;
        output.write_all(line.as_bytes())?;
    }
    Ok(())
}

/// The first line of a replica.
fn replica_line(alloc: Global, pair: u64, position: u64) -> Result<String, AllocError>
    ensures { IfOk result (λ line. string_bytes line ≡ replica_line pair position) }
{
    format!(in alloc; "replica pair {pair} position {position}\n")
}

/// The first line of a replica that is served.
fn served_line(alloc: Global, position: u64) -> Result<String, AllocError>
    ensures { IfOk result (λ line. string_bytes line ≡ served_line position) }
{
    format!(in alloc; "replica position {position}\n")
}

/// The first line of an archive.
fn archive_line(alloc: Global, pair: u64, session: u64) -> Result<String, AllocError>
    ensures { IfOk result (λ line. string_bytes line ≡ archive_line pair session) }
{
    format!(in alloc; "archive pair {pair} session {session}\n")
}

/// The line of what stands at a path.
fn pair_line(alloc: Global, pair: &Pair<'_>) -> Result<String, AllocError>
    ensures { IfOk result (λ line. string_bytes line ≡ content_line pair.now.0 pair.now.1) }
{
    let path = pair.path(alloc)?;
    match pair.found() {
        Found::File(mode, bytes) => file_line(alloc, &path, mode, bytes),
        Found::Dir => directory_line(alloc, &path),
    }
}

/// The line of a mark.
fn mark_line(alloc: Global, entry: &MarkEntry) -> Result<String, AllocError>
    ensures { IfOk result (λ line. string_bytes line ≡ mark_line entry.now.0 entry.now.1) }
{
    match entry.content() {
        Mark::File(mode, digest) => digest_line(alloc, entry.path(), *mode, digest),
        Mark::Dir => directory_line(alloc, entry.path()),
    }
}

/// The line of a directory: its path.
fn directory_line(alloc: Global, path: &Path) -> Result<String, AllocError>
    ensures { IfOk result (λ line. string_bytes line ≡ directory_line path.now) }
{
    format!(in alloc; "d {path}\n")
}

/// The line of a file: its path, its mode, its length and its SHA-256 digest.
fn file_line(alloc: Global, path: &Path, mode: Mode, bytes: &[u8]) -> Result<String, AllocError>
    ensures { IfOk result (λ line. string_bytes line
        ≡ file_line path.now (contents_with (mode_of mode) bytes.now)) }
{
    let length = bytes.len();
    let digest = hex::encode(alloc, Sha256::digest(bytes))?;
    format!(in alloc; "f {path} {mode} {length} {digest}\n")
}

/// The line of a file in an archive: its path, its mode and its digest.
fn digest_line(
    alloc: Global,
    path: &Path,
    mode: Mode,
    digest: &[u8; 32],
) -> Result<String, AllocError>
    ensures { IfOk result (λ line. string_bytes line
        ≡ digest_line path.now (contents_with (mode_of mode) digest.now)) }
{
    let digest = hex::encode(alloc, *digest)?;
    format!(in alloc; "f {path} {mode} {digest}\n")
}
