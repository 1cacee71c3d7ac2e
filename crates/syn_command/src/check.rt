//! What `syn check` prints.
ghost use Rattle.std.specs.Prelude.{◌≡◌, IfOk, IfErr, OnOk};
ghost use Rattle.std.specs.Io.KnownBytes.{Appends};
ghost use Rattle.std.specs.String.{string_bytes};
ghost use Rattle.syn_command.specs.declared.image.OpenedImage.TheVariants as image;
ghost use Rattle.syn_command.specs.Errors.{IsOfStream};
ghost use Rattle.syn_command.specs.Shown.{numbers_shown};

use crate::error::CommandError;
use crate::image::OpenedImage;
use std::alloc::{AllocError, Global};
use std::io::Write;
use syn_archive::Archive;
use syn_disk::Disk;
use syn_replica::Replica;

/// Prints the line of numbers of the image.
///
/// Refused 9 where the output cannot be written, and 11 where memory is refused.
pub fn print_image_numbers<D: Disk, W: Write>(
    alloc: Global,
    image: &OpenedImage<D>,
    output: &mut W,
) -> Result<(), CommandError>
    ensures printed { OnOk result (Appends (W.contents output.old) (W.contents output.new)
        (numbers_shown image.now)) }
    ensures stream { IfErr result IsOfStream }
{
    let line = numbers_line(alloc, image)?;
    Ok(output.write_all(line.as_bytes())?)
}

/// The line of numbers of the image.
fn numbers_line<D: Disk>(alloc: Global, image: &OpenedImage<D>) -> Result<String, AllocError>
    ensures { IfOk result (λ line. string_bytes line ≡ numbers_shown image.now) }
{
    match image {
        OpenedImage::Replica(replica) => replica_numbers(alloc, replica),
        OpenedImage::Archive(archive) => archive_numbers(alloc, archive),
    }
}

/// The numbers of a replica.
fn replica_numbers<D: Disk>(alloc: Global, replica: &Replica<D>) -> Result<String, AllocError>
    ensures { IfOk result (λ line.
        string_bytes line ≡ numbers_shown (image.Replica replica.now)) }
{
    let pair = replica.pair();
    let generation = replica.generation();
    let position = replica.position();
    let floor = replica.floor();
    let session = replica.last_session();
    format!(in alloc;
        "replica pair {pair} generation {generation} position {position} floor {floor} \
        session {session}\n"
    )
}

/// The numbers of an archive.
fn archive_numbers<D: Disk>(alloc: Global, archive: &Archive<D>) -> Result<String, AllocError>
    ensures { IfOk result (λ line.
        string_bytes line ≡ numbers_shown (image.Archive archive.now)) }
{
    let pair = archive.pair();
    let generation = archive.generation();
    let session = archive.last_session();
    format!(in alloc; "archive pair {pair} generation {generation} session {session}\n")
}
