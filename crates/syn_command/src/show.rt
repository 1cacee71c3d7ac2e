//! What `syn show` prints.
ghost use Rattle.std.specs.Prelude.{◌≡◌, ◌⊎◌, true, IfErr, OnOk, Some, None};
ghost use Rattle.std.specs.FinMap.{get};
ghost use Rattle.std.specs.Io.KnownBytes.{Appends};
ghost use Rattle.syn_model.specs.Tree.{Content, is_present};
ghost use Rattle.syn_command.specs.Printed.{content_shown};
ghost use Rattle.syn_command.specs.Shown.{image_shown};
ghost use Rattle.syn_model.specs.Refusal.{Absent};
ghost use Rattle.syn_command.specs.Errors.{refusal_of, IsOfStream};

use crate::error::CommandError;
use crate::image::OpenedImage;
use std::alloc::Global;
use std::io::Write;
use syn_disk::Disk;
use syn_path::Path;
use syn_print::{show_archive, show_below, show_replica};
use syn_refusal::Refusal;
use syn_tree::{Found, Tree};

/// Prints the whole image: a line with its numbers, and a line for each path but the root, in path
/// order.
///
/// Refused 9 where the output cannot be written, and 11 where memory is refused.
pub fn show_image<D: Disk, W: Write>(
    alloc: Global,
    image: &OpenedImage<D>,
    output: &mut W,
) -> Result<(), CommandError>
    ensures printed { OnOk result (Appends (W.contents output.old) (W.contents output.new)
        (image_shown image.now)) }
    ensures stream { IfErr result IsOfStream }
{
    match image {
        OpenedImage::Replica(replica) => Ok(show_replica(alloc, replica, output)?),
        OpenedImage::Archive(archive) => Ok(show_archive(alloc, archive, output)?),
    }
}

/// Prints the bytes of the file at the path, or the lines of what is below the directory there.
///
/// Refused 5 where nothing is there, 9 where the output cannot be written, and 11 where memory is
/// refused.
pub fn show_path<W: Write>(
    alloc: Global,
    tree: &Tree,
    path: &Path,
    output: &mut W,
) -> Result<(), CommandError>
    ensures printed { (content : Content) → get tree.now path.now ≡ Some content
        → OnOk result (Appends (W.contents output.old) (W.contents output.new)
        (content_shown tree.now path.now content)) }
    ensures found { OnOk result (is_present tree.now path.now ≡ true) }
    ensures refusals { IfErr result (λ e.
        ((refusal_of e ≡ Absent) × (get tree.now path.now ≡ None)) ⊎ IsOfStream e) }
{
    match tree.get(path) {
        Some(Found::File(_, bytes)) => Ok(output.write_all(bytes)?),
        Some(Found::Dir) => Ok(show_below(alloc, tree, path, output)?),
        None => Err(CommandError::Refused(Refusal::Absent)),
    }
}
