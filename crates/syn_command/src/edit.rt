//! Makes the edit that a command asks for.
ghost use Rattle.std.specs.Prelude.{◌≡◌, ◌⊎◌, ◌+◌, ◌++◌, ◌∷◌, [], length, take, IfOk, IfErr};
ghost use Rattle.std.specs.Prelude.{IfSome, IsErrAnd, OnErr, Some};
ghost use Rattle.syn_disk.specs.Stops.{LeavesOnly};
ghost use Rattle.syn_model.specs.History.{History, event_refusal};
ghost use Rattle.syn_model.specs.Path.{Bytes};
ghost use Rattle.syn_model.specs.Refusal.{Refusal as Why, Device};
ghost use Rattle.syn_path.specs.Paths.{NamesPath};
ghost use Rattle.syn_replica.specs.Replica.{KeepsBeforeOrAfter, Stands, disk_of, room_shown};
ghost use Rattle.syn_replica.specs.Steps.{add_refusal};
ghost use Rattle.syn_tree.specs.Edits.{edit_of};
ghost use Rattle.syn_command.specs.Asked.{IsInput, edit_asked, event_asked};
ghost use Rattle.syn_command.specs.Errors.{refusal_of, IsEditRefusal, IsOfStream, IsOutside};

use crate::error::CommandError;
use std::alloc::Global;
use std::io::Read;
use syn_cli::{EditCommand, EditKind};
use syn_disk::Disk;
use syn_model::history_laws;
use syn_path::Path;
use syn_replica::Replica;
use syn_tree::{Edit, LONGEST_FILE};

/// How many bytes of the input are read at most: one more than a file may have.
const MOST_INPUT: u64 = LONGEST_FILE as u64 + 1;

/// Makes the edit that the command asks for, as its user, and answers the new position. A put puts
/// what is left of the input.
///
/// It is refused as the replica refuses the edit, 9 where the input cannot be read or a device call
/// fails, and 11 where memory is refused. Of an input that is longer than a file may be only one
/// byte more than that is read.
///
/// The path has to be the one that the command names, so that no caller can hand over another.
pub fn make_edit<D: Disk, I: Read>(
    alloc: Global,
    replica: &mut Replica<D>,
    command: &EditCommand<'_>,
    path: Path,
    input: &mut I,
) -> Result<u64, CommandError>
    requires { NamesPath command.now.path.now path }
    ensures acknowledged { (history : History) (left : Bytes)
        → Stands replica.old history → IsInput command.entry.now.kind (I.remaining input.old) left
        → IfOk result (λ position. (position ≡ length history + 1)
        × Stands replica.new (history ++ event_asked command.entry.now path left ∷ [])) }
    ensures any_moment { (history : History) (left : Bytes)
        → Stands replica.old history → IsInput command.entry.now.kind (I.remaining input.old) left
        → LeavesOnly D.moment D.left_since (disk_of replica.old) (disk_of replica.new)
        (KeepsBeforeOrAfter replica.old history (event_asked command.entry.now path left)) }

    // An edit that the history refuses is refused so, unless the input cannot be read.
    ensures refused { (history : History) (left : Bytes) (why : Why)
        → Stands replica.old history → IsInput command.entry.now.kind (I.remaining input.old) left
        → event_refusal history (event_asked command.entry.now path left) ≡ Some why
        → IsErrAnd result (λ e. (refusal_of e ≡ why) ⊎ IsOfStream e) }

    // And each refusal has its cause. That the input cannot be read is one of a put alone.
    ensures cause { (history : History) (left : Bytes)
        → Stands replica.old history → IsInput command.entry.now.kind (I.remaining input.old) left
        → IfErr result (λ e. IsOutside command.entry.now.kind e
        ⊎ (add_refusal (room_shown replica.old) history (event_asked command.entry.now path left)
        ≡ Some (refusal_of e))) }
    ensures refusals { IfErr result (IsEditRefusal command.entry.now.kind) }
    ensures unchanged { (history : History) → Stands replica.old history
        → IfErr result (λ e. (refusal_of e ≡ Device) ⊎ Stands replica.new history) }
{
    history_laws();
    let asked = read_edit(alloc, command.kind, path, input)?;
    Ok(replica.edit(alloc, command.user, asked)?)
}

/// The edit, with the bytes of the input where it is a put.
///
/// Refused 9 where the input cannot be read, and 11 where memory is refused.
pub fn read_edit<I: Read>(
    alloc: Global,
    kind: EditKind,
    path: Path,
    input: &mut I,
) -> Result<Edit, CommandError>
    ensures edit { IfOk result (λ edit. (left : Bytes) → IsInput kind (I.remaining input.old) left
        → edit_of edit ≡ edit_asked kind path (take MOST_INPUT left)) }
    ensures stream { IfErr result IsOfStream }
    ensures put { OnErr result (kind ≡ EditKind.Put) }
{
    match kind {
        EditKind::Put => {
            let bytes = read_input(alloc, input)?;
            Ok(Edit::Put(path, bytes))
        }
        EditKind::MakeDir => Ok(Edit::MakeDir(path)),
        EditKind::Remove => Ok(Edit::Remove(path)),
        EditKind::Chmod(mode) => Ok(Edit::Chmod(path, mode)),
    }
}

/// The bytes of the input, or the first of them where it has more than a file may have. No more are
/// read.
fn read_input<I: Read>(alloc: Global, input: &mut I) -> Result<Vec<u8>, CommandError>
    ensures bytes { IfOk result (λ bytes. IfSome (I.remaining input.old) (λ left.
        bytes.items ≡ take MOST_INPUT left)) }
    ensures stream { IfErr result IsOfStream }
{
    let mut bytes = Vec::new(alloc);
    input.take(MOST_INPUT).read_to_end(&mut bytes)?;
    Ok(bytes)
}
