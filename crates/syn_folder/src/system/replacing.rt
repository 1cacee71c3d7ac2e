//! Replaces what stands at and below a path of a folder that others edit, where it still is what
//! was read.
ghost use Rattle.std.specs.Prelude.{◌≡◌, ◌∷◌, [], None, true, IfErr, IfOk, IsErr, IsSome, List};
ghost use Rattle.std.specs.Prelude.{OnOk};
ghost use Rattle.syn_folder.specs.Courses.{Answers, IsAtRest, IsMade, IsReadyToPut, IsSafe};
ghost use Rattle.syn_folder.specs.Courses.{IsShown, Mends, known, out, put};
ghost use Rattle.syn_folder.specs.Moments.{Act};
ghost use Rattle.syn_folder.specs.Places.{IsAsRead};
ghost use Rattle.syn_folder.specs.Stages.{IsCutOff, IsRefusedAt, IsSettled, IsUntouched};
ghost use Rattle.syn_folder.specs.Stages.{IsReady, MayReturn};
ghost use Rattle.syn_folder.specs.declared.system.stage.Stage.TheVariants.{Done, Kept, Moved};
ghost use Rattle.syn_folder.specs.declared.system.stage.Stage.TheVariants.{Noted, Standing};
ghost use Rattle.syn_folder.specs.declared.system.stage.Stage.TheVariants.{Vacant};

use crate::error::FolderError;
use crate::system::calls::PlaceCalls;
use crate::system::stage::Stage;
use std::alloc::Global;
use std::io;
use syn_path::Path;

/// Puts what is wanted in the place of what stands at and below the path, where that is what was
/// read. What was read lies in `.syn/kept` then.
///
/// Refused 13 where something else stands there: it stands there still, or again. Where it was
/// moved, and something else came there meanwhile, that stays, and what was moved stays in
/// `.syn/kept`. Refused 9 where a call of the system fails, and 11 where memory is refused: if a
/// note stands then, `settle` ends what was begun.
pub(super) fn replace<C: PlaceCalls>(alloc: Global, calls: &mut C) -> Result<(), FolderError>
    requires order { IsUntouched (C.stage calls.old) }
    requires rest { IsAtRest (C.moment calls.old) }
    ensures done { OnOk result (C.stage calls.new ≡ Done) }
    ensures refused { IfErr result (λ e. IsRefusedAt e (C.stage calls.new)) }
    ensures folder { Answers (C.is_wanted calls.old) [] (C.moment calls.old)
        (C.moment calls.new) result }
    ensures kept { C.stage calls.old ≡ Standing → OnOk result (IsSome (C.moment calls.new).kept) }
    ensures read { C.stage calls.old ≡ Standing → OnOk result
        (IsAsRead (C.tree calls.old) (C.path calls.old) (C.seen calls.new)) }
{
    match calls.looks_as_read(alloc) {
        Ok(true) => {}
        Ok(false) => return Err(changed(alloc, calls.path())),
        Err(error) => return Err(FolderError::System(error)),
    }
    if let Err(error) = calls.prepare(alloc) {
        return Err(FolderError::System(error));
    }
    match calls.stage() {
        Stage::Noted => put_over(alloc, calls),
        _ => put_new(alloc, calls),
    }
}

/// Puts what is wanted, if anything is, where nothing was read.
fn put_new<C: PlaceCalls>(alloc: Global, calls: &mut C) -> Result<(), FolderError>
    requires { C.stage calls.old ≡ Vacant }
    ensures done { OnOk result (C.stage calls.new ≡ Done) }
    ensures refused { IfErr result (λ e. IsRefusedAt e (C.stage calls.new)) }
    ensures folder { (earlier : List Act)
        → IsSafe (C.is_wanted calls.old) earlier (C.moment calls.old)
        → IsReadyToPut (C.is_wanted calls.old) earlier (C.moment calls.old)
        → known earlier ≡ out earlier → IsAtRest (C.moment calls.old)
        → Answers (C.is_wanted calls.old) earlier (C.moment calls.old)
        (C.moment calls.new) result }
{
    if !calls.is_wanted() {
        return end(alloc, calls);
    }
    match calls.place(alloc) {
        Ok(true) => end(alloc, calls),
        Ok(false) => Err(changed(alloc, calls.path())),
        Err(error) => Err(FolderError::System(error)),
    }
}

/// Puts what is wanted in the place of what was read, once a note of it stands.
fn put_over<C: PlaceCalls>(alloc: Global, calls: &mut C) -> Result<(), FolderError>
    requires { C.stage calls.old ≡ Noted }
    ensures done { OnOk result (C.stage calls.new ≡ Done) }
    ensures refused { IfErr result (λ e. IsRefusedAt e (C.stage calls.new)) }
    ensures folder { (earlier : List Act)
        → IsSafe (C.is_wanted calls.old) earlier (C.moment calls.old)
        → IsReadyToPut (C.is_wanted calls.old) earlier (C.moment calls.old)
        → (C.moment calls.old).kept ≡ None → (C.moment calls.old).noted ≡ true
        → Answers (C.is_wanted calls.old) earlier (C.moment calls.old)
        (C.moment calls.new) result }
    ensures kept { OnOk result (IsSome (C.moment calls.new).kept) }
    ensures read { OnOk result (IsAsRead (C.tree calls.old) (C.path calls.old) (C.seen calls.new)) }
{
    match calls.take(alloc) {
        Ok(true) => {}
        Ok(false) => return end_refused(alloc, calls, None),
        Err(error) => return end_refused(alloc, calls, Some(error)),
    }
    match calls.compare(alloc) {
        Ok(true) => put_in_place(alloc, calls),
        Ok(false) => undo(alloc, calls, None),
        Err(error) => undo(alloc, calls, Some(error)),
    }
}

/// Puts what is wanted, if anything is, in the place of what was moved and is what was read.
fn put_in_place<C: PlaceCalls>(alloc: Global, calls: &mut C) -> Result<(), FolderError>
    requires order { C.stage calls.old ≡ Kept }
    requires lies { IsSome (C.moment calls.old).kept }
    ensures done { OnOk result (C.stage calls.new ≡ Done) }
    ensures refused { IfErr result (λ e. IsRefusedAt e (C.stage calls.new)) }
    ensures folder { (earlier : List Act)
        → IsSafe (C.is_wanted calls.old) earlier (C.moment calls.old)
        → IsReadyToPut (C.is_wanted calls.old) earlier (C.moment calls.old)
        → known earlier ≡ out earlier → (C.moment calls.old).noted ≡ true
        → Answers (C.is_wanted calls.old) earlier (C.moment calls.old)
        (C.moment calls.new) result }
    ensures kept { OnOk result (IsSome (C.moment calls.new).kept) }
    ensures seen { OnOk result (C.seen calls.new ≡ C.seen calls.old) }
{
    if !calls.is_wanted() {
        return end(alloc, calls);
    }
    match calls.place(alloc) {
        Ok(true) => end(alloc, calls),
        Ok(false) => undo(alloc, calls, None),
        Err(error) => undo(alloc, calls, Some(error)),
    }
}

/// Puts what was moved back, if its place is free, and refuses as the system did, or 13 where that
/// did not refuse.
fn undo<C: PlaceCalls>(
    alloc: Global,
    calls: &mut C,
    why: Option<io::Error>,
) -> Result<(), FolderError>
    requires order { MayReturn (C.stage calls.old) }
    requires lies { IsSome (C.moment calls.old).kept }
    ensures done { OnOk result (C.stage calls.new ≡ Done) }
    ensures refused { IfErr result (λ e. IsRefusedAt e (C.stage calls.new)) }
    ensures refuses { IsErr result }
    ensures folder { (earlier : List Act)
        → IsSafe (C.is_wanted calls.old) earlier (C.moment calls.old)
        → put earlier ≡ None → (C.moment calls.old).noted ≡ true
        → Answers (C.is_wanted calls.old) earlier (C.moment calls.old)
        (C.moment calls.new) result }
{
    match calls.put_back(alloc) {
        Ok(true) => end_refused(alloc, calls, why),
        Ok(false) => {
            if let Err(error) = calls.leave(alloc) {
                return Err(FolderError::System(error));
            }
            Err(refusal(alloc, calls.path(), why))
        }
        Err(error) => Err(FolderError::System(error)),
    }
}

/// Removes the note of a path at which stands what stood there, and refuses as the system did, or
/// 13 where that did not refuse.
fn end_refused<C: PlaceCalls>(
    alloc: Global,
    calls: &mut C,
    why: Option<io::Error>,
) -> Result<(), FolderError>
    requires { C.stage calls.old ≡ Noted }
    ensures done { OnOk result (C.stage calls.new ≡ Done) }
    ensures refused { IfErr result (λ e. IsRefusedAt e (C.stage calls.new)) }
    ensures refuses { IsErr result }
    ensures folder { (earlier : List Act)
        → IsSafe (C.is_wanted calls.old) earlier (C.moment calls.old)
        → put earlier ≡ None → (C.moment calls.old).kept ≡ None
        → Answers (C.is_wanted calls.old) earlier (C.moment calls.old)
        (C.moment calls.new) result }
{
    if let Err(error) = calls.close(alloc) {
        return Err(FolderError::System(error));
    }
    Err(refusal(alloc, calls.path(), why))
}

/// Removes the note of what is done, if one stands.
fn end<C: PlaceCalls>(alloc: Global, calls: &mut C) -> Result<(), FolderError>
    requires { IsReady (C.is_wanted calls.old) (C.stage calls.old) }
    ensures done { OnOk result (C.stage calls.new ≡ Done) }
    ensures refused { IfErr result (λ e. IsRefusedAt e (C.stage calls.new)) }
    ensures folder { (earlier : List Act)
        → IsSafe (C.is_wanted calls.old) earlier (C.moment calls.old)
        → IsMade (C.is_wanted calls.old) earlier
        → Answers (C.is_wanted calls.old) earlier (C.moment calls.old)
        (C.moment calls.new) result }
    ensures kept { (C.moment calls.new).kept ≡ (C.moment calls.old).kept }
    ensures seen { C.seen calls.new ≡ C.seen calls.old }
{
    match calls.close(alloc) {
        Ok(()) => Ok(()),
        Err(error) => Err(FolderError::System(error)),
    }
}

/// Ends what a note tells of that an earlier run left. What was moved is put back, if its place is
/// free.
///
/// An error where a call of the system fails, or memory is refused. The note stands then.
pub(super) fn settle<C: PlaceCalls>(alloc: Global, calls: &mut C) -> io::Result<()>
    requires order { IsCutOff (C.stage calls.old) }
    requires lies { C.stage calls.old ≡ Moved → IsSome (C.moment calls.old).kept }
    ensures settled { OnOk result (IsSettled (C.stage calls.new)) }
    ensures folder { (earlier : List Act)
        → IsSafe (C.is_wanted calls.old) earlier (C.moment calls.old)
        → IsShown (C.is_wanted calls.old) (C.stage calls.old) earlier (C.moment calls.old)
        → Mends (C.is_wanted calls.old) earlier (C.moment calls.old) (C.moment calls.new) result }
{
    match calls.stage() {
        Stage::Moved => {}
        _ => return calls.close(alloc),
    }
    match calls.put_back(alloc) {
        Ok(true) => calls.close(alloc),
        Ok(false) => calls.leave(alloc),
        Err(error) => Err(error),
    }
}

/// What the system refused, or else that what is at the path is not what was read.
fn refusal(alloc: Global, path: &Path, why: Option<io::Error>) -> FolderError {
    match why {
        Some(error) => FolderError::System(error),
        None => changed(alloc, path),
    }
}

/// That what is at the path is not what was read.
pub(super) fn changed(alloc: Global, path: &Path) -> FolderError {
    match one_path(alloc, path) {
        Ok(paths) => FolderError::Changed(paths),
        Err(error) => error,
    }
}

/// The path alone.
fn one_path(alloc: Global, path: &Path) -> Result<Vec<Path>, FolderError>
    ensures { IfOk result (λ paths. paths.items ≡ path.now ∷ []) }
{
    let mut paths = Vec::new(alloc);
    paths.push(path.copy(alloc)?)?;
    Ok(paths)
}
