//! A record that is due for an item of the plan.
ghost use Rattle.std.specs.Prelude.{◌≡◌, ℕ, IfErr, MatchResult, option_map};
ghost use Rattle.syn_archive.specs.Archive.{SameMemory, disk_of, pair_of};
ghost use Rattle.syn_disk.specs.Arms.{is_stopped};
ghost use Rattle.syn_machine.specs.Machine.{Up};
ghost use Rattle.syn_coordinator.specs.RecordOutcome.{IsAsItWas, IsReady, Settles, CountsFailures};
ghost use Rattle.syn_coordinator.specs.RecordOutcome.{CountsFailuresOrStops};
ghost use Rattle.syn_coordinator.specs.Machines.{IsMachine, Journal};
ghost use Rattle.syn_coordinator.specs.inner.Recording.{Checkpoints, CountsFailuresIn};
ghost use Rattle.syn_coordinator.specs.inner.Recording.{IsOutcomeOf, IsUnmade, Leaves};
ghost use Rattle.syn_coordinator.specs.inner.Recording.{MakesRoomNow, Records};
ghost use Rattle.syn_mark.specs.Marks.{or_absent};
ghost use Rattle.syn_model.specs.Archive.{IsLawfulKept};
ghost use Rattle.syn_model.specs.Mark.{IsMarks};
ghost use Rattle.syn_image.specs.Archives.{kept_for};

use std::alloc::Global;
use syn_archive::{Archive, ArchiveError};
use syn_disk::Disk;
use syn_image::ItemRecord;
use syn_mark::MarkTree;
use syn_model::is_long;
use syn_refusal::Refusal;

/// What became of a record that was due.
#[derive(Clone, Copy, Debug, PartialEq, Eq)]
pub enum RecordOutcome {
    /// It is in the archive.
    Recorded,
    /// Its item is refused so.
    Refused(Refusal),
    /// The session ends for this, and no device call failed.
    Ends(Refusal),
    /// The session ends 9 before the record was sent to the disk: a device call of the checkpoint
    /// for it failed, or the machine was stopped then.
    Unsent,
    /// The session ends 9: the record was sent to the disk, and a device call failed or the machine
    /// was stopped before it was kept. The archive may have it when it is opened again.
    Tried,
}

/// Records in the archive what is due for an item; a directory that is recorded already is left as
/// it is. Where the record does not fit into the journal, one checkpoint makes room for it.
///
/// The item is refused as the archive refuses the record: 6 at the root, 2 where the parent is no
/// directory, 7 where the archive would pass a limit; and 7 where no checkpoint can be made.
/// The session ends 10 where the archive is halted, 9 where a device call fails or the machine is
/// stopped after the checkpoint, 8 where that leaves no room either, and 11 where memory is
/// refused. An item that is refused leaves the archive as it was. With 9 comes whether the record
/// was sent to the disk.
pub fn keep_due<D: Disk>(
    alloc: Global,
    archive: &mut Archive<D>,
    item_record: &ItemRecord,
) -> RecordOutcome
    ensures settles { (pair : ℕ) (machine : Journal) → IsMachine archive.old pair machine
        → Settles archive.new pair machine (kept_for item_record.now) result }
    ensures failures { CountsFailuresOrStops result
        (is_stopped (D.Disk.arms (disk_of archive.new)))
        (D.Disk.failures (disk_of archive.old)) (D.Disk.failures (disk_of archive.new)) }
    ensures refused { (why : Refusal) → result ≡ RecordOutcome.Refused why
        → IsAsItWas archive.old archive.new }

    // It ends 11 only where the archive is neither halted nor refuses the record.
    ensures memory { (pair : ℕ) (machine : Journal) → IsMachine archive.old pair machine
        → result ≡ RecordOutcome.Ends Refusal.Memory → IsReady machine (kept_for item_record.now) }
    ensures pair { pair_of archive.new ≡ pair_of archive.old }
{
    if let Some(outcome) = record(alloc, archive, item_record) {
        return outcome;
    }
    if let Err(outcome) = make_room(alloc, archive) {
        return outcome;
    }
    match record(alloc, archive, item_record) {
        Some(outcome) => outcome,
        None => RecordOutcome::Ends(Refusal::JournalFull),
    }
}

/// Tries to record it. None means that the journal has no room for the record.
fn record<D: Disk>(
    alloc: Global,
    archive: &mut Archive<D>,
    item_record: &ItemRecord,
) -> Option<RecordOutcome>
    ensures records { (pair : ℕ) (machine : Journal) → IsMachine archive.old pair machine
        → Records archive.new pair machine (kept_for item_record.now) result }
    ensures failures { CountsFailuresIn result (D.Disk.failures (disk_of archive.old))
        (D.Disk.failures (disk_of archive.new)) }
    ensures leaves { Leaves archive.old archive.new (kept_for item_record.now) result }
    ensures pair { pair_of archive.new ≡ pair_of archive.old }
{
    is_lawful(item_record);
    match item_record {
        ItemRecord::Record(path, marks) => outcome_of(archive.record(alloc, path, marks.as_ref())),
        ItemRecord::Dir(path) => outcome_of(archive.record_dir(alloc, path)),
    }
}

/// What became of a record that the archive was asked for; nothing where its journal has no room.
fn outcome_of(recorded: Result<(), ArchiveError>) -> Option<RecordOutcome>
    ensures { IsOutcomeOf recorded result }
{
    let Err(error) = recorded else {
        return Some(RecordOutcome::Recorded);
    };
    match error {
        ArchiveError::JournalFull => None,
        ArchiveError::Device => Some(RecordOutcome::Tried),
        ArchiveError::NoParent | ArchiveError::Root | ArchiveError::Full => Some(
            RecordOutcome::Refused(error.refusal()),
        ),
        _ => Some(RecordOutcome::Ends(error.refusal())),
    }
}

/// It can be kept in an archive, if the archive does not refuse it.
fn is_lawful(item_record: &ItemRecord)
    ensures { IsLawfulKept (kept_for item_record.now) }
{
    match item_record {
        ItemRecord::Record(path, marks) => {
            let _ = path.names();
            are_lawful(marks.as_ref());
        }
        ItemRecord::Dir(path) => {
            let _ = path.names();
        }
    }
}

/// They are marks, or none.
fn are_lawful(marks: Option<&MarkTree>)
    ensures { IsMarks (or_absent (option_map (λ there. there.now) marks.entry)) }
{
    match marks {
        None => {}
        Some(there) => {
            let _ = there.as_slice();
        }
    }
}

/// Writes a checkpoint, so that the journal has room again. Where none is written, the error is
/// what becomes of the record.
fn make_room<D: Disk>(alloc: Global, archive: &mut Archive<D>) -> Result<(), RecordOutcome>
    ensures room { (pair : ℕ) (machine : Journal) → IsMachine archive.old pair machine
        → machine.status ≡ Up → MakesRoomNow archive.new pair machine result }
    ensures failures { MatchResult result
        (λ _. D.Disk.failures (disk_of archive.new) ≡ D.Disk.failures (disk_of archive.old))
        (λ outcome. CountsFailuresOrStops outcome (is_stopped (D.Disk.arms (disk_of archive.new)))
        (D.Disk.failures (disk_of archive.old)) (D.Disk.failures (disk_of archive.new))) }
    ensures refused { IfErr result (λ outcome. (why : Refusal) → outcome ≡ RecordOutcome.Refused why
        → IsAsItWas archive.old archive.new) }
    ensures memory { SameMemory archive.old archive.new }
{
    checkpoint(alloc, archive)?;
    if archive.is_cut() {
        return Err(RecordOutcome::Unsent);
    }
    Ok(())
}

/// Writes a checkpoint. Where none is written, the error is what becomes of the record.
fn checkpoint<D: Disk>(alloc: Global, archive: &mut Archive<D>) -> Result<(), RecordOutcome>
    ensures made { (pair : ℕ) (machine : Journal) → IsMachine archive.old pair machine
        → machine.status ≡ Up → Checkpoints archive.new pair machine result }
    ensures failures { MatchResult result
        (λ _. D.failures (disk_of archive.new) ≡ D.failures (disk_of archive.old))
        (λ outcome. CountsFailures outcome (D.failures (disk_of archive.old))
        (D.failures (disk_of archive.new))) }
    ensures refused { IfErr result (λ outcome. (why : Refusal) → outcome ≡ RecordOutcome.Refused why
        → IsAsItWas archive.old archive.new) }
    ensures memory { SameMemory archive.old archive.new }
{
    let generation = archive.generation();
    is_long(generation);
    match archive.checkpoint(alloc) {
        Ok(()) => Ok(()),
        Err(error) => Err(without_checkpoint(error)),
    }
}

/// What becomes of a record for which the archive refuses a checkpoint so.
fn without_checkpoint(error: ArchiveError) -> RecordOutcome
    ensures { IsUnmade error result }
{
    match error {
        ArchiveError::Full => RecordOutcome::Refused(Refusal::Full),
        ArchiveError::Device => RecordOutcome::Unsent,
        _ => RecordOutcome::Ends(error.refusal()),
    }
}
