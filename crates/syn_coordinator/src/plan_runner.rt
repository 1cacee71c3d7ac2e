//! What goes through the plan of a session, over the archive of a coordinator.
ghost use Rattle.std.specs.Prelude.{◌≡◌, ◌≢◌, ◌∷◌, ◌++◌, ◌+◌, ◌<◌, ◌^◌, ◌⊎◌, [], ℕ, Err};
ghost use Rattle.std.specs.Prelude.{IfErr, IfOk, MatchResult, None, Option, OnOk, Some, false};
ghost use Rattle.std.specs.Prelude.{map, option_map, true};
ghost use Rattle.syn_archive.specs.Archive.{IsHalted, disk_of, session_shown};
ghost use Rattle.syn_coordinator.specs.Machines.{IsMachine, Journal};
ghost use Rattle.syn_coordinator.specs.RecordOutcome.{Settles, TriesBy};
ghost use Rattle.syn_coordinator.specs.Steps.{KeepsSo};
ghost use Rattle.syn_coordinator.specs.Tries.{HoldsTried, found_in};
ghost use Rattle.syn_coordinator.specs.declared.tried.TriedRecord.{TriedRecord};
ghost use Rattle.syn_coordinator.specs.inner.Advancing.{kept_by};
ghost use Rattle.syn_disk.specs.Arms.{is_stopped};
ghost use Rattle.syn_machine.specs.Machine.{Halted, Up};
ghost use Rattle.syn_image.specs.Archives.{kept_for, kept_of};
ghost use Rattle.syn_model.specs.Archive.{Session as Begun};
ghost use Rattle.syn_coordinator.specs.Refusals.{CountsFailures};

use crate::{RecordOutcome, StartError, TriedRecord, keep_due, recovered_record};
use std::alloc::{AllocError, Global};
use syn_archive::{Archive, ArchiveError};
use syn_disk::Disk;
use syn_image::{ItemRecord, Kept};
use syn_refusal::Refusal;

mod carrying;
mod taking;
mod walk;

/// What goes through the plan of a session, item by item, over the archive of a coordinator: it
/// records there what is due for an item. It tells what the last call that could write wrote.
#[derive(Drop)]
pub(crate) struct PlanRunner<D: Disk> {
    pub(crate) archive: Archive<D>,
    written: Vec<Kept>,
    /// What was tried last and not kept, until the archive is opened again.
    tried: Option<TriedRecord>,
    in_doubt: InDoubt,
}

/// The record in doubt: the last writing call sent it to the disk, and a device call failed or the
/// machine stopped before it was kept. The archive may have it when it is opened again.
#[derive(Drop)]
pub(crate) enum InDoubt {
    /// There is none.
    Nothing,
    /// It is the record in `tried`.
    AsTried,
    /// This copy, which was made when the archive was opened again.
    Copied(Kept),
}

impl<D: Disk> PlanRunner<D> {
    ghost use Rattle.syn_coordinator.specs.PlanRunners.{in_doubt, in_doubt_by, written};
    ghost use Rattle.syn_coordinator.specs.inner.Advancing.{BreaksBy};

    /// The archive, into which nothing was written yet. It takes no memory.
    pub(crate) fn new(alloc: Global, archive: Archive<D>) -> PlanRunner<D>
        ensures archive { result.archive ≡ archive }
        ensures written { written result ≡ [] }
        ensures in_doubt { in_doubt result ≡ None }
        ensures tried { result.tried ≡ None }
    {
        PlanRunner {
            archive,
            written: Vec::new(alloc),
            tried: None,
            in_doubt: InDoubt::Nothing,
        }
    }

    /// The archive, and what was tried and not kept.
    pub(crate) fn into_parts(self) -> (Archive<D>, Option<TriedRecord>)
        ensures archive { result.0 ≡ self.archive }
        ensures tried { result.1 ≡ self.tried }
    {
        drop(self.written);
        (self.archive, self.tried)
    }

    /// What the last call that could write wrote, in order, and the record in doubt.
    pub(crate) fn kept(&self) -> (&[Kept], Option<&Kept>)
        ensures written { map kept_of result.0.now ≡ written self.now }
        ensures in_doubt { option_map (λ kept. kept_of kept.now) result.1 ≡ in_doubt self.now }
    {
        (&self.written, self.in_doubt())
    }

    /// The record in doubt.
    fn in_doubt(&self) -> Option<&Kept>
        ensures { option_map (λ kept. kept_of kept.now) result ≡ in_doubt self.now }
    {
        match &self.in_doubt {
            InDoubt::Nothing => None,
            InDoubt::AsTried => Some(self.tried.as_ref()?.kept()),
            InDoubt::Copied(kept) => Some(kept),
        }
    }

    /// The record that was being written as a device call failed or the machine stopped, until the
    /// archive is opened again.
    pub(crate) fn tried(&self) -> Option<&TriedRecord>
        ensures { option_map (λ tried. tried.now) result ≡ self.now.tried }
    {
        self.tried.as_ref()
    }

    /// A call begins that can write: what the one before wrote is told no more.
    pub(crate) fn forget(&mut self, alloc: Global)
        ensures archive { self.new.archive ≡ self.old.archive }
        ensures tried { self.new.tried ≡ self.old.tried }
        ensures written { written self.new ≡ [] }
        ensures whole { in_doubt self.new ≡ None }
    {
        self.written = Vec::new(alloc);
        self.in_doubt = InDoubt::Nothing;
    }

    /// Keeps the number of the next session in the archive. Refused 9 where a device call fails,
    /// and 11 where memory is refused.
    pub(crate) fn keep_session(&mut self, alloc: Global, number: u64) -> Result<(), StartError>
        requires up { ¬ IsHalted self.old.archive }
        requires fits { session_shown self.old.archive + 1 < 2 ^ 64 }
        requires number { number ≡ session_shown self.old.archive + 1 }
        ensures ok { (pair : ℕ) (journal : Journal) → IsMachine self.old.archive pair journal
            → OnOk result (KeepsSo self.new.archive pair journal (Begun number)
            (Begun number ∷ []) Up) }
        ensures device { (pair : ℕ) (journal : Journal) → IsMachine self.old.archive pair journal
            → result ≡ Err StartError.Device
            → KeepsSo self.new.archive pair journal (Begun number) [] Halted }
        ensures memory { (pair : ℕ) (journal : Journal) → IsMachine self.old.archive pair journal
            → IfErr result (λ e. (e ≡ StartError.Device)
            ⊎ ((e ≡ StartError.Memory) × IsMachine self.new.archive pair journal)) }
        ensures failures { MatchResult result
            (λ _. D.failures (disk_of self.new.archive) ≡ D.failures (disk_of self.old.archive))
            (λ e. CountsFailures e (D.failures (disk_of self.old.archive))
            (D.failures (disk_of self.new.archive))) }
        ensures written { OnOk result (written self.new ≡ Begun number ∷ []) }
        ensures whole { OnOk result (in_doubt self.new ≡ None) }
        ensures untried { OnOk result (self.new.tried ≡ self.old.tried) }
        ensures breaks { result ≡ Err StartError.Device → (written self.new ≡ [])
            × (in_doubt self.new ≡ Some (Begun number))
            × HoldsTried self.new.archive (Begun number) self.new.tried }
        ensures stays { IfErr result (λ e. e ≢ StartError.Device
            → (written self.new ≡ written self.old) × (in_doubt self.new ≡ in_doubt self.old)
            × (self.new.tried ≡ self.old.tried)) }
    {
        let mut records = Vec::new(alloc);
        records.push(Kept::Session(number))?;
        match self.archive.next_session(alloc) {
            Ok(_) => {
                self.written = records;
                self.in_doubt = InDoubt::Nothing;
                Ok(())
            }
            Err(error) => Err(self.not_begun(alloc, error, number)),
        }
    }

    /// What a session is refused whose number was not kept. After a device call that failed, it is
    /// what was tried last.
    fn not_begun(&mut self, alloc: Global, error: ArchiveError, number: u64) -> StartError
        ensures archive { self.new.archive ≡ self.old.archive }
        ensures device { result ≡ StartError.Device → (error ≡ ArchiveError.Device)
            × (self.new.written.items ≡ []) × (self.new.in_doubt ≡ InDoubt.AsTried)
            × HoldsTried self.new.archive (Begun number) self.new.tried }
        ensures other { (result ≡ StartError.Device) ⊎ ((result ≡ StartError.Memory)
            × (error ≢ ArchiveError.Device) × (self.new ≡ self.old)) }
    {
        match error {
            ArchiveError::Device => {
                self.written = Vec::new(alloc);
                self.tried = Some(TriedRecord::new(Kept::Session(number), &self.archive));
                self.in_doubt = InDoubt::AsTried;
                StartError::Device
            }
            // What else refuses a session was looked at before.
            _ => StartError::Memory,
        }
    }

    /// Keeps what is due in the archive, and tells it among what was written, or as in doubt. The
    /// session ends 11 where memory is refused.
    pub(crate) fn keep(&mut self, alloc: Global, item_record: ItemRecord) -> RecordOutcome
        ensures settles { (pair : ℕ) (journal : Journal)
            → IsMachine self.old.archive pair journal
            → Settles self.new.archive pair journal (kept_for item_record) result }
        ensures written { written self.new ≡ written self.old ++ kept_by (kept_for item_record)
            result }
        ensures tried { TriesBy self.new.archive (kept_for item_record) self.old.tried
            self.new.tried result }
        ensures breaks { BreaksBy self.old self.new result }
    {
        if self.written.reserve(1).is_err() {
            drop(item_record);
            return RecordOutcome::Ends(Refusal::Memory);
        }
        let outcome = keep_due(alloc, &mut self.archive, &item_record);
        match outcome {
            RecordOutcome::Recorded => self.written.push_reserved(Kept::from(item_record)),
            RecordOutcome::Refused(_) => drop(item_record),
            RecordOutcome::Tried => {
                self.tried = Some(TriedRecord::new(Kept::from(item_record), &self.archive));
                self.in_doubt = InDoubt::AsTried;
            }
            RecordOutcome::Ends(_) => drop(item_record),
            RecordOutcome::Unsent => drop(item_record),
        }
        outcome
    }

    /// A copy of the record in doubt. Refused where memory is refused.
    pub(crate) fn copy_in_doubt(&self, alloc: Global) -> Result<InDoubt, AllocError>
        ensures { IfOk result (λ copy. (tried : Option TriedRecord)
            → in_doubt_by copy tried ≡ in_doubt self.now) }
    {
        let Some(kept) = self.in_doubt() else {
            return Ok(InDoubt::Nothing);
        };
        Ok(InDoubt::Copied(kept.copy(alloc)?))
    }

    /// Answers the tried record where the archive, which was opened again, has it, and forgets what
    /// was tried. The copy stays as what `kept` tells. On a stopped machine it does nothing.
    pub(crate) fn recovered(&mut self, copy: InDoubt) -> Option<Kept>
        requires copy { (tried : Option TriedRecord)
            → in_doubt_by copy tried ≡ in_doubt self.old }
        ensures goes { is_stopped (D.Disk.arms (disk_of self.new.archive)) ≡ false
            → (self.new.tried ≡ None) × (option_map kept_of result
            ≡ found_in self.old.tried self.new.archive) }
        ensures stopped { is_stopped (D.Disk.arms (disk_of self.new.archive)) ≡ true
            → (self.new.tried ≡ self.old.tried)
            × (option_map kept_of result ≡ None) }
        ensures archive { self.new.archive ≡ self.old.archive }
        ensures written { written self.new ≡ written self.old }
        ensures in_doubt { in_doubt self.new ≡ in_doubt self.old }
    {
        if self.archive.is_cut() {
            drop(copy);
            return None;
        }
        self.in_doubt = copy;
        recovered_record(self.tried.take(), &self.archive)
    }
}
