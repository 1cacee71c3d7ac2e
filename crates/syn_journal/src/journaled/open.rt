//! An opening: a machine finds out what a disk, or its own, gives.
ghost use Rattle.std.specs.Prelude.{◌≡◌, ◌≢◌, ◌⊎◌, ◌<◌, ◌^◌, ℕ, None, Some, Option, true, false};
ghost use Rattle.std.specs.Prelude.{IfOk, IfErr};
ghost use Rattle.std.specs.Prelude.{OnOk, MatchResult};
ghost use Rattle.syn_machine.specs.Machine as model;
ghost use Rattle.syn_journal.specs.Journal as journal;
ghost use Rattle.syn_journal.specs.Layout.{Value};
ghost use Rattle.syn_journal.specs.Journal.{Shows};
ghost use Rattle.syn_journal.specs.Endings.{Reads, ended};
ghost use Rattle.syn_journal.specs.Openings.{NotOpened};
ghost use Rattle.syn_model.specs.Refusal.{Device, Memory};

use super::Journaled;
use crate::state::State;
use crate::{Journal, JournalCursor, Opened};
use std::alloc::Global;
use syn_disk::Disk;
use syn_refusal::Refusal;

impl<D: Disk, S: State + Drop> Journaled<D, S> {
    ghost use Rattle.syn_journal.specs.Journaled.{journal_of, state_of, disk_of, IsHalted};
    ghost use Rattle.syn_journal.specs.Journaled.{Opened as IsOpened, KeepsReadings, ShowsDisk};
    ghost use Rattle.syn_journal.specs.Machines.{IsMachine, ReadsDisk, Rests, RestsStill, Starts};

    /// Opens what the disk holds, of the wanted pair, or of any.
    ///
    /// Refused as the journal is opened, and as the state is not read; the disk comes back. Nothing
    /// is written.
    pub fn open(
        alloc: Global,
        disk: D,
        wanted: Option<u64>,
    ) -> Result<Journaled<D, S>, (S::Error, D)>
        ensures opened { IfOk result (IsOpened S.pair S.gives (D.seen disk)) }
        ensures wanted { IfOk result (λ machine. (asked : ℕ) → wanted ≡ Some asked
            → asked ≡ S.pair (state_of machine)) }
        ensures refused { IfErr result (λ refused.
            NotOpened S.of_journal (S.unread refused.0 wanted) refused.0 (D.seen disk)) }
        ensures device { MatchResult result
            (λ machine. Reads D.Disk None disk (disk_of machine))
            (λ refused. Reads D.Disk (Some (S.why refused.0)) disk refused.1) }

        // What it is to the model's machine of the wanted pair, which was down.
        ensures world { (number : ℕ) (machine : model.Journaled S.Kept S.Added)
            → wanted ≡ Some number → number < 2 ^ 64
            → Rests D.arms D.may_leave (S.kept_as number).keeping disk machine
            → MatchResult result (λ made. Starts (S.kept_as number) made machine)
            (λ refused. RestsStill D.arms D.may_leave (S.kept_as number).keeping refused.1 machine
            (S.why refused.0)) }
    {
        S::keeping_laws();
        let opened = match Journal::open(alloc, disk) {
            Ok(opened) => opened,
            Err((error, disk)) => return Err((S::refused(error), disk)),
        };
        let Opened { journal, contents } = opened;
        match S::read(alloc, &contents.image, &contents.payloads, wanted) {
            Ok(state) => Ok(Journaled { journal, state }),
            Err(error) => Err((error, journal.into_disk())),
        }
    }

    /// Opens the machine's own disk again. A machine that was halted runs again.
    ///
    /// Refused as the journal is opened, and as no state is read that may follow this one. After 11
    /// the machine is as it was, halted or not; after any other refusal it is halted. One that was
    /// halted then shows what it showed. Nothing is written.
    pub fn reopen(&mut self, alloc: Global) -> Result<(), S::Error>
        ensures opened { OnOk result
            (IsOpened S.pair S.gives (D.seen (disk_of self.old)) self.new) }
        ensures follows { OnOk result (S.follows (state_of self.old) (state_of self.new)) }
        ensures refused { IfErr result (λ e. NotOpened S.of_journal
            (S.unread_again e (state_of self.old)) e (D.seen (disk_of self.old))) }

        // What stays after a refusal.
        ensures state { IfErr result (λ _. state_of self.new ≡ state_of self.old) }
        ensures halts { IfErr result (λ e. S.why e ≢ Memory → IsHalted self.new) }
        ensures halted { IfErr result (λ _. IsHalted self.old → IsHalted self.new) }
        ensures readings { IfErr result (λ _. KeepsReadings self.old self.new
            ⊎ ShowsDisk self.new) }
        ensures room { (value : Value) → journal.Stands (journal_of self.old) value
            → IfErr result (λ _. KeepsReadings self.old self.new) }
        ensures remembers { IsHalted self.old
            → IfErr result (λ _. KeepsReadings self.old self.new) }
        ensures unchanged { (value : Value) → journal.Stands (journal_of self.old) value
            → S.gives value.image value.payloads (state_of self.old) → IfErr result (λ e.
            (S.why e ≡ Device) ⊎ journal.Stands (journal_of self.new) value) }

        ensures device { Reads D.Disk (ended S.why result) (disk_of self.old)
            (disk_of self.new) }

        // What it is to the model's machine, also where its device fails or stops.
        ensures world { (number : ℕ) (machine : model.Journaled S.Kept S.Added)
            → IsMachine (S.kept_as number) self.old machine
            → ReadsDisk (S.kept_as number) self.new machine (ended S.why result) }
    {
        S::keeping_laws();
        self.reopen_journal(alloc)
    }

    /// The reopening, as its journal makes it.
    fn reopen_journal(&mut self, alloc: Global) -> Result<(), S::Error>
        ensures opened { OnOk result
            (IsOpened S.pair S.gives (D.seen (disk_of self.old)) self.new) }
        ensures follows { OnOk result (S.follows (state_of self.old) (state_of self.new)) }
        ensures refused { IfErr result (λ e. NotOpened S.of_journal
            (S.unread_again e (state_of self.old)) e (D.seen (disk_of self.old))) }

        // What stays after a refusal.
        ensures state { IfErr result (λ _. state_of self.new ≡ state_of self.old) }
        ensures halts { IfErr result (λ e. S.why e ≢ Memory → IsHalted self.new) }
        ensures halted { IfErr result (λ _. IsHalted self.old → IsHalted self.new) }
        ensures readings { IfErr result (λ _. KeepsReadings self.old self.new
            ⊎ ShowsDisk self.new) }
        ensures room { (value : Value) → journal.Stands (journal_of self.old) value
            → IfErr result (λ _. KeepsReadings self.old self.new) }
        ensures remembers { IsHalted self.old
            → IfErr result (λ _. KeepsReadings self.old self.new) }
        ensures unchanged { (value : Value) → journal.Stands (journal_of self.old) value
            → S.gives value.image value.payloads (state_of self.old) → IfErr result (λ e.
            (S.why e ≡ Device) ⊎ journal.Stands (journal_of self.new) value) }

        ensures device { Reads D.Disk (ended S.why result) (disk_of self.old)
            (disk_of self.new) }
    {
        let was_halted = self.journal.is_halted();
        let cursor = self.journal.cursor();
        let contents = match self.journal.reopen(alloc) {
            Ok(contents) => contents,
            Err(error) => return Err(S::refused(error)),
        };
        match self
            .state
            .read_again(alloc, &contents.image, &contents.payloads)
        {
            Ok(state) => {
                self.state = state;
                Ok(())
            }
            Err(error) => {
                self.halt_after_refusal(was_halted, cursor, &error);
                Err(error)
            }
        }
    }

    /// Undoes a reopening whose state was not taken. A machine that was halted before is halted
    /// again at the cursor. One that ran goes on where memory was refused, and halts after any
    /// other refusal.
    fn halt_after_refusal(&mut self, was_halted: bool, cursor: JournalCursor, error: &S::Error)
        ensures halted { was_halted ≡ true → IsHalted self.new }
        ensures halts { S.why error.now ≢ Memory → IsHalted self.new }
        ensures goes_on { was_halted ≡ false → S.why error.now ≡ Memory → self.new ≡ self.old }
        ensures disk { disk_of self.new ≡ disk_of self.old }
        ensures state { state_of self.new ≡ state_of self.old }
        ensures shows { was_halted ≡ true → Shows (journal_of self.new) cursor }
        ensures readings { was_halted ≡ false → KeepsReadings self.old self.new }
    {
        if was_halted {
            self.journal.halt_at(cursor);
            return;
        }
        match S::refusal(error) {
            Refusal::Memory => {}
            _ => self.journal.halt(),
        }
    }
}
