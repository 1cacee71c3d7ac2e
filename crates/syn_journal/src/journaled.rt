//! A state in memory that a journal keeps on a disk.
ghost use Rattle.std.specs.Prelude.{◌≡◌, ◌⊎◌, ◌↔◌, ◌<◌, ℕ, None, Some, length, true, IfOk, IfErr};
ghost use Rattle.std.specs.Prelude.{MatchResult};
ghost use Rattle.syn_disk.specs.Armed.{armed};
ghost use Rattle.syn_disk.specs.Arms.{is_stopped};
ghost use Rattle.syn_disk.specs.Disk.{SameOutcomes};
ghost use Rattle.syn_journal.specs.Journal as journal;
ghost use Rattle.syn_journal.specs.Journal.{SameReadings};
ghost use Rattle.syn_journal.specs.Layout.{Value, image_alone, longest_image};
ghost use Rattle.syn_journal.specs.Refusals.{IsFormatRefusal};
ghost use Rattle.syn_machine.specs.Machine as model;
ghost use Rattle.syn_journal.specs.Endings.{Spends, ended};
ghost use Rattle.syn_journal.specs.Openings.{IsOfJournal};
ghost use Rattle.syn_model.specs.Refusal.{Device, Memory};

use crate::state::State;
use crate::{Journal, JournalError, layout_laws};
use std::alloc::Global;
use syn_disk::{Arm, Disk, Limit};

mod batch;
mod migrate;
mod open;

/// A state in memory, with the journal that keeps it on a disk through any stop.
#[derive(Drop)]
pub struct Journaled<D: Disk, S> {
    journal: Journal<D>,
    state: S,
}

impl<D: Disk, S: State + Drop> Journaled<D, S> {
    ghost use Rattle.syn_journal.specs.Journaled.{journal_of, state_of, disk_of, room_of};
    ghost use Rattle.syn_journal.specs.Journaled.{generation_of, IsHalted, Appends, Compacts};
    ghost use Rattle.syn_journal.specs.Machines.{Adds, IsMachine, WritesImage, WritesRecord};

    /// Formats the disk with the image of the state, and no payload.
    ///
    /// Refused 7 where the image is too long, 11 where memory is refused, and 9 where a device call
    /// fails; the disk comes back. A stop during the call may leave a disk that opens to what it
    /// held before, to the state, or to none.
    pub fn format(alloc: Global, disk: D, state: S) -> Result<Journaled<D, S>, (S::Error, D)>
        ensures formatted { IfOk result (λ machine.
            journal.Stands (journal_of machine) (image_alone (S.spelling state))) }
        ensures state { IfOk result (λ machine. state_of machine ≡ state) }
        ensures generation { IfOk result (λ machine. generation_of machine ≡ 1) }
        ensures refusals { IfErr result (λ refused. (by : JournalError)
            × (refused.0 ≡ S.of_journal by) × IsFormatRefusal by
            × (by ≡ JournalError.Full → longest_image < length (S.spelling state))) }
        ensures unchanged { IfErr result (λ refused. (S.why refused.0 ≡ Device)
            ⊎ (refused.1 ≡ disk)) }

        // Seven device calls where it succeeds.
        ensures device { MatchResult result
            (λ machine. Spends D.Disk 7 None disk (disk_of machine))
            (λ refused. Spends D.Disk 7 (Some (S.why refused.0)) disk refused.1) }
    {
        let Some(image) = state.image(alloc) else {
            return Err((S::refused(JournalError::Memory), disk));
        };
        match Journal::format(alloc, disk, &image) {
            Ok(journal) => Ok(Journaled { journal, state }),
            Err((error, disk)) => Err((S::refused(error), disk)),
        }
    }

    /// The state, as it stands in memory.
    pub fn state(&self) -> &S
        ensures { result.now ≡ state_of self.now }
    {
        &self.state
    }

    /// The generation of the journal's current half: 1 after `format`.
    pub fn generation(&self) -> u64
        ensures { result ≡ generation_of self.now }
    {
        self.journal.generation()
    }

    /// The length of the longest payload that still fits in the journal, or 0 where none does.
    pub fn room(&self) -> usize
        ensures { result ≡ room_of self.now }
    {
        self.journal.room()
    }

    /// Whether each change is refused 10: a device call failed, or a reopening gave no state that
    /// may follow, and none succeeded since.
    pub fn is_halted(&self) -> bool
        ensures { (result ≡ true) ↔ IsHalted self.now }
    {
        self.journal.is_halted()
    }

    /// Whether its machine has stopped, so that no device call is made any more.
    pub fn is_cut(&self) -> bool
        ensures { result ≡ is_stopped (D.Disk.arms (disk_of self.now)) }
    {
        self.journal.is_cut()
    }

    /// The disk, as the last call left it.
    pub fn into_disk(self) -> D
        ensures { result ≡ disk_of self }
    {
        self.journal.into_disk()
    }

    /// Appends the payload, and then makes the update.
    ///
    /// Refused 10 while the machine is halted, 8 where the record does not fit in the journal, 11
    /// where memory is refused, and 9 where a device call fails. After 9 the machine is halted;
    /// after any refusal the state is as it was.
    pub fn write(
        &mut self,
        alloc: Global,
        payload: &[u8],
        update: S::Update,
    ) -> Result<(), S::Error>
        requires { S.ready (state_of self.old) update }
        ensures journal { Appends (journal_of self.old) (journal_of self.new) payload.now
            (ended S.why result) }
        ensures answer { IfErr result (IsOfJournal S.of_journal S.why) }
        ensures state { MatchResult result
            (λ _. S.makes (state_of self.old) update (state_of self.new))
            (λ _. state_of self.new ≡ state_of self.old) }

        // What it is to the model's machine, also where its device fails or stops.
        ensures world { (number : ℕ) (machine : model.Journaled S.Kept S.Added)
            (added : S.Added) → IsMachine (S.kept_as number) self.old machine
            → Adds (S.kept_as number) machine added payload.now (S.makes (state_of self.old) update)
            → WritesRecord (S.kept_as number) self.new machine added (ended S.why result) }
    {
        S::keeping_laws();
        layout_laws();
        self.append_to_journal(alloc, payload, update)
    }

    /// The write, as its journal makes it.
    fn append_to_journal(
        &mut self,
        alloc: Global,
        payload: &[u8],
        update: S::Update,
    ) -> Result<(), S::Error>
        requires { S.ready (state_of self.old) update }
        ensures journal { Appends (journal_of self.old) (journal_of self.new) payload.now
            (ended S.why result) }
        ensures answer { IfErr result (IsOfJournal S.of_journal S.why) }
        ensures state { MatchResult result
            (λ _. S.makes (state_of self.old) update (state_of self.new))
            (λ _. state_of self.new ≡ state_of self.old) }
    {
        match self.journal.append(alloc, payload) {
            Ok(()) => {
                self.state.make(update);
                Ok(())
            }
            Err(error) => Err(S::refused(error)),
        }
    }

    /// Writes the state as one image, so that the journal has room again.
    ///
    /// Refused 10 while the machine is halted, 7 where the generation is the greatest that can be
    /// written or the image is too long, 11 where memory is refused, and 9 where a device call
    /// fails. After 9 the machine is halted; the state stays in each case.
    pub fn checkpoint(&mut self, alloc: Global) -> Result<(), S::Error>
        ensures journal { Compacts (journal_of self.old) (journal_of self.new)
            (S.spelling (state_of self.old)) (ended S.why result) }
        ensures answer { IfErr result (IsOfJournal S.of_journal S.why) }
        ensures state { state_of self.new ≡ state_of self.old }

        // What it is to the model's machine, also where its device fails or stops.
        ensures world { (number : ℕ) (machine : model.Journaled S.Kept S.Added)
            → IsMachine (S.kept_as number) self.old machine
            → WritesImage (S.kept_as number) self.new machine (ended S.why result) }
    {
        S::keeping_laws();
        self.checkpoint_journal(alloc)
    }

    /// The checkpoint, as its journal makes it.
    fn checkpoint_journal(&mut self, alloc: Global) -> Result<(), S::Error>
        ensures journal { Compacts (journal_of self.old) (journal_of self.new)
            (S.spelling (state_of self.old)) (ended S.why result) }
        ensures answer { IfErr result (IsOfJournal S.of_journal S.why) }
        ensures state { state_of self.new ≡ state_of self.old }
    {
        if self.journal.is_halted() {
            return Err(S::refused(JournalError::Halted));
        }
        if self.journal.generation() == u64::MAX {
            return Err(S::refused(JournalError::Full));
        }
        let Some(image) = self.state.image(alloc) else {
            return Err(S::refused(JournalError::Memory));
        };
        match self.journal.checkpoint(alloc, &image) {
            Ok(()) => Ok(()),
            Err(error) => Err(S::refused(error)),
        }
    }
}

impl<D: Limit, S> Journaled<D, S> {
    ghost use Rattle.syn_journal.specs.Journaled.{journal_of, state_of, disk_of};

    /// Arms the machine's disk. It takes the place of an arm of its kind that is still to come.
    pub fn arm(&mut self, arm: Arm)
        ensures arms { D.Disk.arms (disk_of self.new) ≡ armed (D.Disk.arms (disk_of self.old)) arm }

        // It changes nothing that a read gives or a stop leaves.
        ensures seen { D.Disk.seen (disk_of self.new) ≡ D.Disk.seen (disk_of self.old) }
        ensures stop { SameOutcomes (D.Disk.may_leave (disk_of self.old))
            (D.Disk.may_leave (disk_of self.new)) }
        ensures moment { D.Disk.moment (disk_of self.new) ≡ D.Disk.moment (disk_of self.old) }
        ensures past { (t : ℕ) → SameOutcomes (D.Disk.left_since (disk_of self.old) t)
            (D.Disk.left_since (disk_of self.new) t) }
        ensures failures { D.Disk.failures (disk_of self.new) ≡ D.Disk.failures (disk_of self.old) }
        ensures stands { (value : Value) → journal.Stands (journal_of self.old) value
            → journal.Stands (journal_of self.new) value }
        ensures readings { SameReadings (journal_of self.old) (journal_of self.new) }
        ensures state { state_of self.new ≡ state_of self.old }
    {
        self.journal.arm(arm);
    }
}
