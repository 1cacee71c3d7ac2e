//! An archive over a journal.
ghost use Rattle.std.specs.Prelude.{◌≡◌, ◌⊎◌, ◌↔◌, ◌+◌, ◌<◌, ◌≤◌, ℕ, length, OnOk, IfOk, IfErr};
ghost use Rattle.std.specs.Prelude.{IsErrAnd, MatchResult, None, Some, true, false};
ghost use Rattle.syn_model.specs.Archive.{Archive as KeptArchive, Session, RecordedDir};
ghost use Rattle.syn_model.specs.Archive.{new_archive, after_kept, kept_refusal};
ghost use Rattle.syn_model.specs.Refusal.{Refusal};
ghost use Rattle.std.specs.FinMap.{entries};
ghost use Rattle.syn_model.specs.Tree.{is_directory};
ghost use Rattle.syn_placed.specs.Pairs.{within};
ghost use Rattle.syn_archive.specs.Disks.{DiskKeeps};
ghost use Rattle.syn_model.specs.Path.{Bytes, is_root};
ghost use Rattle.syn_journal.specs.Journal.{SameReadings};
ghost use Rattle.syn_disk.specs.Armed.{armed};
ghost use Rattle.syn_disk.specs.Arms.{is_stopped};
ghost use Rattle.syn_disk.specs.Disk.{SameOutcomes};
ghost use Rattle.syn_model.specs.MarkSpelling.{kept_spelling};
ghost use Rattle.syn_archive.specs.Keepings.{recorded_at};
ghost use Rattle.syn_image.specs.Archives.{kept_for};
ghost use Rattle.syn_disk.specs.Stops.{LeavesOnly};
ghost use Rattle.syn_archive.specs.Refusals.{refusal_of, refusal_in, keep_refusal, to_write};
ghost use Rattle.syn_archive.specs.Refusals.{IsOfFormat, IsOfSession, IsOfRecord, IsOutside};
ghost use Rattle.syn_archive.specs.inner.Agreements.{IsReady, agreed_archive, after_update};
ghost use Rattle.syn_archive.specs.inner.Keepings.{kept_in, IsNews, NotPrepared};
ghost use Rattle.syn_archive.specs.inner.Openings.{Keeps};
ghost use Rattle.syn_journal.specs.Endings.{Spends, ended};

use crate::agreed::Agreed;
use crate::error::ArchiveError;
use crate::new_record::{NewRecord, Prepared};
use std::alloc::Global;
use syn_disk::{Arm, Disk, Limit};
use syn_image::ItemRecord;
use syn_journal::{Journaled, layout_laws};
use syn_mark::{Mark, MarkEntry, MarkTree};
use syn_model::archive_laws;
use syn_path::Path;

mod checkpoint;
mod migrate;
mod open;

/// The marks that both sides last agreed on, and the number of the last session. It outlives stops
/// of its machine.
#[derive(Drop)]
pub struct Archive<D: Disk> {
    journaled: Journaled<D, Agreed>,
}

impl<D: Disk> Archive<D> {
    ghost use Rattle.syn_archive.specs.Archive.{pair_of, marks_shown, session_shown, shown};
    ghost use Rattle.syn_archive.specs.Archive.{disk_of, journal_of, room_shown, generation_shown};
    ghost use Rattle.syn_archive.specs.Archive.{left_shown, IsHalted, Stands, SameMemory};
    ghost use Rattle.syn_archive.specs.Archive.{KeepsBeforeOrAfter, archive_after};
    ghost use Rattle.syn_archive.specs.Calls.{Writes};
    ghost use Rattle.syn_archive.specs.Machines.{IsMachine, Journal, KeepsRecord};

    /// Formats the disk as an archive of the pair, whose root is an empty directory, with no
    /// session.
    ///
    /// Refused 11 where memory is refused, and 9 where a device call fails; the disk comes back. A
    /// stop during the call may leave a disk that opens to what it held before, to the new archive,
    /// or to none.
    pub fn format(alloc: Global, disk: D, pair: u64) -> Result<Archive<D>, (ArchiveError, D)>
        ensures formatted { IfOk result (λ archive. Stands archive new_archive) }
        ensures pair { IfOk result (λ archive. pair_of archive ≡ pair) }
        ensures generation { IfOk result (λ archive. generation_shown archive ≡ 1) }
        ensures refusals { IfErr result (λ refused. IsOfFormat refused.0) }
        ensures unchanged { IfErr result
            (λ refused. (refused.0 ≡ ArchiveError.Device) ⊎ (refused.1 ≡ disk)) }

        // Seven device calls where it succeeds. After 9 the last that was made failed.
        ensures device { MatchResult result
            (λ archive. Spends D.Disk 7 None disk (disk_of archive))
            (λ refused. Spends D.Disk 7 (Some (refusal_of refused.0)) disk refused.1) }
    {
        Self::format_after(alloc, disk, pair, 0)
    }

    /// Formats the disk as an archive of the pair that goes on after one that is lost: its root is
    /// an empty directory, and its last session has this number. The next session is then one that
    /// no side has seen, where no side has seen a later one.
    ///
    /// Refused 11 where memory is refused, and 9 where a device call fails; the disk comes back. A
    /// stop during the call may leave a disk that opens to what it held before, to the new archive,
    /// or to none.
    pub fn format_after(
        alloc: Global,
        disk: D,
        pair: u64,
        session: u64,
    ) -> Result<Archive<D>, (ArchiveError, D)>
        ensures formatted { IfOk result (λ archive. Stands archive (archive_after session)) }
        ensures pair { IfOk result (λ archive. pair_of archive ≡ pair) }
        ensures generation { IfOk result (λ archive. generation_shown archive ≡ 1) }
        ensures refusals { IfErr result (λ refused. IsOfFormat refused.0) }
        ensures unchanged { IfErr result
            (λ refused. (refused.0 ≡ ArchiveError.Device) ⊎ (refused.1 ≡ disk)) }

        // Seven device calls where it succeeds. After 9 the last that was made failed.
        ensures device { MatchResult result
            (λ archive. Spends D.Disk 7 None disk (disk_of archive))
            (λ refused. Spends D.Disk 7 (Some (refusal_of refused.0)) disk refused.1) }
    {
        archive_laws();
        let marks = match MarkTree::of_mark(alloc, Mark::Dir) {
            Ok(marks) => marks,
            Err(error) => return Err((ArchiveError::from(error), disk)),
        };
        let agreed = Agreed {
            pair,
            last_session: session,
            marks,
        };
        let journaled = Journaled::format(alloc, disk, agreed)?;
        Ok(Archive { journaled })
    }

    /// The number of the pair.
    pub fn pair(&self) -> u64
        ensures { result ≡ pair_of self.now }
    {
        self.journaled.state().pair
    }

    /// The number of the last session; 0 before the first.
    pub fn last_session(&self) -> u64
        ensures { result ≡ session_shown self.now }
    {
        self.journaled.state().last_session
    }

    /// The marks, as they stand in memory.
    pub fn tree(&self) -> &MarkTree
        ensures { result.now ≡ marks_shown self.now }
    {
        &self.journaled.state().marks
    }

    /// The generation of the journal's current half: 1 after `format` and `format_after`.
    pub fn generation(&self) -> u64
        ensures { result ≡ generation_shown self.now }
    {
        self.journaled.generation()
    }

    /// The length of the longest payload that still fits in the journal, or 0 where none does.
    pub fn room(&self) -> usize
        ensures { result ≡ room_shown self.now }
    {
        self.journaled.room()
    }

    /// Whether each change is refused 10: a device call failed, or a reopening gave no state that
    /// may follow, and none succeeded since.
    pub fn is_halted(&self) -> bool
        ensures { (result ≡ true) ↔ IsHalted self.now }
    {
        self.journaled.is_halted()
    }

    /// Whether its machine has stopped, so that no device call is made any more.
    pub fn is_cut(&self) -> bool
        ensures { result ≡ is_stopped (D.Disk.arms (disk_of self.now)) }
    {
        self.journaled.is_cut()
    }

    /// The disk, as the last call left it.
    pub fn into_disk(self) -> D
        ensures { result ≡ disk_of self }
    {
        self.journaled.into_disk()
    }

    /// Does nothing. It says of an archive that stands for what is kept that a stop leaves that on
    /// its disk, with the bytes that are left for records and the generation that it shows.
    pub fn keeps_on_disk(&self)
        ensures { (kept : KeptArchive) → Stands self.now kept
            → (bytes : Bytes) → D.may_leave (disk_of self.now) bytes → DiskKeeps (pair_of self.now)
            kept (left_shown self.now) (generation_shown self.now) bytes }
    {}

    /// The marks at and below the path, in path order; nothing where nothing is. It takes no
    /// memory.
    pub fn subtree(&self, path: &Path) -> &[MarkEntry]
        ensures { result.now ≡ within path.now (entries (marks_shown self.now)) }
    {
        self.tree().subtree(path)
    }

    /// Takes the next number of a session, and answers it; the first is 1.
    ///
    /// Refused 10 while the archive is halted, 7 where the last number is the greatest, 8 where the
    /// record does not fit in the journal, 11 where memory is refused, and 9 where a device call
    /// fails. After 9 the archive is halted and shows what it had; after any other refusal it is as
    /// it was.
    pub fn next_session(&mut self, alloc: Global) -> Result<u64, ArchiveError>
        ensures acknowledged { (kept : KeptArchive) → Stands self.old kept
            → IfOk result (λ session. (session ≡ kept.last_session + 1)
            × Stands self.new (after_kept kept (Session session))) }
        ensures any_moment { (kept : KeptArchive) → Stands self.old kept
            → LeavesOnly D.moment D.left_since (disk_of self.old) (disk_of self.new)
            (KeepsBeforeOrAfter self.old kept (Session (kept.last_session + 1))) }

        // Each refusal has its cause, and each cause its refusal. Nine bytes spell the record.
        ensures refused { (why : Refusal) → ¬ IsHalted self.old
            → keep_refusal (room_shown self.old) (shown self.old)
            (Session (session_shown self.old + 1)) ≡ Some why
            → IsErrAnd result (λ e. refusal_of e ≡ why) }
        ensures cause { IfErr result (λ e. IsOutside e
            ⊎ (keep_refusal (room_shown self.old) (shown self.old)
            (Session (session_shown self.old + 1)) ≡ Some (refusal_of e))) }
        ensures refusals { IfErr result IsOfSession }

        // Four device calls where it succeeds. After 9 the last that was made failed.
        ensures machine { Writes self.old self.new (Some (Session (session_shown self.old + 1)))
            (ended refusal_of result) }

        // What it is to the model's machine, also where its device fails or stops.
        ensures world { (number : ℕ) (machine : Journal) → IsMachine self.old number machine
            → KeepsRecord self.new number machine (Session (session_shown self.old + 1))
            (ended refusal_of result) }
    {
        self.keep(alloc, NewRecord::Session)?;
        Ok(self.last_session())
    }

    /// Why the record of an item cannot be kept, but for the journal and the device; it takes no
    /// memory.
    ///
    /// Refused 6 at the root, 2 where the parent is no directory, and 7 where the archive would
    /// pass a limit. A directory that is recorded already is refused nothing.
    pub fn fits(&self, item_record: &ItemRecord) -> Result<(), ArchiveError>
        ensures { refusal_in result ≡ kept_refusal (shown self.now) (kept_for item_record.now) }
    {
        match item_record {
            ItemRecord::Record(path, marks) => Ok(self.tree().check_replace(path, marks.as_ref())?),
            ItemRecord::Dir(path) => self.fits_dir(path),
        }
    }

    /// The same of a directory.
    fn fits_dir(&self, path: &Path) -> Result<(), ArchiveError>
        ensures { refusal_in result ≡ kept_refusal (shown self.now) (RecordedDir path.now) }
    {
        if path.names().is_empty() {
            return Err(ArchiveError::Root);
        }
        match self.tree().get(path) {
            Some(Mark::Dir) => Ok(()),
            _ => Ok(self.tree().check_dir(path)?),
        }
    }

    /// Records the marks at and below the path, or that nothing is there. They are copied once
    /// nothing but memory and the device can refuse the record.
    ///
    /// Refused 10 while the archive is halted; 6 at the root, 2 where the parent is no directory,
    /// and 7 where the archive would pass a limit; 8 where the record does not fit in the journal,
    /// 11 where memory is refused, and 9 where a device call fails. After 9 the archive is halted
    /// and shows what it had; after any other refusal it is as it was.
    pub fn record(
        &mut self,
        alloc: Global,
        path: &Path,
        marks: Option<&MarkTree>,
    ) -> Result<(), ArchiveError>
        ensures acknowledged { (kept : KeptArchive) → Stands self.old kept
            → OnOk result (Stands self.new
            (after_kept kept (recorded_at path.now marks.entry))) }
        ensures any_moment { (kept : KeptArchive) → Stands self.old kept
            → LeavesOnly D.moment D.left_since (disk_of self.old) (disk_of self.new)
            (KeepsBeforeOrAfter self.old kept (recorded_at path.now marks.entry)) }

        // Each refusal has its cause, and each cause its refusal.
        ensures refused { (why : Refusal) → ¬ IsHalted self.old
            → keep_refusal (room_shown self.old) (shown self.old)
            (recorded_at path.now marks.entry) ≡ Some why
            → IsErrAnd result (λ e. refusal_of e ≡ why) }
        ensures cause { IfErr result (λ e. IsOutside e
            ⊎ (keep_refusal (room_shown self.old) (shown self.old)
            (recorded_at path.now marks.entry) ≡ Some (refusal_of e))) }
        ensures refusals { IfErr result IsOfRecord }

        // Four device calls where it succeeds. After 9 the last that was made failed.
        ensures machine { Writes self.old self.new (Some (recorded_at path.now marks.entry))
            (ended refusal_of result) }

        // What it is to the model's machine, also where its device fails or stops.
        ensures world { (number : ℕ) (machine : Journal) → IsMachine self.old number machine
            → KeepsRecord self.new number machine (recorded_at path.now marks.entry)
            (ended refusal_of result) }
    {
        self.keep(alloc, NewRecord::Record(path, marks))
    }

    /// Records a directory at the path, with what the archive has below it; nothing where a
    /// directory is recorded there.
    ///
    /// Refused 10 while the archive is halted; 6 at the root, 2 where the parent is no directory,
    /// and 7 where the archive would pass a limit; 8 where the record does not fit in the journal,
    /// 11 where memory is refused, and 9 where a device call fails. After 9 the archive is halted
    /// and shows what it had; after any other refusal it is as it was.
    pub fn record_dir(&mut self, alloc: Global, path: &Path) -> Result<(), ArchiveError>
        ensures acknowledged { (kept : KeptArchive) → Stands self.old kept
            → OnOk result (Stands self.new (after_kept kept (RecordedDir path.now))) }
        ensures any_moment { (kept : KeptArchive) → Stands self.old kept
            → LeavesOnly D.moment D.left_since (disk_of self.old) (disk_of self.new)
            (KeepsBeforeOrAfter self.old kept (RecordedDir path.now)) }

        // Each refusal has its cause, and each cause its refusal. The root is one, and a directory
        // that is recorded is none.
        ensures refused { (why : Refusal) → ¬ IsHalted self.old
            → keep_refusal (room_shown self.old) (shown self.old) (RecordedDir path.now) ≡ Some why
            → IsErrAnd result (λ e. refusal_of e ≡ why) }
        ensures cause { IfErr result (λ e. IsOutside e
            ⊎ (keep_refusal (room_shown self.old) (shown self.old) (RecordedDir path.now)
            ≡ Some (refusal_of e))) }
        ensures done { IfErr result (λ _. IsHalted self.old ⊎ (is_root path.now ≡ true)
            ⊎ (is_directory (marks_shown self.old) path.now ≡ false)) }
        ensures refusals { IfErr result IsOfRecord }

        // Where a directory is recorded, nothing happens, and no device call is made. Else four are
        // made where it succeeds, and after 9 the last that was made failed.
        ensures machine { Writes self.old self.new
            (to_write (shown self.old) (RecordedDir path.now)) (ended refusal_of result) }

        // What it is to the model's machine, also where its device fails or stops.
        ensures world { (number : ℕ) (machine : Journal) → IsMachine self.old number machine
            → KeepsRecord self.new number machine (RecordedDir path.now)
            (ended refusal_of result) }
    {
        archive_laws();
        if self.is_halted() {
            return Err(ArchiveError::Halted);
        }
        if path.names().is_empty() {
            return Err(ArchiveError::Root);
        }
        match self.tree().get(path) {
            Some(Mark::Dir) => Ok(()),
            _ => self.keep(alloc, NewRecord::Dir(path)),
        }
    }

    /// Keeps a record that says what the archive does not have yet.
    fn keep(&mut self, alloc: Global, what: NewRecord<'_>) -> Result<(), ArchiveError>
        requires { IsNews (shown self.old) what }
        ensures acknowledged { (kept : KeptArchive) → Stands self.old kept
            → OnOk result (Stands self.new
            (after_kept kept (kept_in (session_shown self.old) what.entry))) }
        ensures any_moment { (kept : KeptArchive) → Stands self.old kept
            → LeavesOnly D.moment D.left_since (disk_of self.old) (disk_of self.new)
            (KeepsBeforeOrAfter self.old kept (kept_in (session_shown self.old) what.entry)) }
        ensures session { OnOk result (shown self.new
            ≡ after_kept (shown self.old) (kept_in (session_shown self.old) what.entry)) }
        ensures refused { (why : Refusal) → ¬ IsHalted self.old
            → keep_refusal (room_shown self.old) (shown self.old)
            (kept_in (session_shown self.old) what.entry) ≡ Some why
            → IsErrAnd result (λ e. refusal_of e ≡ why) }
        ensures cause { IfErr result (λ e. IsOutside e
            ⊎ (keep_refusal (room_shown self.old) (shown self.old)
            (kept_in (session_shown self.old) what.entry) ≡ Some (refusal_of e))) }
        ensures refusals { IfErr result IsOfRecord }
        ensures machine { Writes self.old self.new
            (Some (kept_in (session_shown self.old) what.entry)) (ended refusal_of result) }
        ensures world { (number : ℕ) (machine : Journal) → IsMachine self.old number machine
            → KeepsRecord self.new number machine (kept_in (session_shown self.old) what.entry)
            (ended refusal_of result) }
    {
        archive_laws();
        layout_laws();
        let Prepared { payload, update } = self.prepare(alloc, what)?;
        self.journaled.write(alloc, &payload, update)
    }

    /// Its payload and its update, where it can be kept. It is refused as `keep` refuses it, but
    /// for a device call.
    fn prepare(&self, alloc: Global, what: NewRecord<'_>) -> Result<Prepared, ArchiveError>
        requires { IsNews (shown self.now) what }
        ensures running { OnOk result (¬ IsHalted self.now) }
        ensures fits { OnOk result
            (length (kept_spelling (kept_in (session_shown self.now) what.entry))
            ≤ room_shown self.now) }
        ensures payload { IfOk result (λ prepared. prepared.payload.items
            ≡ kept_spelling (kept_in (session_shown self.now) what.entry)) }
        ensures ready { IfOk result (λ prepared. IsReady self.now.journaled.state prepared.update) }
        ensures keeps { IfOk result (λ prepared. Keeps (shown self.now)
            (kept_in (session_shown self.now) what.entry)
            (agreed_archive (after_update self.now.journaled.state prepared.update))) }
        ensures refused { IfErr result (NotPrepared (IsHalted self.now) (room_shown self.now)
            (shown self.now) (kept_in (session_shown self.now) what.entry)) }
    {
        if self.is_halted() {
            return Err(ArchiveError::Halted);
        }
        let agreed = self.journaled.state();
        agreed.check(&what)?;
        if what.length() > self.room() {
            return Err(ArchiveError::JournalFull);
        }
        agreed.prepare(alloc, what)
    }
}

impl<D: Limit> Archive<D> {
    ghost use Rattle.syn_archive.specs.Archive.{disk_of, journal_of, SameMemory, Stands};

    /// Arms the archive's disk. It takes the place of an arm of its kind that is still to come.
    pub fn arm(&mut self, arm: Arm)
        ensures arms { D.Disk.arms (disk_of self.new) ≡ armed (D.Disk.arms (disk_of self.old)) arm }

        // It changes nothing that a read gives or a stop leaves.
        ensures seen { D.Disk.seen (disk_of self.new) ≡ D.Disk.seen (disk_of self.old) }
        ensures stop { SameOutcomes (D.Disk.may_leave (disk_of self.old))
            (D.Disk.may_leave (disk_of self.new)) }
        ensures moment { D.Disk.moment (disk_of self.new) ≡ D.Disk.moment (disk_of self.old) }
        ensures past { (t : ℕ) → SameOutcomes (D.Disk.left_since (disk_of self.old) t)
            (D.Disk.left_since (disk_of self.new) t) }
        ensures failures { D.Disk.failures (disk_of self.new) ≡ D.Disk.failures (disk_of self.old) }
        ensures stands { (kept : KeptArchive) → Stands self.old kept → Stands self.new kept }
        ensures memory { SameMemory self.old self.new }
        ensures readings { SameReadings (journal_of self.old) (journal_of self.new) }
    {
        self.journaled.arm(arm);
    }
}
