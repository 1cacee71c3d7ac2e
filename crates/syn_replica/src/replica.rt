//! A replica over a journal.
ghost use Rattle.std.specs.Prelude.{◌≡◌, ◌⊎◌, ◌↔◌, ◌≤◌, ◌+◌, ◌^◌, ◌<◌, ◌++◌, ◌∷◌, [], ℕ, length};
ghost use Rattle.std.specs.Prelude.{OnOk, IfOk, IfErr, IsErrAnd, MatchResult, Err, Some, None};
ghost use Rattle.std.specs.Prelude.{true, false, option_map};
ghost use Rattle.std.specs.FinMap.{get};
ghost use Rattle.syn_model.specs.Tree.{is_directory};
ghost use Rattle.syn_model.specs.Event as model;
ghost use Rattle.syn_model.specs.History.{History};
ghost use Rattle.syn_model.specs.Refusal.{Refusal, Device};
ghost use Rattle.syn_tree.specs.Contents.{content_of};
ghost use Rattle.syn_tree.specs.Lists.{listing};
ghost use Rattle.syn_journal.specs.Journal.{Takes};
ghost use Rattle.syn_disk.specs.Arms.{is_stopped};
ghost use Rattle.syn_disk.specs.Stops.{LeavesOnly};
ghost use Rattle.syn_journal.specs.Endings.{Reads, Spends, ended};
ghost use Rattle.syn_replica.specs.ErrorRefusals.{refusal_of};
ghost use Rattle.syn_replica.specs.Refusals.{IsOneOf, format_refusals, reading_refusals};
ghost use Rattle.syn_replica.specs.Refusals.{edit_refusals, outside_refusals, hiding_refusals};
ghost use Rattle.syn_replica.specs.Refusals.{old_refusals};
ghost use Rattle.syn_replica.specs.Disks.{DiskGives, DiskStands, IsOfOtherPair, IsOpenRefusal};
ghost use Rattle.syn_replica.specs.Disks.{IsOldDisk};
ghost use Rattle.syn_replica.specs.Edits.{event_by};
ghost use Rattle.syn_replica.specs.Steps.{add_refusal};
ghost use Rattle.syn_replica.specs.Updates.{IsReady};
ghost use Rattle.syn_replica.specs.inner.Additions.{Adds};

use crate::digests::Digests;
use crate::remembered::Remembered;
use crate::{ReplicaError, Standing, Update, opening_laws};
use std::alloc::Global;
use std::cell::Cell;
use syn_disk::Disk;
use syn_history::Event;
use syn_journal::{JournalError, Journaled, layout_laws};
use syn_model::{history_laws, worked_rows};
use syn_path::{Name, Path};
use syn_tree::{Content, Edit, Found, Tree, TreeError};
use syn_wire::edit_length;

mod batch;
mod checkpoint;
mod device;
mod growth;
mod listing;
mod memory;
mod migrate;
mod parts;
mod reopen;
mod session;
mod status;
mod with_room;

pub use listing::Listing;
pub use session::{Piece, TokenStatus};
pub use with_room::ROOM_FOR_EDITS;

/// A replica of a file tree: a history of edits and of what sessions do, which outlives stops of
/// its machine.
#[derive(Drop)]
pub struct Replica<D: Disk> {
    journaled: Journaled<D, Remembered>,
    /// How the event is spelled that was last sent to the disk.
    tried: Option<Vec<u8>>,
    /// The digests of files that were listed, once any were. A listing alone looks into the cell.
    digests: Cell<Option<Digests>>,
}

impl<D: Disk> Replica<D> {
    ghost use Rattle.syn_replica.specs.Replica.{pair_of, standing_shown, tree_shown};
    ghost use Rattle.syn_replica.specs.Replica.{position_shown, disk_of, journal_of, room_shown};
    ghost use Rattle.syn_replica.specs.Replica.{generation_shown, IsHalted, Stands};
    ghost use Rattle.syn_replica.specs.Replica.{KeepsBeforeOrAfter, tried_shown};
    ghost use Rattle.syn_replica.specs.Calls.{Writes};
    ghost use Rattle.syn_replica.specs.Machines.{IsMachine, Journal as Machine, Starts};
    ghost use Rattle.syn_replica.specs.Machines.{WritesRecord};
    ghost use Rattle.syn_replica.specs.Keepings.{of_side};
    ghost use Rattle.syn_journal.specs.Machines.{Rests, RestsStill};

    /// Formats the disk as a replica of the pair, with no events.
    ///
    /// Refused 11 where memory is refused, and 9 where a device call fails; the disk comes back. A
    /// stop during the call may leave a disk that opens to what it held before, to the new replica,
    /// or to none.
    pub fn format(alloc: Global, disk: D, pair: u64) -> Result<Replica<D>, (ReplicaError, D)>
        ensures formatted { IfOk result (λ replica. Stands replica []) }
        ensures pair { IfOk result (λ replica. pair_of replica ≡ pair) }
        ensures generation { IfOk result (λ replica. generation_shown replica ≡ 1) }
        ensures tried { IfOk result (λ replica. tried_shown replica ≡ None) }
        ensures refusals { IfErr result (λ refused. IsOneOf format_refusals refused.0) }
        ensures unchanged { IfErr result (λ refused. (refusal_of refused.0 ≡ Device)
            ⊎ (refused.1 ≡ disk)) }

        // Seven device calls where it succeeds.
        ensures device { MatchResult result
            (λ replica. Spends D.Disk 7 None disk (disk_of replica))
            (λ refused. Spends D.Disk 7 (Some (refusal_of refused.0)) disk refused.1) }
    {
        history_laws();
        worked_rows();
        let standing = match Standing::new(alloc) {
            Ok(standing) => standing,
            Err(error) => return Err((error, disk)),
        };
        let journaled = Journaled::format(alloc, disk, Remembered { pair, standing })?;
        Ok(Replica {
            journaled,
            tried: None,
            digests: Cell::new(None),
        })
    }

    /// Opens what the disk holds.
    ///
    /// Refused 9 where a device call fails, 18 where the disk holds no image, 26 where the image is
    /// of version 1, 19 where it means nothing that a replica holds, 20 where it is of another pair
    /// than the one given, and 11 where memory is refused; the disk comes back. Nothing is written.
    pub fn open(alloc: Global, disk: D, pair: Option<u64>) -> Result<Replica<D>, (ReplicaError, D)>
        // It shows what the disk gives, and stands for each history that the disk stands for.
        ensures given { IfOk result (λ replica.
            DiskGives (pair_of replica) (D.seen disk) (standing_shown replica)) }
        ensures each { IfOk result (λ replica. (number : ℕ) (history : History) → number < 2 ^ 64
            → DiskStands number (D.seen disk) history
            → (number ≡ pair_of replica) × Stands replica history) }
        ensures wanted { IfOk result (λ replica. (asked : ℕ) → pair ≡ Some asked
            → asked ≡ pair_of replica) }
        ensures tried { IfOk result (λ replica. tried_shown replica ≡ None) }

        // Each refusal has its cause.
        ensures refusals { IfErr result (λ refused. IsOpenRefusal refused.0 pair (D.seen disk)) }
        ensures wrong_pair { IsOfOtherPair pair (D.seen disk)
            → IsErrAnd result (λ refused. IsOneOf hiding_refusals refused.0) }
        ensures old { IsOldDisk (D.seen disk)
            → IsErrAnd result (λ refused. IsOneOf old_refusals refused.0) }

        // A sync and then reads, whose number is not fixed.
        ensures device { MatchResult result
            (λ replica. Reads D.Disk None disk (disk_of replica))
            (λ refused. Reads D.Disk (Some (refusal_of refused.0)) disk refused.1) }

        // What it is to the model's machine of the pair, which was down.
        ensures world { (number : ℕ) (machine : Machine) → pair ≡ Some number → number < 2 ^ 64
            → Rests D.arms D.may_leave (of_side number) disk machine → MatchResult result
            (λ replica. Starts replica number machine)
            (λ refused. RestsStill D.arms D.may_leave (of_side number) refused.1 machine
            (refusal_of refused.0)) }
    {
        opening_laws();
        let journaled = Journaled::open(alloc, disk, pair)?;
        Ok(Replica {
            journaled,
            tried: None,
            digests: Cell::new(None),
        })
    }

    /// How many events the history has.
    pub fn position(&self) -> u64
        ensures { result ≡ position_shown self.now }
    {
        self.current_standing().trail().position()
    }

    /// The position from which on it is told what was touched.
    pub fn floor(&self) -> u64
        ensures { result ≡ (standing_shown self.now).floor }
    {
        self.current_standing().trail().floor()
    }

    /// The session begun last, and 0 while there is none.
    pub fn last_session(&self) -> u64
        ensures { result ≡ (standing_shown self.now).session }
    {
        self.current_standing().trail().last_session()
    }

    /// The tree, as it stands in memory.
    pub fn tree(&self) -> &Tree
        ensures { result.now ≡ tree_shown self.now }
    {
        self.current_standing().tree()
    }

    /// The number of the pair.
    pub fn pair(&self) -> u64
        ensures { result ≡ pair_of self.now }
    {
        self.journaled.state().pair
    }

    /// The length of the longest payload that still fits in the journal, or 0 where none does.
    pub fn room(&self) -> usize
        ensures { result ≡ room_shown self.now }
    {
        self.journaled.room()
    }

    /// The generation of the current image: 1 after `format`.
    pub fn generation(&self) -> u64
        ensures { result ≡ generation_shown self.now }
    {
        self.journaled.generation()
    }

    /// Whether each change is refused 10: a device call failed, or a reopening gave no state that
    /// may follow, and none succeeded since.
    pub fn is_halted(&self) -> bool
        ensures { (result ≡ true) ↔ IsHalted self.now }
    {
        self.journaled.is_halted()
    }

    /// Whether its machine has stopped, so that no device call is made any more.
    pub fn is_cut(&self) -> bool
        ensures { result ≡ is_stopped (D.Disk.arms (disk_of self.now)) }
    {
        self.journaled.is_cut()
    }

    /// How the event is spelled that was last sent to the disk since the replica was formatted,
    /// opened or reopened: its call was answered Ok, or refused 9. None where there was none.
    pub fn tried(&self) -> Option<&[u8]>
        ensures { option_map (λ spelled. spelled.now) result ≡ tried_shown self.now }
    {
        match &self.tried {
            Some(spelled) => Some(spelled.as_slice()),
            None => None,
        }
    }

    /// The disk, as the last call left it.
    pub fn into_disk(self) -> D
        ensures { result ≡ disk_of self }
    {
        self.journaled.into_disk()
    }

    /// What stands at the path.
    ///
    /// Refused 10 while the replica is halted, 5 where nothing is there, and 11 where memory is
    /// refused.
    pub fn get(&self, alloc: Global, path: &Path) -> Result<Content, ReplicaError>
        ensures found { IfOk result (λ content. get (tree_shown self.now) path.now
            ≡ Some (content_of content)) }
        ensures absent { (result ≡ Err (ReplicaError.Tree TreeError.Absent))
            ↔ (¬ IsHalted self.now × (get (tree_shown self.now) path.now ≡ None)) }
        ensures halted { (result ≡ Err (ReplicaError.Journal JournalError.Halted))
            ↔ IsHalted self.now }
        ensures refusals { IfErr result (IsOneOf reading_refusals) }
    {
        self.check_running()?;
        match self.tree().get(path) {
            Some(Found::File(mode, bytes)) => Ok(Content::File(mode, bytes.to_vec(alloc)?)),
            Some(Found::Dir) => Ok(Content::Dir),
            None => Err(ReplicaError::Tree(TreeError::Absent)),
        }
    }

    /// The names of the directory in byte order, with true for a directory.
    ///
    /// Refused 10 while the replica is halted, 5 where no directory is there, and 11 where memory
    /// is refused.
    pub fn list(&self, alloc: Global, path: &Path) -> Result<Vec<(Name, bool)>, ReplicaError>
        ensures names { IfOk result
            (λ names. names.items ≡ listing (tree_shown self.now) path.now) }
        ensures absent { (result ≡ Err (ReplicaError.Tree TreeError.Absent))
            ↔ (¬ IsHalted self.now × (is_directory (tree_shown self.now) path.now ≡ false)) }
        ensures halted { (result ≡ Err (ReplicaError.Journal JournalError.Halted))
            ↔ IsHalted self.now }
        ensures refusals { IfErr result (IsOneOf reading_refusals) }
    {
        self.check_running()?;
        Ok(self.tree().list(alloc, path)?)
    }

    /// Makes the edit, and answers the new position.
    ///
    /// Refused 10 while the replica is halted; 6 for the root, 2 where the parent is not a
    /// directory, 3 where a file would take the place of a directory or a directory's mode would
    /// change, 4 where a directory would be made where something is, 5 where nothing is there to
    /// remove or to change, 7 where the result would pass a limit or the position is the greatest;
    /// 8 where the record does not fit in the journal, 11 where memory is refused, and 9 where a
    /// device call fails. After 9 the replica is halted and remembers what it had; after any other
    /// refusal it is as it was. Whenever the machine stops, the disk has the events before the
    /// call, or those and this one.
    pub fn edit(&mut self, alloc: Global, user: u32, edit: Edit) -> Result<u64, ReplicaError>
        ensures acknowledged { (history : History) → Stands self.old history
            → IfOk result (λ position. (position ≡ length history + 1)
            × Stands self.new (history ++ event_by user edit ∷ [])) }
        ensures any_moment { (history : History) → Stands self.old history
            → LeavesOnly D.moment D.left_since (disk_of self.old) (disk_of self.new)
            (KeepsBeforeOrAfter self.old history (event_by user edit)) }

        // Each refusal has its cause, and each cause its refusal: the first of them is answered.
        ensures cause { (history : History) → Stands self.old history
            → IfErr result (λ e. IsOneOf outside_refusals e
            ⊎ (add_refusal (room_shown self.old) history (event_by user edit)
            ≡ Some (refusal_of e))) }
        ensures refused { (history : History) (why : Refusal) → Stands self.old history
            → add_refusal (room_shown self.old) history (event_by user edit) ≡ Some why
            → IsErrAnd result (λ e. refusal_of e ≡ why) }
        ensures refusals { IfErr result (IsOneOf edit_refusals) }
        ensures unchanged { (history : History) → Stands self.old history
            → IfErr result (λ e. (refusal_of e ≡ Device) ⊎ Stands self.new history) }
        ensures machine { Writes self.old self.new (Some (event_by user edit))
            (ended refusal_of result) }

        // What it is to the model's machine, also where its device fails or stops.
        ensures world { (number : ℕ) (machine : Machine) → IsMachine self.old number machine
            → WritesRecord self.new number machine (event_by user edit)
            (ended refusal_of result) }
    {
        opening_laws();
        self.check_running()?;
        let length = edit_length(&edit);
        let event = Event::Edited { user, edit };
        self.check(&event)?;
        self.check_room(length)?;
        let (payload, update) = self.prepare(alloc, event)?;
        self.commit(alloc, payload, update)
    }

    /// Why no call is answered: the replica is halted (10).
    fn check_running(&self) -> Result<(), ReplicaError>
        ensures running { OnOk result (¬ IsHalted self.now) }
        ensures halted { IfErr result (λ e. (e ≡ ReplicaError.Journal JournalError.Halted)
            × IsHalted self.now) }
    {
        if self.is_halted() {
            Err(ReplicaError::Journal(JournalError::Halted))
        } else {
            Ok(())
        }
    }

    /// Why a payload of this length is not written: there is no room for it (8).
    fn check_room(&self, length: usize) -> Result<(), ReplicaError>
        ensures room { OnOk result (length ≤ room_shown self.now) }
        ensures refused { IfErr result (λ e. (e ≡ ReplicaError.Journal JournalError.JournalFull)
            × (room_shown self.now < length)) }
    {
        if length > self.room() {
            Err(ReplicaError::Journal(JournalError::JournalFull))
        } else {
            Ok(())
        }
    }

    /// Writes the payload of an event, and makes its update of what is in memory.
    fn commit(
        &mut self,
        alloc: Global,
        payload: Vec<u8>,
        update: Update,
    ) -> Result<u64, ReplicaError>
        requires ready { IsReady (standing_shown self.old) update }
        requires takes { Takes (journal_of self.old) (length payload.items) }
        requires running { ¬ IsHalted self.old }
        ensures acknowledged { (history : History) (event : model.Event) → Stands self.old history
            → Adds (standing_shown self.old) event payload.items update
            → IfOk result (λ position. (position ≡ length history + 1)
            × Stands self.new (history ++ event ∷ [])) }
        ensures any_moment { (history : History) (event : model.Event) → Stands self.old history
            → Adds (standing_shown self.old) event payload.items update
            → LeavesOnly D.moment D.left_since (disk_of self.old) (disk_of self.new)
            (KeepsBeforeOrAfter self.old history event) }
        ensures refusals { IfErr result (IsOneOf outside_refusals) }
        ensures machine { (event : model.Event)
            → Adds (standing_shown self.old) event payload.items update
            → Writes self.old self.new (Some event) (ended refusal_of result) }
        ensures world { (number : ℕ) (machine : Machine) (event : model.Event)
            → IsMachine self.old number machine
            → Adds (standing_shown self.old) event payload.items update
            → WritesRecord self.new number machine event (ended refusal_of result) }
    {
        history_laws();
        layout_laws();
        if let Err(error) = self.journaled.write(alloc, &payload, update) {
            // A device call failed, so that the event may be on the disk.
            if self.is_halted() {
                self.tried = Some(payload);
            }
            return Err(error);
        }
        self.tried = Some(payload);
        Ok(self.position())
    }
}
