//! What sessions ask of a replica.
ghost use Rattle.std.specs.Prelude.{◌≡◌, ◌⊎◌, ◌↔◌, ◌<◌, ◌≤◌, ◌^◌, ℕ, length, IfOk, IfErr, IsErrAnd};
ghost use Rattle.std.specs.Prelude.{Err, Ok, Some, true, false};
ghost use Rattle.syn_disk.specs.Stops.{LeavesOnly};
ghost use Rattle.syn_journal.specs.Endings.{ended};
ghost use Rattle.syn_model.specs.Limits.{greatest_piece};
ghost use Rattle.syn_model.specs.Event.{Began, Replaced};
ghost use Rattle.syn_model.specs.History.{History, last_session, standing_of, tree_of};
ghost use Rattle.syn_model.specs.Refusal.{Refusal, Memory, first_cause};
ghost use Rattle.syn_model.specs.Spelling.{event_spelling, spelling};
ghost use Rattle.syn_model.specs.Tree.{subtree};
ghost use Rattle.syn_history.specs.Events.{token_of};
ghost use Rattle.syn_tree.specs.Nodes.{part_of};
ghost use Rattle.syn_replica.specs.ErrorRefusals.{refusal_in, refusal_of};
ghost use Rattle.syn_replica.specs.Refusals.{IsOneOf, outside_refusals};
ghost use Rattle.syn_replica.specs.inner.Additions.{checking_refusals, MayReplace};
ghost use Rattle.syn_replica.specs.Refusals.{begin_refusals, check_begin_refusals};
ghost use Rattle.syn_replica.specs.Refusals.{fetch_refusals, replace_refusals};
ghost use Rattle.syn_replica.specs.Calls.{unless};
ghost use Rattle.syn_replica.specs.Steps.{begun, begin_refusal, begin_refusal_at, is_done};
ghost use Rattle.syn_replica.specs.Steps.{is_done_at, piece};
ghost use Rattle.syn_replica.specs.Causes.{since_causes};
ghost use Rattle.syn_replica.specs.Steps.{early_refusal, how_stands, replaced, replace_refusal};
ghost use Rattle.std.specs.Prelude.{◌==◌, None, IfSome, option_map};

use super::Replica;
use crate::{ReplicaError, opening_laws};
use std::alloc::Global;
use syn_disk::Disk;
use syn_history::{Event, Token};
use syn_journal::JournalError;
use syn_path::Path;
use syn_tree::Node;
use syn_wire::{encode_piece, part_length};

/// How many bytes spell the event of a session that begins: its kind and its number.
const BEGAN_LENGTH: usize = 9;

/// A part of what is fetched.
#[derive(Debug, Drop)]
pub struct Piece {
    /// How many bytes there are in all.
    pub total: usize,
    /// The bytes of the piece.
    pub bytes: Vec<u8>,
}

/// How a token stands to a replica.
#[derive(Clone, Copy, Debug, PartialEq, Eq)]
pub enum TokenStatus {
    /// It is that of the last replacement.
    Done,
    /// Its session is not the one begun last, or it is below the last token.
    Old,
    /// A replacement may be made under it.
    Open,
}

impl<D: Disk> Replica<D> {
    ghost use Rattle.syn_replica.specs.Replica.{pair_of, standing_shown, disk_of, room_shown};
    ghost use Rattle.syn_replica.specs.Replica.{IsHalted, Remembers, Stands, KeepsBeforeOrAfter};
    ghost use Rattle.syn_replica.specs.Calls.{Writes};
    ghost use Rattle.syn_replica.specs.Machines.{IsMachine, Journal, WritesUnlessDone};

    /// Begins the session, and answers the position. The session that was begun last begins again
    /// without an event.
    ///
    /// Refused 10 while the replica is halted; 20 where the pair is another, 14 where the session
    /// is below the last; 7 where the position is the greatest, 8 where the record does not fit in
    /// the journal, 11 where memory is refused, and 9 where a device call fails. After 9 the
    /// replica is halted and remembers what it had; after any other refusal it is as it was.
    pub fn begin(&mut self, alloc: Global, pair: u64, session: u64) -> Result<u64, ReplicaError>
        ensures acknowledged { (history : History) → Stands self.old history
            → IfOk result (λ position. (position ≡ length (begun history session))
            × Stands self.new (begun history session)) }
        ensures any_moment { (history : History) → Stands self.old history
            → LeavesOnly D.moment D.left_since (disk_of self.old) (disk_of self.new)
            (KeepsBeforeOrAfter self.old history (Began session)) }

        // The session begun last begins again, and nothing changes.
        ensures again { pair ≡ pair_of self.old → session ≡ (standing_shown self.old).session
            → ¬ IsHalted self.old
            → (result ≡ Ok (standing_shown self.old).position) × (self.new ≡ self.old) }

        // Each refusal has its cause, and each cause its refusal: the first of them is answered.
        ensures cause { (history : History) → Stands self.old history
            → IfErr result (λ e. IsOneOf outside_refusals e
            ⊎ (begin_refusal (room_shown self.old) (pair_of self.old) history pair session
            ≡ Some (refusal_of e))) }
        ensures refused { (history : History) (why : Refusal) → Stands self.old history
            → begin_refusal (room_shown self.old) (pair_of self.old) history pair session ≡ Some why
            → IsErrAnd result (λ e. refusal_of e ≡ why) }
        ensures refusals { IfErr result (IsOneOf begin_refusals) }

        // The event is written where the session was not begun before.
        ensures machine { Writes self.old self.new
            (unless (session == (standing_shown self.old).session) (Began session))
            (ended refusal_of result) }

        // What it is to the model's machine, also where its device fails or stops.
        ensures world { (number : ℕ) (machine : Journal) → IsMachine self.old number machine
            → WritesUnlessDone self.new number machine
            (unless (session == (standing_shown self.old).session) (Began session))
            (ended refusal_of result) }
    {
        opening_laws();
        self.check_begin(pair, session)?;
        if session == self.last_session() {
            return Ok(self.position());
        }
        self.check_room(BEGAN_LENGTH)?;
        let (payload, update) = self.prepare(alloc, Event::Began { session })?;
        self.commit(alloc, payload, update)
    }

    /// Why the session would not begin, whatever the journal has room for. It takes no memory.
    ///
    /// Refused 10 while the replica is halted; 20 where the pair is another, 14 where the session
    /// is below the last, and 7 where it is above the last and the position is the greatest.
    pub fn check_begin(&self, pair: u64, session: u64) -> Result<(), ReplicaError>
        // It refuses what `begin` refuses where its record fits in the journal.
        ensures refusal { (room : ℕ) → length (event_spelling (Began session)) ≤ room
            → ¬ IsHalted self.now
            → refusal_in result
            ≡ begin_refusal_at room (pair_of self.now) (standing_shown self.now) pair session }
        ensures refusals { IfErr result (IsOneOf check_begin_refusals) }
        ensures halted { (result ≡ Err (ReplicaError.Journal JournalError.Halted))
            ↔ IsHalted self.now }
    {
        self.check_running()?;
        if pair != self.pair() {
            Err(ReplicaError::WrongPair)
        } else if session == self.last_session() {
            Ok(())
        } else {
            self.check(&Event::Began { session })
        }
    }

    /// A part of what stands at the path with all below it: its spelling from the offset on, the
    /// first 32,768 bytes of it where there are more; past the end no bytes. The work grows with
    /// what is at and below the path, and not with the whole tree.
    ///
    /// Refused 10 while the replica is halted; 15 where `since` is below the floor or above the
    /// position, 13 where an event touched the path since, and 11 where memory is refused.
    pub fn fetch(
        &self,
        alloc: Global,
        path: &Path,
        since: u64,
        offset: usize,
    ) -> Result<Piece, ReplicaError>
        ensures piece { (history : History) → Stands self.now history
            → IfOk result (λ found. (found.bytes.items ≡ piece history path.now offset)
            × (found.total ≡ length (spelling (subtree (tree_of history) path.now)))) }
        ensures short { IfOk result (λ found. length found.bytes.items ≤ greatest_piece) }
        ensures total { IfOk result (λ found. found.total < 2 ^ 32) }

        // Each refusal has its cause, and each cause its refusal: the first of them is answered.
        ensures cause { (history : History) → Stands self.now history
            → IfErr result (λ e. (refusal_of e ≡ Memory)
            ⊎ (first_cause (since_causes history path.now since) ≡ Some (refusal_of e))) }
        ensures refused { (history : History) (why : Refusal) → Stands self.now history
            → first_cause (since_causes history path.now since) ≡ Some why
            → IsErrAnd result (λ e. refusal_of e ≡ why) }
        ensures refusals { IfErr result (IsOneOf fetch_refusals) }
        ensures halted { (result ≡ Err (ReplicaError.Journal JournalError.Halted))
            ↔ IsHalted self.now }
    {
        self.check_running()?;
        self.check_untouched(path, since)?;
        let tree = self.tree();
        let bytes = encode_piece(alloc, tree, path, offset)?;
        Ok(Piece {
            total: part_length(tree, path),
            bytes,
        })
    }

    /// How the token stands.
    pub fn standing(&self, token: Token) -> TokenStatus
        ensures { (history : History) → Remembers self.now history
            → result ≡ how_stands history (token_of token) }
    {
        let done = self.is_done(&token);
        if done {
            TokenStatus::Done
        } else if self.is_old(&token) {
            TokenStatus::Old
        } else {
            TokenStatus::Open
        }
    }

    /// Puts what is given in the place of all that is at and below the path, or takes it out, under
    /// the token, and answers the position. What is checked and what is written are one call: no
    /// event comes between. A replacement under the last token again changes nothing.
    ///
    /// Refused 10 while the replica is halted; 14 where the session of the token is not the last,
    /// or the token is below the last; 15 where `since` is below the floor or above the position,
    /// 13 where an event touched the path since; 6 for the root, 2 where the parent is not a
    /// directory, 7 where the result would pass a limit; 8 where the record does not fit in the
    /// journal, 11 where memory is refused, and 9 where a device call fails. After 9 the replica is
    /// halted and remembers what it had; after any other refusal it is as it was.
    pub fn replace(
        &mut self,
        alloc: Global,
        token: Token,
        path: &Path,
        since: u64,
        new: Option<Node>,
    ) -> Result<u64, ReplicaError>
        ensures acknowledged { (history : History) → Stands self.old history
            → let after = replaced history (token_of token) path.now since (part_of new) in
            IfOk result (λ position. (position ≡ length after) × Stands self.new after) }
        ensures any_moment { (history : History) → Stands self.old history
            → LeavesOnly D.moment D.left_since (disk_of self.old) (disk_of self.new)
            (KeepsBeforeOrAfter self.old history
            (Replaced (token_of token) path.now since (part_of new))) }

        // A token that is done stays done, and nothing changes.
        ensures again { (history : History) → Stands self.old history
            → is_done history (token_of token) ≡ true
            → (result ≡ Ok (length history)) × (self.new ≡ self.old) }

        // Each refusal has its cause, and each cause its refusal: the first of them is answered, or
        // in the place of it that memory is refused.
        ensures cause { (history : History) → Stands self.old history
            → IfErr result (λ e. IsOneOf outside_refusals e
            ⊎ (replace_refusal (room_shown self.old) history (token_of token) path.now since
            (part_of new) ≡ Some (refusal_of e))) }
        ensures refused { (history : History) (why : Refusal) → Stands self.old history
            → is_done history (token_of token) ≡ false
            → replace_refusal (room_shown self.old) history (token_of token) path.now since
            (part_of new) ≡ Some why
            → IsErrAnd result (λ e. (refusal_of e ≡ why) ⊎ (refusal_of e ≡ Memory)) }
        ensures refusals { IfErr result (IsOneOf replace_refusals) }

        // The token, the touches and the place are looked at before memory is asked for.
        ensures memory { (history : History) → Stands self.old history
            → IfErr result (λ e. refusal_of e ≡ Memory
            → early_refusal history (token_of token) path.now since ≡ None) }

        // The event is written where the token is not done.
        ensures machine { Writes self.old self.new
            (unless (is_done_at (standing_shown self.old) (token_of token))
            (Replaced (token_of token) path.now since (part_of new))) (ended refusal_of result) }

        // What it is to the model's machine, also where its device fails or stops.
        ensures world { (number : ℕ) (machine : Journal) → IsMachine self.old number machine
            → WritesUnlessDone self.new number machine
            (unless (is_done_at (standing_shown self.old) (token_of token))
            (Replaced (token_of token) path.now since (part_of new))) (ended refusal_of result) }
    {
        opening_laws();
        if !self.may_replace(&token, path, since, new.as_ref())? {
            return Ok(self.position());
        }
        let path = path.copy(alloc)?;
        let event = Event::Replaced {
            token,
            path,
            since,
            new,
        };
        let (payload, update) = self.prepare(alloc, event)?;
        self.check_room(payload.len())?;
        self.commit(alloc, payload, update)
    }

    /// Whether the replacement is still to be made: not where its token is done. It is refused as
    /// the replacement is, but for what is found only as the event is added, and takes no memory.
    fn may_replace(
        &self,
        token: &Token,
        path: &Path,
        since: u64,
        new: Option<&Node>,
    ) -> Result<bool, ReplicaError>
        ensures done { IfOk result (λ may. may ≡ false
            → is_done_at (standing_shown self.now) (token_of token.now) ≡ true) }
        ensures again { is_done_at (standing_shown self.now) (token_of token.now) ≡ true
            → ¬ IsHalted self.now → result ≡ Ok false }
        ensures allowed { IfOk result (λ may. may ≡ true
            → MayReplace (standing_shown self.now) (token_of token.now)
            (part_of (option_map (λ there. there.now) new.entry))) }
        ensures untouched { (history : History) → standing_shown self.now ≡ standing_of history
            → IfOk result (λ may. may ≡ true
            → first_cause (since_causes history path.now since) ≡ None) }
        ensures early { (history : History) → standing_shown self.now ≡ standing_of history
            → IfOk result (λ may. may ≡ true
            → early_refusal history (token_of token.now) path.now since ≡ None) }
        ensures cause { (room : ℕ) (history : History)
            → standing_shown self.now ≡ standing_of history → ¬ IsHalted self.now
            → IfErr result (λ e. replace_refusal room history (token_of token.now) path.now since
            (part_of (option_map (λ there. there.now) new.entry)) ≡ Some (refusal_of e)) }
        ensures refusals { IfErr result (IsOneOf checking_refusals) }
        ensures halted { (result ≡ Err (ReplicaError.Journal JournalError.Halted))
            ↔ IsHalted self.now }
    {
        self.check_running()?;
        if self.is_done(token) {
            return Ok(false);
        }
        if self.is_old(token) {
            return Err(ReplicaError::OldSession);
        }
        self.check_untouched(path, since)?;
        self.tree().check_part(path, new)?;
        Ok(true)
    }
}
