//! The lock and its passes.
ghost use Rattle.std.specs.Prelude.{◌≡◌, ℕ, ◌∷◌, ◌%◌, ◌≤◌, ◌<◌, [], true, false, Some, List, IfOk};
ghost use Rattle.std.specs.Prelude.{IfErr, IfSome, MatchOption};
ghost use Rattle.syn_lock.specs.inner.Rule.{HasOut, Tells, far};

use crate::error::{LockError, Refused};
use crate::grows::Grows;
use crate::rule::{
    Admit, Agree, Arrive, Confirm, Discipline, Give, Hear, Leave, Look, LookFar, Publish, Take,
    Tell,
};
use crate::view::Known;
use atomic_table::{Seat, Table};
use crossbeam_utils::Backoff;
use crossbeam_utils::sync::{EventCount, Key};
use std::alloc::Global;
use std::snapshot::Snapshot;
use std::sync::Wait;

const POSITION: usize = 0;

const LOCK: usize = 1;

const PASSES: usize = 2;

// Positions from this on do not fit beside the bit of the lock's word, and stand in the first word.
pub(crate) const FAR: u64 = 1 << 63;

/// The most passes that a lock gives out.
pub const MOST_PASSES: u64 = 63;

/// What one caller has seen of the lock's history.
#[derive(Drop)]
pub struct Pass<S> {
    pub(crate) seat: Seat<Option<Box<S>>, Known<S>>,
}

/// What one caller who got no pass has seen of the lock.
#[derive(Drop)]
pub struct Onlooker<S> {
    pub(crate) seat: Seat<Option<Box<S>>, Known<S>>,
}

/// A lock over a state that only grows.
#[derive(Drop)]
pub struct Own<S: Grows> {
    table: Table<Option<Box<S>>, Known<S>, Snapshot<S>, Discipline, Global>,
    // Each hold that ends is told here to those who wait.
    left: EventCount,
    ghost sized: { (table.shared.table_id.words ≡ 3) × (table.shared.table_id.slots ≡ 1) },
}

// The first two words of a free lock over a state of this position.
fn words_of(position: u64) -> (u64, u64)
    ensures free { result.1 % 2 ≡ 0 }
    ensures tells { Tells result.0 result.1 position }
{
    if position < FAR {
        (0, 2 * position)
    } else {
        (position, 0)
    }
}

// Memory is refused, and the state comes back.
fn wanting<S>(state: S) -> Refused<S>
    ensures { (result.error ≡ LockError.Memory) × (result.value ≡ state) }
{
    Refused {
        error: LockError::Memory,
        value: state,
    }
}

// Waits until a hold ends, where the wait was announced, and else for a moment.
fn pause<R: Wait>(rt: &R, backoff: &Backoff, announced: Option<Key<'_>>) {
    match announced {
        Some(key) => key.wait(rt),
        None => backoff.snooze(),
    }
}

impl<S: Grows> Own<S> {
    ghost use Rattle.syn_lock.specs.declared.view.Hold.{Hold};
    ghost use mathlib.Core.List.{IsPrefix};
    ghost use Rattle.syn_lock.specs.History.{end_of, holds_by};
    ghost use Rattle.syn_lock.specs.Views.{seeing, entered, published, outside, Sees, LooksAt};
    ghost use Rattle.syn_lock.specs.Views.{EndsAt};
    ghost use Rattle.syn_lock.specs.inner.Rule.{caught_up, turned_away};
    ghost use Rattle.syn_lock.specs.Passes.{view_of, IsPassOf, IsNew, WasRefused, IsOnlookerOf};
    ghost use Rattle.syn_lock.specs.Passes.{passes_seen};
    ghost use Rattle.syn_lock.specs.Locks.{id_of, origin_of};

    /// A free lock. Where memory is wanting (11), the state comes back.
    pub fn new(alloc: Global, state: S) -> Result<Own<S>, Refused<S>>
        ensures ok { IfOk result (λ own. origin_of own ≡ state) }
        ensures err { IfErr result (λ refused. (refused.error ≡ LockError.Memory)
            × (refused.value ≡ state)) }
    {
        let (first, second) = words_of(state.position());
        let words = [first, second, 0];
        let origin = Snapshot::of(&state);
        let home = match Box::new(alloc, state) {
            Ok(home) => home,
            Err(failed) => return Err(wanting(failed.value)),
        };
        let Ok(mut slots) = Vec::with_capacity(alloc, 1) else {
            return Err(wanting(Box::into_inner(home)));
        };
        slots.push_reserved(Some(home));
        match Table::new(alloc, &words, slots, &origin) {
            Ok((table, _seat)) => Ok(Own {
                table,
                left: EventCount::new(),
            }),
            Err(atomic_table::Refused { mut slots }) => {
                let Some(Some(home)) = slots.pop() else {
                    unreachable!()
                };
                slots.destroy_empty();
                Err(wanting(Box::into_inner(home)))
            }
        }
    }

    /// A new pass, which has seen the history so far. It is refused (24) where as many passes are
    /// out as a lock gives: an onlooker comes back, which has seen them.
    ///
    /// A pass that is dropped stays out. The call takes no memory.
    pub fn pass(&self) -> Result<Pass<S>, Refused<Onlooker<S>>>
        ensures of { IfOk result (IsPassOf (id_of self.now) (origin_of self.now)) }
        ensures new { IfOk result (IsNew S.grows (origin_of self.now)) }
        ensures all_out { IfErr result (λ refused. (refused.error ≡ LockError.NoSeat)
            × IsOnlookerOf (id_of self.now) refused.value
            × (passes_seen refused.value ≡ MOST_PASSES)) }
    {
        let shared = &self.table.shared;
        let (mut given, mut seat) = shared.load_new_seat::<Arrive>(PASSES);
        while given < MOST_PASSES {
            let found = shared.compare_exchange::<Admit>(&mut seat, PASSES, given, given + 1);
            if found == given {
                return Ok(Pass { seat });
            }
            given = found;
        }
        Err(Refused {
            error: LockError::NoSeat,
            value: Onlooker { seat },
        })
    }

    /// The position of the state that was left last.
    pub fn position(&self, pass: &mut Pass<S>) -> u64
        requires { IsPassOf (id_of self.now) (origin_of self.now) pass.old }
        ensures of { IsPassOf (id_of self.now) (origin_of self.now) pass.new }
        ensures seen { LooksAt S.grows (origin_of self.now) (view_of pass.old) (view_of pass.new) }
        ensures position { result ≡ S.position
            (end_of (origin_of self.now) (view_of pass.new).seen) }
        ensures later { S.position (end_of (origin_of self.now) (view_of pass.old).seen) ≤ result }
    {
        self.look(pass)
    }

    /// Afterwards both passes have seen one history, which begins with what each had seen.
    pub fn meet(&self, first: &mut Pass<S>, second: &mut Pass<S>)
        requires first { IsPassOf (id_of self.now) (origin_of self.now) first.old }
        requires second { IsPassOf (id_of self.now) (origin_of self.now) second.old }
        ensures first_of { IsPassOf (id_of self.now) (origin_of self.now) first.new }
        ensures second_of { IsPassOf (id_of self.now) (origin_of self.now) second.new }
        ensures first_sees { LooksAt S.grows (origin_of self.now) (view_of first.old)
            (view_of first.new) }
        ensures second_sees { LooksAt S.grows (origin_of self.now) (view_of second.old)
            (view_of second.new) }
        ensures one { (view_of first.new).seen ≡ (view_of second.new).seen }
    {
        self.hear(second, first);
        self.look(second);
        self.agree(first, second);
    }

    /// The state at the end of the history. It is refused (12) where a guard was never left: the
    /// pass comes back, which found the lock taken. The lock is gone in either case.
    pub fn close(self, mut pass: Pass<S>) -> Result<S, Refused<Pass<S>>>
    where
        S: Drop,
        requires { IsPassOf (id_of self) (origin_of self) pass }
        ensures ok { IfOk result (EndsAt S.grows (origin_of self) (view_of pass)) }
        ensures later { IfOk result (S.grows (end_of (origin_of self) (view_of pass).seen)) }
        ensures err { IfErr result (λ refused. (refused.error ≡ LockError.Busy)
            × WasRefused (id_of self) (origin_of self) pass refused.value) }
    {
        let Some(home) = self.take(&mut pass) else {
            return Err(Refused {
                error: LockError::Busy,
                value: pass,
            });
        };
        Ok(Box::into_inner(home))
    }

    // Sees the history so far, which begins with what the pass was told.
    fn look(&self, pass: &mut Pass<S>) -> u64
        requires { IsPassOf (id_of self.now) (origin_of self.now) pass.old }
        ensures of { IsPassOf (id_of self.now) (origin_of self.now) pass.new }
        ensures seen { LooksAt S.grows (origin_of self.now) (view_of pass.old) (view_of pass.new) }
        ensures told { IsPrefix pass.old.seat.me.0.told (view_of pass.new).seen }
        ensures position { result ≡ S.position
            (end_of (origin_of self.now) (view_of pass.new).seen) }
    {
        let shared = &self.table.shared;
        let near = shared.load::<Look>(&mut pass.seat, LOCK);
        let far = shared.load::<LookFar>(&mut pass.seat, POSITION);
        if far == 0 { near / 2 } else { far }
    }

    // The pass is told what another has seen.
    fn hear(&self, pass: &mut Pass<S>, other: &mut Pass<S>)
        requires pass { IsPassOf (id_of self.now) (origin_of self.now) pass.old }
        requires other { IsPassOf (id_of self.now) (origin_of self.now) other.old }
        ensures pass_of { IsPassOf (id_of self.now) (origin_of self.now) pass.new }
        ensures other_of { IsPassOf (id_of self.now) (origin_of self.now) other.new }
        ensures pass_same { view_of pass.new ≡ view_of pass.old }
        ensures other_same { view_of other.new ≡ view_of other.old }
        ensures told { pass.new.seat.me.0.told ≡ (view_of other.old).seen }
    {
        let shared = &self.table.shared;
        let note = shared.split_seat::<Tell>(&mut other.seat);
        shared.join_seat::<Hear>(&mut pass.seat, note);
    }

    // The pass sees what another has seen, which goes on from what it had seen itself.
    fn agree(&self, pass: &mut Pass<S>, other: &mut Pass<S>)
        requires pass { IsPassOf (id_of self.now) (origin_of self.now) pass.old }
        requires other { IsPassOf (id_of self.now) (origin_of self.now) other.old }
        requires further { IsPrefix (view_of pass.old).seen (view_of other.old).seen }
        ensures pass_of { IsPassOf (id_of self.now) (origin_of self.now) pass.new }
        ensures other_of { IsPassOf (id_of self.now) (origin_of self.now) other.new }
        ensures pass_sees { view_of pass.new ≡ seeing (view_of pass.old) (view_of other.old).seen }
        ensures own { holds_by (view_of pass.new).number (view_of pass.new).seen
            ≡ (view_of pass.new).own }
        ensures other_same { view_of other.new ≡ view_of other.old }
    {
        let shared = &self.table.shared;
        let note = shared.split_seat::<Tell>(&mut other.seat);
        shared.join_seat::<Agree>(&mut pass.seat, note);
        shared.load::<Confirm>(&mut pass.seat, POSITION);
    }

    // Takes the state out of the lock.
    pub(crate) fn take(&self, pass: &mut Pass<S>) -> Option<Box<S>>
        requires { IsPassOf (id_of self.now) (origin_of self.now) pass.old }
        ensures same { pass.new.seat.table_id ≡ pass.old.seat.table_id }
        ensures taken { MatchOption result (pass.new.seat.me ≡ (turned_away pass.old.seat.me.0, []))
            (λ home. (seen : List (Hold S))
            × Sees S.grows (origin_of self.now) (view_of pass.old) seen
            ×
            (pass.new.seat.me ≡ (
              caught_up pass.old.seat.me.0
                  (entered (view_of pass.old) seen) true,
              (0, None) ∷ [],
            ))
            × (home.value ≡ end_of (origin_of self.now) seen)) }
        ensures later { IfSome result (λ home. S.grows
            (end_of (origin_of self.now) (view_of pass.old).seen) home.value) }
    {
        let shared = &self.table.shared;
        let found = shared.fetch_or::<Take>(&mut pass.seat, LOCK, 1);
        if found % 2 != 0 {
            return None;
        }
        Some(shared.exchange(&mut pass.seat, 0, None).unwrap())
    }

    // Puts the state into the slot, while the pass has the lock.
    pub(crate) fn put(&self, pass: &mut Pass<S>, home: Box<S>)
        requires ours { pass.old.seat.table_id ≡ id_of self.now }
        requires out { pass.old.seat.me.1 ≡ (0, None) ∷ [] }
        ensures same { pass.new.seat.table_id ≡ pass.old.seat.table_id }
        ensures put { pass.new.seat.me ≡ (pass.old.seat.me.0, (0, Some home) ∷ []) }
    {
        let before = self.table.shared.exchange(&mut pass.seat, 0, Some(home));
        let None = before else { unreachable!() };
    }

    // Puts the state into the slot, and its position into the first word, which is for the far
    // ones.
    pub(crate) fn publish(&self, pass: &mut Pass<S>, home: Box<S>, position: u64)
        requires ours { pass.old.seat.table_id ≡ id_of self.now }
        requires out { pass.old.seat.me.1 ≡ (0, None) ∷ [] }
        requires inside { pass.old.seat.me.0.inside ≡ true }
        requires origin { (view_of pass.old).origin ≡ Some (origin_of self.now) }
        requires grown { S.grows (end_of (origin_of self.now) (view_of pass.old).seen)
            home.value }
        requires position { position ≡ S.position home.value }
        requires far { far ≤ position }
        ensures same { pass.new.seat.table_id ≡ pass.old.seat.table_id }
        ensures inside { pass.new.seat.me.0.inside ≡ true }
        ensures put { HasOut pass.new.seat.me
            (end_of (origin_of self.now) (view_of pass.new).seen) }
        ensures published { view_of pass.new
            ≡ published (origin_of self.now) (view_of pass.old) home.value }
        ensures last { end_of (origin_of self.now) (view_of pass.new).seen ≡ home.value }
    {
        self.put(pass, home);
        self.table
            .shared
            .store::<Publish>(&mut pass.seat, POSITION, position);
    }

    // Gives the lock back with the last state of the history, whose position is far.
    pub(crate) fn give(&self, pass: &mut Pass<S>)
        requires ours { pass.old.seat.table_id ≡ id_of self.now }
        requires last { HasOut pass.old.seat.me
            (end_of (origin_of self.now) (view_of pass.old).seen) }
        requires inside { pass.old.seat.me.0.inside ≡ true }
        requires origin { (view_of pass.old).origin ≡ Some (origin_of self.now) }
        requires far { far ≤ S.position (end_of (origin_of self.now) (view_of pass.old).seen) }
        ensures same { pass.new.seat.table_id ≡ pass.old.seat.table_id }
        ensures outside { (pass.new.seat.me.1 ≡ []) × (pass.new.seat.me.0.inside ≡ false) }
        ensures given { view_of pass.new ≡ outside (view_of pass.old) }
    {
        self.table.shared.store::<Give>(&mut pass.seat, LOCK, 0);
        self.left.notify_one();
    }

    // Puts the state into the slot, publishes its position and gives the lock back, in one step.
    pub(crate) fn leave_near(&self, pass: &mut Pass<S>, home: Box<S>, position: u64)
        requires ours { pass.old.seat.table_id ≡ id_of self.now }
        requires out { pass.old.seat.me.1 ≡ (0, None) ∷ [] }
        requires inside { pass.old.seat.me.0.inside ≡ true }
        requires origin { (view_of pass.old).origin ≡ Some (origin_of self.now) }
        requires grown { S.grows (end_of (origin_of self.now) (view_of pass.old).seen)
            home.value }
        requires position { position ≡ S.position home.value }
        requires near { position < far }
        ensures same { pass.new.seat.table_id ≡ pass.old.seat.table_id }
        ensures outside { (pass.new.seat.me.1 ≡ []) × (pass.new.seat.me.0.inside ≡ false) }
        ensures left { view_of pass.new ≡ outside
            (published (origin_of self.now) (view_of pass.old) home.value) }
    {
        self.put(pass, home);
        self.table
            .shared
            .store::<Leave>(&mut pass.seat, LOCK, 2 * position);
        self.left.notify_one();
    }
}

impl<S: Grows> Pass<S> {
    ghost use Rattle.syn_lock.specs.declared.view.Hold.{Hold};
    ghost use Rattle.syn_lock.specs.History.{end_of};
    ghost use Rattle.syn_lock.specs.Views.{entered, Sees, refused_times};
    ghost use Rattle.syn_lock.specs.Passes.{view_of, IsPassOf};
    ghost use Rattle.syn_lock.specs.Locks.{id_of, origin_of};

    // Takes the state out of the lock, and waits until it is there.
    pub(crate) fn wait<R: Wait>(&mut self, rt: &R, own: &Own<S>) -> Box<S>
        requires { IsPassOf (id_of own.now) (origin_of own.now) self.old }
        ensures same { self.new.seat.table_id ≡ self.old.seat.table_id }
        ensures inside { (self.new.seat.me.1 ≡ (0, None) ∷ [])
            × (self.new.seat.me.0.inside ≡ true) }
        ensures taken { (times : ℕ) × (seen : List (Hold S))
            × Sees S.grows (origin_of own.now) (view_of self.old) seen
            × (view_of self.new ≡ entered (refused_times (view_of self.old) times) seen)
            × (result.value ≡ end_of (origin_of own.now) seen) }
        ensures later { S.grows (end_of (origin_of own.now) (view_of self.old).seen)
            result.value }
    {
        let backoff = Backoff::new();
        for _ in rt.forever() {
            let key = backoff.is_completed().then(|| own.left.prepare_wait());
            if let Some(home) = own.take(self) {
                return home;
            }
            pause(rt, &backoff, key);
        }
        unreachable!()
    }
}
