//! A hold of the lock.
ghost use Rattle.std.specs.Prelude.{◌≡◌, [], IfOk, IfErr};
ghost use Rattle.std.specs.Borrow.{sem, follows, RestsIfErr};
ghost use mir.Syntax.{named};
ghost use Rattle.syn_lock.specs.contracts.guard.Holder.{the_row};
ghost use Rattle.syn_lock.specs.contracts.own.Pass.{the_row as pass_row};
ghost use Rattle.syn_lock.specs.History.{end_of};
ghost use Rattle.syn_lock.specs.Views.{published, outside};
ghost use Rattle.syn_lock.specs.Locks.{id_of, origin_of};
ghost use Rattle.syn_lock.specs.Passes.{view_of, IsPassOf, WasRefused};
ghost use Rattle.syn_lock.specs.Guards.{state_of, with_state, name_of_pass, knows, IsGuardOf};
ghost use Rattle.syn_lock.specs.Guards.{home_row, HasEntered, HasWaited};

use crate::error::LockError;
use crate::grows::Grows;
use crate::own::{FAR, Own, Pass};
use std::ops::{Deref, DerefMut};
use std::sync::Wait;

/// The lock's state, until `leave`. It cannot be dropped.
pub type Guard<'a, S> = Holder<'a, S, Box<S>>;

/// A pass that has the lock, with what the state lies in. That is a box, so that a hold moves no
/// more than a pointer.
///
/// It is a parameter because no clause can say what is left behind a reference that stands beside a
/// field with a pointer.
pub struct Holder<'a, S, H> {
    pass: &'a mut Pass<S>,
    state: H,
}

impl<S: Grows> Pass<S> {
    /// Takes the lock if it is free. It is refused (12) where its one exchange found the lock
    /// taken.
    pub fn try_enter(&mut self, own: &Own<S>) -> Result<Guard<'_, S>, LockError>
        requires { IsPassOf (id_of own.now) (origin_of own.now) self.old }
        ensures busy { IfErr result (λ error. error ≡ LockError.Busy) }
        ensures* refused { sem 𝓛 (RestsIfErr (pass_row S.row) self.entry name_of_pass result
            (WasRefused (id_of own.now) (origin_of own.now) self.old)) }
        ensures same_reference { IfOk result (λ g. name_of_pass g ≡ self.entry.ghost_name) }
        ensures of { IfOk result (IsGuardOf (id_of own.now) (origin_of own.now)) }
        ensures entered { IfOk result (HasEntered S.grows (origin_of own.now) (view_of self.old)) }
        ensures later { IfOk result (λ g. S.grows
            (end_of (origin_of own.now) (view_of self.old).seen) (state_of g)) }
    {
        let Some(state) = own.take(self) else {
            return Err(LockError::Busy);
        };
        Ok(Holder { pass: self, state })
    }

    /// Takes the lock, and waits until it is free.
    pub fn enter<R: Wait>(&mut self, rt: &R, own: &Own<S>) -> Guard<'_, S>
        requires { IsPassOf (id_of own.now) (origin_of own.now) self.old }
        ensures same_reference { name_of_pass result ≡ self.entry.ghost_name }
        ensures of { IsGuardOf (id_of own.now) (origin_of own.now) result }
        ensures entered { HasWaited S.grows (origin_of own.now) (view_of self.old) result }
        ensures later { S.grows (end_of (origin_of own.now) (view_of self.old).seen)
            (state_of result) }
    {
        let state = self.wait(rt, own);
        Holder { pass: self, state }
    }
}

impl<S: Grows> Own<S> {
    /// Gives the lock back with the state that the guard lends.
    pub fn leave(&self, guard: Guard<'_, S>)
        requires of { IsGuardOf (id_of self.now) (origin_of self.now) guard }
        requires grown { S.grows (end_of (origin_of self.now) (knows guard).seen) (state_of guard) }
        ensures of { IsPassOf (id_of self.now) (origin_of self.now) guard.exit.0.now }
        ensures left { view_of guard.exit.0.now
            ≡ outside (published (origin_of self.now) (knows guard.entry) (state_of guard.entry)) }
    {
        let Holder { pass, state } = guard;
        let position = state.position();
        if position < FAR {
            self.leave_near(pass, state, position);
        } else {
            self.publish(pass, state, position);
            self.give(pass);
        }
    }
}

impl<S> Deref for Guard<'_, S> {
    type Target = S;

    ghost deref_gives = { λ g x. x ≡ state_of g };

    fn deref(&self) -> &S
        ensures { result.now ≡ state_of self.now }
    {
        &*self.state
    }
}

// The borrow checker reads this `follows` only if the row gives the guard's lifetime as `named 1`,
// its number in this signature.
impl<S> DerefMut for Guard<'_, S> {
    ghost deref_mut_gives = { λ g x. x ≡ state_of g };

    fn deref_mut(&mut self) -> &mut S
        ensures* writes_back { sem 𝓛 (follows
            (the_row (record { mir = named 1; lft = [] }) S.row (home_row S.row)) S.row
            self.entry.ghost_name result.ghost_name (with_state self.old)) }
        ensures value { result.now ≡ state_of self.old }
    {
        &mut *self.state
    }
}
