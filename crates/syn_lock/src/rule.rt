//! The rule of the lock's table, and what each of its steps tells.
//!
//! Word 1 is the lock's word: twice the position of the state that was left last, and 1 more while
//! the lock is taken. A position from 2^63 on is word 0, which is 0 up to then. Word 2 counts
//! passes. Slot 0 has the state while the lock is free, in a box, so that a hold moves no more than
//! a pointer.
use crate::grows::Grows;
use crate::view::Known;
use atomic_table::{Join, Play, Split, TableRule};
use std::snapshot::Snapshot;

/// The rule of the lock's table.
pub struct Discipline;

impl<S: Grows> TableRule<Option<Box<S>>, Known<S>, Snapshot<S>> for Discipline {
    ghost use Rattle.syn_lock.specs.inner.Rule.{Lawful, witness};
    ghost use Rattle.std.specs.Prelude.{[], Some};

    ghost holds = { λ key. Lawful S.position S.grows key.value };

    ghost first = { λ key. witness (Some key.value) [] };
}

/// It sets the lowest bit of the lock's word.
pub(crate) struct Take;

impl<S: Grows> Play<Option<Box<S>>, Known<S>> for Take {
    ghost use Rattle.syn_lock.specs.inner.Rule.{takes_lock};

    ghost then = { takes_lock S.grows };
}

/// A store of the new position into word 0.
pub(crate) struct Publish;

impl<S: Grows> Play<Option<Box<S>>, Known<S>> for Publish {
    ghost use Rattle.syn_lock.specs.inner.Rule.{publishes};

    ghost then = { publishes };
}

/// A store of 0 into the lock's word.
pub(crate) struct Give;

impl<S: Grows> Play<Option<Box<S>>, Known<S>> for Give {
    ghost use Rattle.syn_lock.specs.inner.Rule.{gives_lock};

    ghost then = { gives_lock };
}

/// A store of twice the new position into the lock's word, which publishes it and gives the lock
/// back.
pub(crate) struct Leave;

impl<S: Grows> Play<Option<Box<S>>, Known<S>> for Leave {
    ghost use Rattle.syn_lock.specs.inner.Rule.{leaves};

    ghost then = { leaves };
}

/// A load of the lock's word.
pub(crate) struct Look;

impl<S: Grows> Play<Option<Box<S>>, Known<S>> for Look {
    ghost use Rattle.syn_lock.specs.inner.Rule.{looks};

    ghost then = { looks S.position S.grows };
}

/// A load of word 0.
pub(crate) struct LookFar;

impl<S: Grows> Play<Option<Box<S>>, Known<S>> for LookFar {
    ghost use Rattle.syn_lock.specs.inner.Rule.{looks_far};

    ghost then = { looks_far S.position S.grows };
}

/// A load that changes nothing.
pub(crate) struct Confirm;

impl<S: Grows> Play<Option<Box<S>>, Known<S>> for Confirm {
    ghost use Rattle.syn_lock.specs.inner.Rule.{confirms};

    ghost then = { confirms };
}

/// A load of the count of passes by a new seat.
pub(crate) struct Arrive;

impl<S: Grows> Play<Option<Box<S>>, Known<S>> for Arrive {
    ghost use Rattle.syn_lock.specs.inner.Rule.{arrives};

    ghost then = { arrives };
}

/// A compare-exchange of the count of passes, which adds 1 and makes the seat a pass.
pub(crate) struct Admit;

impl<S: Grows> Play<Option<Box<S>>, Known<S>> for Admit {
    ghost use Rattle.syn_lock.specs.inner.Rule.{admits};

    ghost then = { admits S.grows };
}

/// A seat that carries what a pass has seen.
pub(crate) struct Tell;

impl<S> Split<Known<S>> for Tell {
    ghost use Rattle.syn_lock.specs.inner.Rule.{witness};

    ghost left = { λ v. v };

    ghost right = { λ v. witness v.view.origin v.view.seen };
}

/// The pass hears what the other has seen.
pub(crate) struct Hear;

impl<S> Join<Known<S>> for Hear {
    ghost use Rattle.std.specs.Prelude.{[], None};
    ghost use Rattle.syn_lock.specs.inner.Rule.{hearing, witness};

    ghost both = { hearing };

    ghost spent = { witness None [] };
}

/// The pass has now seen what the other has seen, which goes on from what it had seen itself.
pub(crate) struct Agree;

impl<S> Join<Known<S>> for Agree {
    ghost use Rattle.std.specs.Prelude.{[], None};
    ghost use Rattle.syn_lock.specs.inner.Rule.{agreeing, witness};

    ghost both = { agreeing };

    ghost spent = { witness None [] };
}
