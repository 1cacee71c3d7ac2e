//! Passes that are kept, with the name of their lock in their type.
ghost use Rattle.std.specs.Prelude.{◌≡◌, IfErr};
ghost use Rattle.syn_lock.specs.declared.own.Pass.{Pass};
ghost use Rattle.syn_lock.specs.Passes.{IsPassIn};

use crate::own::Pass;
use std::marker::{Brand, Model, PhantomData};
use std::sync::{Mutex, Wait};

/// Names one lock over a state of the type `S`. Each call of a program that passes `Brand` picks
/// it.
pub trait Naming<S> {
    ghost use Rattle.std.specs.Prelude.{Option};
    ghost use Rattle.atomic_table.specs.Seated.{TableId};

    ghost lock: { TableId };

    // The state that was put into the lock.
    ghost origin: { Option S };
}

impl<S> Naming<S> for Brand {
    ghost use Rattle.std.specs.Prelude.{None};
    ghost use Rattle.syn_lock.specs.Locks.{no_lock};

    ghost lock = { no_lock };

    ghost origin = { None };
}

/// A pass of the lock that `L` names. Its type alone says so: it may lie in a collection or under
/// another lock, and go to another thread. To a contract it is the pass.
#[derive(Drop)]
pub struct NamedPass<S, L: Naming<S>> {
    pass: Pass<S>,
    name: PhantomData<L>,
}

impl<S, L: Naming<S>> Model for NamedPass<S, L> {
    ghost Value = { Pass S };

    ghost view = { λ n. n.pass };

    ghost invariant = { λ n. IsPassIn L.lock L.origin n.pass };
}

impl<S, L: Naming<S>> NamedPass<S, L> {
    /// The pass, as one of the lock that `L` names.
    pub fn new(pass: Pass<S>) -> NamedPass<S, L>
        requires { IsPassIn L.lock L.origin pass }
        ensures { result ≡ pass }
    {
        NamedPass {
            pass,
            name: PhantomData,
        }
    }

    /// The pass without the name. It is one of the lock that `L` names.
    pub fn into_pass(self) -> Pass<S>
        ensures of { IsPassIn L.lock L.origin result }
        ensures same { result ≡ self }
    {
        self.pass
    }
}

/// Passes of one lock, for whoever comes next.
#[derive(Drop)]
pub struct PassPool<S, L: Naming<S>> {
    passes: Mutex<Vec<NamedPass<S, L>>>,
}

impl<S, L: Naming<S>> PassPool<S, L> {
    /// A pool that lends these passes.
    pub fn new(passes: Vec<NamedPass<S, L>>) -> PassPool<S, L> {
        PassPool {
            passes: Mutex::new(passes),
        }
    }

    /// Takes a pass out, if one is left.
    pub fn draw<R: Wait>(&self, rt: &R) -> Option<NamedPass<S, L>> {
        self.passes.lock(rt).pop()
    }

    /// Puts a pass in, for the next who draws. Where memory is wanting it comes back.
    pub fn put<R: Wait>(&self, rt: &R, pass: NamedPass<S, L>) -> Result<(), NamedPass<S, L>>
        ensures { IfErr result (λ back. back ≡ pass) }
    {
        self.passes
            .lock(rt)
            .push(pass)
            .map_err(|failed| failed.value)
    }
}
