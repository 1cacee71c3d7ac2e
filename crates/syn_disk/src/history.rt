//! What only clauses read: how a disk was before each of its calls, and how many calls failed.
//!
//! Both take no memory, and their calls do nothing when they run.
ghost use Rattle.std.specs.Prelude.{◌≡◌, ◌+◌, ◌++◌, ◌∷◌, [], ℕ, List, length};

use http_server::Log;
use std::marker::Model;

/// Earlier states, the oldest first.
#[derive(Drop)]
pub struct History<A, B> {
    past: Log<A, B>,
}

impl<A, B> Model for History<A, B> {
    ghost Value = { List (A × B) };

    ghost view = { λ history. history.past.items };
}

impl<A, B> History<A, B> {
    /// No state is noted.
    pub fn new() -> History<A, B>
        ensures { result ≡ [] }
    {
        History { past: Log::new() }
    }

    /// Notes a state, after those that are noted.
    pub fn note(&mut self, first: &A, second: &B)
        ensures { self.new ≡ self.old ++ (first.now, second.now) ∷ [] }
    {
        self.past = self.past.and(first, second);
    }
}

/// A count that has no greatest value.
#[derive(Drop)]
pub struct Tally {
    calls: Log<u8, u8>,
}

impl Model for Tally {
    ghost Value = { ℕ };

    ghost view = { λ tally. length tally.calls.items };
}

impl Tally {
    /// Nothing is counted.
    pub fn new() -> Tally
        ensures { result ≡ 0 }
    {
        Tally { calls: Log::new() }
    }

    /// Counts one more.
    pub fn add_one(&mut self)
        ensures { self.new ≡ self.old + 1 }
    {
        self.calls = self.calls.and(&0, &0);
    }
}
