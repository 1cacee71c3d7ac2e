//! What a pass knows of the lock's history. It exists in proofs alone.
use std::collections::LinkedList;

/// One hold of the lock, or one step on the lock's word: who made it, what was there before, and
/// what after. No value of it is made.
pub struct Hold<S> {
    /// The number of the pass.
    pub pass: u64,
    pub found: S,
    pub left: S,
}

/// What a pass has seen of the history of holds. No value of it is made.
pub struct View<S> {
    /// The pass's number, or 0 for a seat that is no pass.
    pub number: u64,
    /// The state that was put into the lock, or nothing for a seat that was given up.
    pub origin: Option<S>,
    pub seen: LinkedList<Hold<S>>,
    /// The pass's own holds.
    pub own: LinkedList<Hold<S>>,
    /// The pass's own steps on the lock's word, which is 0 while the lock is free and 1 while it is
    /// taken.
    pub turns: LinkedList<Hold<u64>>,
}

/// All that a seat knows. No value of it is made.
pub struct Known<S> {
    pub view: View<S>,
    /// The holds that another seat has told it of.
    pub told: LinkedList<Hold<S>>,
    /// All steps on the lock's word, up to the last one that gave the lock back for this seat.
    pub watched: LinkedList<Hold<u64>>,
    /// The pass has the lock.
    pub inside: bool,
    /// How many passes were out when it last counted them.
    pub passes: u64,
}
