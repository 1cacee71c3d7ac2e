//! Which of two sides is to be read.

use syn_path::Side;

/// Tells which of two sides has something to read. No clause says what it answers: a driver takes
/// what each side replies in order, whichever it reads first.
pub trait Readiness {
    /// Waits until a side has bytes to read or has closed, and answers which: the left one where
    /// both have. None where neither has for as long as a session waits for an answer.
    fn wait(&mut self) -> Option<Side>;
}
