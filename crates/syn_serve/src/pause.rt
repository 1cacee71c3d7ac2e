//! Where a worker may be made to wait.

/// Where a worker is with a request of this kind, the first byte of its body.
#[derive(Clone, Copy, Debug, PartialEq, Eq)]
pub enum Point {
    /// The request came, and the lock was not entered yet.
    Before(u8),
    /// It was answered, the lock is left, and the reply was not written yet.
    After(u8),
}

/// Is told where a worker is, before and after each answer, outside the lock. A test has it wait
/// there.
pub trait Pause {
    /// The worker is there, and goes on as this returns.
    fn at(&mut self, point: Point);
}
