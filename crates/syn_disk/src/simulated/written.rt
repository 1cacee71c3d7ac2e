//! Which bytes of a disk in memory were written since the last sync.
ghost use Rattle.std.specs.Prelude.{◌≡◌, ◌<◌, ◌≤◌, ◌+◌, ◌-◌, max, ◌++◌, [], vec_capacity, ℕ, Bool};
ghost use Rattle.std.specs.Prelude.{true, false, List, length, replicate, IfOk};
ghost use Rattle.syn_disk.specs.Disk.{overwritten};
ghost use Rattle.syn_disk.specs.Written.{is_written, IsHull};
ghost use Rattle.syn_disk.specs.declared.disk.TheConstants.{PART_SIZE};

use crate::disk::PART_SIZE;
use std::alloc::{AllocError, Global};
use std::marker::Model;

/// A flag for each byte, and a range in which all that are set lie, so that the rest need not be
/// looked at.
#[derive(Drop)]
pub struct Written {
    flags: Vec<bool>,
    from: usize,
    to: usize,
}

impl Model for Written {
    ghost Value = { List Bool };

    ghost view = { λ written. written.flags.items };

    ghost invariant = { λ written. IsHull written.flags.items written.from written.to
        × (PART_SIZE ≤ vec_capacity written.flags) };
}

impl Written {
    /// No flag is kept yet.
    pub fn new(alloc: Global) -> Result<Written, AllocError>
        ensures { IfOk result (λ written. written ≡ []) }
    {
        let flags = Vec::with_capacity(alloc, PART_SIZE)?;
        Ok(Written {
            flags,
            from: 0,
            to: 0,
        })
    }

    /// Keeps flags up to `to`, in the room that is there.
    pub fn extend(&mut self, to: usize)
        requires longer { length self.old ≤ to }
        requires room { to ≤ PART_SIZE }
        ensures { self.new ≡ self.old ++ replicate (to - length self.old) false }
    {
        self.flags.resize(to, false).unwrap();
    }

    /// Whether the byte at `i` was written.
    pub fn is_set(&self, i: usize) -> bool
        requires { i < length self.now }
        ensures { result ≡ is_written self.now i }
    {
        self.flags[i]
    }

    /// A range in which all that was written lies.
    pub fn hull(&self) -> (usize, usize)
        ensures { IsHull self.now result.0 result.1 }
    {
        (self.from, self.to)
    }

    /// Notes so many bytes from `at` on as written.
    pub fn set(&mut self, at: usize, len: usize)
        requires { at + len ≤ length self.old }
        ensures { self.new ≡ overwritten self.old at (replicate len true) }
    {
        fill(&mut self.flags, at, len, true);
        (self.from, self.to) = join(self.from, self.to, at, at + len);
    }

    /// Notes no byte as written.
    pub fn clear(&mut self)
        ensures size { length self.new ≡ length self.old }
        ensures none { (i : ℕ) → is_written self.new i ≡ false }
    {
        fill(&mut self.flags, self.from, self.to - self.from, false);
        self.from = 0;
        self.to = 0;
    }
}

fn fill(flags: &mut Vec<bool>, at: usize, len: usize, value: bool)
    requires { at + len ≤ length flags.old.items }
    ensures items { flags.new.items ≡ overwritten flags.old.items at (replicate len value) }
    ensures room { vec_capacity flags.new ≡ vec_capacity flags.old }
{
    flags[at..at + len].fill(value);
}

// The least range that has both, where an empty first one does not count.
fn join(from: usize, to: usize, at: usize, end: usize) -> (usize, usize)
    requires { at ≤ end }
    ensures ordered { result.0 ≤ result.1 }
    ensures second { (result.0 ≤ at) × (end ≤ result.1) }
    ensures first { from < to → (result.0 ≤ from) × (to ≤ result.1) }
    ensures within { result.1 ≤ max to end }
{
    if from < to {
        (from.min(at), to.max(end))
    } else {
        (at, end)
    }
}
