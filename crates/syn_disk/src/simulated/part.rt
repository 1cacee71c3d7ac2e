//! A part of a disk in memory, of which only as much is kept as was touched.
ghost use Rattle.std.specs.Prelude.{◌≡◌, ◌≤◌, ◌<◌, ◌+◌, ◌-◌, ℕ, true, false, length, replicate};
ghost use Rattle.std.specs.Prelude.{take, drop, slice_index, vec_capacity, if◌then◌else◌, IfOk};
ghost use Rattle.syn_disk.specs.Disk.{overwritten};
ghost use Rattle.syn_disk.specs.inner.Memory.{Tracks};
ghost use Rattle.syn_disk.specs.Stop.{Left};
ghost use Rattle.syn_disk.specs.Written.{is_written};
ghost use Rattle.syn_disk.specs.declared.disk.TheConstants.{PART_SIZE};

use super::leaves::Leaves;
use super::written::Written;
use crate::bytes::{copy_out, copy_range, extend, overwrite};
use crate::disk::PART_SIZE;
use std::alloc::{AllocError, Global};

/// Room for all bytes is taken at once. After those that are kept all are zero, synced and not
/// written.
#[derive(Drop)]
pub struct SimulatedPart {
    content: Vec<u8>,
    synced: Vec<u8>,
    written: Written,
    ghost tracks: { Tracks content.items synced.items written PART_SIZE },
    ghost room: { PART_SIZE ≤ vec_capacity content },
    ghost synced_room: { PART_SIZE ≤ vec_capacity synced },
}

impl SimulatedPart {
    ghost use Rattle.syn_disk.specs.SimulatedPart.{content_of, synced_of, written_of, IsClean};

    /// A part of zeros, all synced. Refused where memory is refused.
    pub fn new(alloc: Global) -> Result<SimulatedPart, AllocError>
        ensures zeros { IfOk result (λ part. (i : ℕ) → slice_index (content_of part) i ≡ 0) }
        ensures synced { IfOk result (λ part. synced_of part ≡ content_of part) }
        ensures clean { IfOk result (λ part. IsClean part) }
    {
        let content = Vec::with_capacity(alloc, PART_SIZE)?;
        let synced = Vec::with_capacity(alloc, PART_SIZE)?;
        let written = Written::new(alloc)?;
        Ok(SimulatedPart {
            content,
            synced,
            written,
        })
    }

    // Keeps the first bytes up to `to`.
    fn reach(&mut self, to: usize)
        requires { to ≤ PART_SIZE }
        ensures kept { to ≤ length self.new.content.items }
        ensures content { content_of self.new ≡ content_of self.old }
        ensures synced { synced_of self.new ≡ synced_of self.old }
        ensures written { written_of self.new ≡ written_of self.old }
    {
        if self.content.len() < to {
            extend(&mut self.content, to);
            extend(&mut self.synced, to);
            self.written.extend(to);
        }
    }

    /// Reads the bytes from `at` on.
    pub fn read(&mut self, at: usize, into: &mut [u8])
        requires { at + length into.old ≤ PART_SIZE }
        ensures into { into.new ≡ take (length into.old) (drop at (content_of self.old)) }
        ensures content { content_of self.new ≡ content_of self.old }
        ensures synced { synced_of self.new ≡ synced_of self.old }
        ensures written { written_of self.new ≡ written_of self.old }
    {
        if !into.is_empty() {
            self.reach(at + into.len());
            copy_out(&self.content, at, into);
        }
    }

    /// Writes the bytes from `at` on, not synced yet.
    pub fn write(&mut self, at: usize, bytes: &[u8])
        requires { at + length bytes.now ≤ PART_SIZE }
        ensures content { content_of self.new ≡ overwritten (content_of self.old) at bytes.now }
        ensures synced { synced_of self.new ≡ synced_of self.old }
        ensures written { written_of self.new
            ≡ overwritten (written_of self.old) at (replicate (length bytes.now) true) }
    {
        if !bytes.is_empty() {
            self.reach(at + bytes.len());
            overwrite(&mut self.content, at, bytes);
            self.written.set(at, bytes.len());
        }
    }

    /// Takes all that was written for synced.
    pub fn sync(&mut self)
        ensures content { content_of self.new ≡ content_of self.old }
        ensures synced { synced_of self.new ≡ content_of self.old }
        ensures clean { IsClean self.new }
    {
        catch_up(&mut self.synced, &self.content, &self.written);
        self.written.clear();
    }

    /// A stop of the machine: what was not synced is left as `leaves` says.
    pub fn stop(&mut self, leaves: Leaves)
        ensures each { Left leaves (content_of self.old) (synced_of self.old) (written_of self.old)
            (content_of self.new) }
        ensures synced { synced_of self.new ≡ content_of self.new }
        ensures clean { IsClean self.new }
    {
        leave(&mut self.content, &self.synced, &self.written, leaves);
        catch_up(&mut self.synced, &self.content, &self.written);
        self.written.clear();
    }
}

// Makes the copy equal to the original, which it is already where nothing was written.
fn catch_up(copy: &mut Vec<u8>, original: &Vec<u8>, written: &Written)
    requires sizes { length copy.old.items ≡ length original.now.items }
    requires flags { length written.now ≡ length original.now.items }
    requires same { (i : ℕ) → is_written written.now i ≡ false
        → slice_index copy.old.items i ≡ slice_index original.now.items i }
    ensures copied { copy.new.items ≡ original.now.items }
    ensures room { vec_capacity copy.new ≡ vec_capacity copy.old }
{
    let (from, to) = written.hull();
    copy_range(copy, original, from, to);
}

// Each byte that was written gives way to its complement.
fn complement(content: &mut [u8], written: &Written)
    requires { length written.now ≡ length content.old }
    ensures size { length content.new ≡ length content.old }
    ensures each { (i : ℕ) → i < length content.old
        → slice_index content.new i
        ≡ (if is_written written.now i then 255 - slice_index content.old i
        else slice_index content.old i) }
{
    let (from, to) = written.hull();
    for i in from..to {
        if written.is_set(i) {
            content[i] = u8::MAX - content[i];
        }
    }
}

fn leave(content: &mut Vec<u8>, synced: &Vec<u8>, written: &Written, leaves: Leaves)
    requires { Tracks content.old.items synced.now.items written.now PART_SIZE }
    ensures room { vec_capacity content.new ≡ vec_capacity content.old }
    ensures each { Left leaves content.old.items synced.now.items written.now content.new.items }
{
    match leaves {
        Leaves::Lose => catch_up(content, synced, written),
        Leaves::Keep => {}
        Leaves::Noise => complement(content, written),
    }
}
