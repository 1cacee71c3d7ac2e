//! The bytes of a disk in memory, of which only as much is kept as is used.
ghost use Rattle.std.specs.Prelude.{◌≡◌, ◌≤◌, ◌<◌, ◌+◌, length, take, drop, vec_capacity, IfOk};
ghost use Rattle.std.specs.List.{All};
ghost use Rattle.syn_disk.specs.Disk.{overwritten};
ghost use Rattle.syn_disk.specs.declared.disk.TheConstants.{DISK_SIZE, PART_SIZE};

use crate::PART_SIZE;
use crate::bytes::{copy_out, extend, overwrite};
use std::alloc::{AllocError, Global};
use std::io;
use std::os::unix::fs::FileExt;

/// A part of a disk, up to the last byte that was used. All after it are zero.
///
/// Room for the whole part is taken at once, and the system gives it as it is used.
#[derive(Drop)]
pub struct PartBytes {
    used: Vec<u8>,
    ghost fits: { length used.items ≤ PART_SIZE },
    ghost room: { PART_SIZE ≤ vec_capacity used },
}

impl PartBytes {
    ghost use Rattle.syn_disk.specs.Mirror.{part_of};

    fn new(alloc: Global) -> Result<PartBytes, AllocError>
        ensures { IfOk result (λ part. All (λ byte. byte ≡ 0) (part_of part)) }
    {
        Ok(PartBytes {
            used: Vec::with_capacity(alloc, PART_SIZE)?,
        })
    }

    // Keeps the first bytes up to `to`.
    fn reach(&mut self, to: usize)
        requires { to ≤ PART_SIZE }
        ensures kept { to ≤ length self.new.used.items }
        ensures same { part_of self.new ≡ part_of self.old }
    {
        if self.used.len() < to {
            extend(&mut self.used, to);
        }
    }

    fn read(&mut self, at: usize, into: &mut [u8])
        requires { at + length into.old ≤ PART_SIZE }
        ensures into { into.new ≡ take (length into.old) (drop at (part_of self.old)) }
        ensures same { part_of self.new ≡ part_of self.old }
    {
        if !into.is_empty() {
            self.reach(at + into.len());
            copy_out(&self.used, at, into);
        }
    }

    // Reads the bytes from `from` up to `to` from the file, which has the part at `start`.
    fn load<F: FileExt>(&mut self, file: &F, start: usize, from: usize, to: usize) -> io::Result<()>
        requires ordered { from ≤ to }
        requires within { to ≤ PART_SIZE }
        requires start { start ≤ PART_SIZE }
    {
        self.reach(to);
        file.read_exact_at(&mut self.used[from..to], (start + from) as u64)
    }

    fn write(&mut self, at: usize, bytes: &[u8])
        requires { at + length bytes.now ≤ PART_SIZE }
        ensures { part_of self.new ≡ overwritten (part_of self.old) at bytes.now }
    {
        if !bytes.is_empty() {
            self.reach(at + bytes.len());
            overwrite(&mut self.used, at, bytes);
        }
    }
}

/// The bytes of a disk.
#[derive(Drop)]
pub struct DiskBytes {
    low: PartBytes,
    high: PartBytes,
}

impl DiskBytes {
    ghost use Rattle.syn_disk.specs.Mirror.{bytes_of};

    /// All bytes are zero.
    pub fn new(alloc: Global) -> Result<DiskBytes, AllocError>
        ensures { IfOk result (λ image. All (λ byte. byte ≡ 0) (bytes_of image)) }
    {
        let low = PartBytes::new(alloc)?;
        let high = PartBytes::new(alloc)?;
        Ok(DiskBytes { low, high })
    }

    /// Reads the bytes from `at` on.
    pub fn read(&mut self, at: usize, into: &mut [u8])
        requires { at + length into.old ≤ DISK_SIZE }
        ensures into { into.new ≡ take (length into.old) (drop at (bytes_of self.old)) }
        ensures same { bytes_of self.new ≡ bytes_of self.old }
    {
        let low = PART_SIZE.saturating_sub(at).min(into.len());
        let (front, back) = into.split_at_mut(low);
        self.low.read(at.min(PART_SIZE), front);
        self.high.read(at.saturating_sub(PART_SIZE), back);
    }

    /// Reads the bytes from `from` up to `to` from the file. Where a read fails, any of them may be
    /// other than before.
    pub fn load<F: FileExt>(&mut self, file: &F, from: usize, to: usize) -> io::Result<()>
        requires ordered { from ≤ to }
        requires within { to ≤ DISK_SIZE }
    {
        if from < PART_SIZE {
            self.low.load(file, 0, from, to.min(PART_SIZE))?;
        }
        if to <= PART_SIZE {
            return Ok(());
        }
        let from = from.saturating_sub(PART_SIZE);
        self.high.load(file, PART_SIZE, from, to - PART_SIZE)
    }

    /// Writes the bytes from `at` on.
    pub fn write(&mut self, at: usize, bytes: &[u8])
        requires { at + length bytes.now ≤ DISK_SIZE }
        ensures { bytes_of self.new ≡ overwritten (bytes_of self.old) at bytes.now }
    {
        let low = PART_SIZE.saturating_sub(at).min(bytes.len());
        let (front, back) = bytes.split_at(low);
        self.low.write(at.min(PART_SIZE), front);
        self.high.write(at.saturating_sub(PART_SIZE), back);
    }
}
