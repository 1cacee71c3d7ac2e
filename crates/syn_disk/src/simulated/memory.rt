//! A disk in memory, whose stops lose, keep or spoil what was not synced.
ghost use Rattle.std.specs.Prelude.{◌≡◌, ◌<◌, ◌≤◌, ◌+◌, ◌++◌, ◌∷◌, [], ℕ, true, length, replicate};
ghost use Rattle.std.specs.Prelude.{refl, take, drop, slice_index, slice_index_or, IfOk, IsOk};
ghost use Rattle.syn_disk.specs.Arms.{no_arms};
ghost use Rattle.syn_disk.specs.Disk.{overwritten, Torn, Follows, NothingNew, Only};
ghost use Rattle.syn_disk.specs.Parts.{PartsMayLeave, length-parts};
ghost use Rattle.syn_disk.specs.Moments.{LeftSince};
ghost use Rattle.syn_disk.specs.MomentLaws.{now_counts, only_now};
ghost use Rattle.syn_disk.specs.Stop.{Left};

use super::leaves::Leaves;
use super::part::SimulatedPart;
use super::restart::Restart;
use crate::disk::PART_SIZE;
use crate::history::History;
use crate::{DeviceFailed, Disk};
use std::alloc::{AllocError, Global};

/// A disk whose calls do not fail. It takes all its memory when it is made.
#[derive(Drop)]
pub struct MemDisk {
    low: SimulatedPart,
    high: SimulatedPart,
    leaves: Vec<Leaves>,
    restarts: usize,
    history: History<SimulatedPart, SimulatedPart>,
}

impl MemDisk {
    ghost use Rattle.syn_disk.specs.MemDisk.{bytes_of, synced_of, written_of, leaves_of, IsSynced};

    /// A disk of zeros. Its i-th restart leaves what the i-th of `leaves` says, and after these
    /// `Lose`. It is refused for lack of memory only.
    pub fn new(alloc: Global, leaves: Vec<Leaves>) -> Result<MemDisk, AllocError>
        ensures zeros { IfOk result (λ disk. (i : ℕ) → slice_index (bytes_of disk) i ≡ 0) }
        ensures synced { IfOk result (λ disk. IsSynced disk) }
        ensures leaves { IfOk result (λ disk. leaves_of disk ≡ leaves.items) }
    {
        let low = SimulatedPart::new(alloc)?;
        let high = SimulatedPart::new(alloc)?;
        Ok(MemDisk {
            low,
            high,
            leaves,
            restarts: 0,
            history: History::new(),
        })
    }

    // The machine stops, and finds the disk again.
    fn stop(&mut self)
        ensures each { Left (slice_index_or (leaves_of self.old) 0 Leaves.Lose)
            (bytes_of self.old) (synced_of self.old) (written_of self.old) (bytes_of self.new) }
        ensures leaves { leaves_of self.new ≡ drop 1 (leaves_of self.old) }
        ensures synced { IsSynced self.new }
        ensures past { self.new.history ≡ self.old.history ++ (self.old.low, self.old.high) ∷ [] }
    {
        self.history.note(&self.low, &self.high);
        let leaves = next_leaves(&self.leaves, &mut self.restarts);
        self.low.stop(leaves);
        self.high.stop(leaves);
    }
}

// What the next restart leaves.
fn next_leaves(leaves: &Vec<Leaves>, restarts: &mut usize) -> Leaves
    ensures now { result ≡ slice_index_or (drop restarts.old leaves.now.items) 0 Leaves.Lose }
    ensures then { drop restarts.new leaves.now.items
        ≡ drop 1 (drop restarts.old leaves.now.items) }
{
    match leaves.get(*restarts) {
        Some(next) => {
            *restarts += 1;
            *next
        }
        None => Leaves::Lose,
    }
}

impl Disk for MemDisk {
    ghost use Rattle.syn_disk.specs.MemDisk.{bytes_of, synced_of, written_of, leaves_of, IsSynced};
    ghost use Rattle.syn_disk.specs.MemDisk.{IsLeft, GoesOn};
    ghost use Rattle.syn_disk.specs.declared.disk.TheConstants.{DISK_SIZE};

    ghost seen = { λ m. bytes_of m };

    ghost may_leave = { λ m. IsLeft m };

    ghost moment = { λ m. length m.history };

    ghost left_since = { λ m. LeftSince PartsMayLeave m.history (m.low, m.high) };

    ghost failures = { λ _. 0 };

    ghost arms = { λ _. no_arms };

    ghost counts_now = { λ m t c le left.
        now_counts PartsMayLeave m.history (m.low, m.high) c t le left };

    ghost only_now = { λ m c left. only_now PartsMayLeave m.history (m.low, m.high) c left };

    ghost seen_may_stay = { λ m.
        record { whole = length-parts m.low m.high; kept = λ i none. refl } };

    ghost whole = { λ m t c left. left.2.whole };

    fn read(&mut self, at: usize, into: &mut [u8]) -> Result<(), DeviceFailed>
        requires { at + length into.old ≤ DISK_SIZE }
        ensures ok { IsOk result }
        ensures bytes { into.new ≡ take (length into.old) (drop at (bytes_of self.old)) }
        ensures same { bytes_of self.new ≡ bytes_of self.old }
        ensures synced { synced_of self.new ≡ synced_of self.old }
        ensures flags { written_of self.new ≡ written_of self.old }
        ensures leaves { leaves_of self.new ≡ leaves_of self.old }
        ensures stop { NothingNew (IsLeft self.old) (IsLeft self.new) }
        ensures time { GoesOn self.old self.new }
    {
        self.history.note(&self.low, &self.high);
        let low = PART_SIZE.saturating_sub(at).min(into.len());
        let (front, back) = into.split_at_mut(low);
        self.low.read(at.min(PART_SIZE), front);
        self.high.read(at.saturating_sub(PART_SIZE), back);
        Ok(())
    }

    fn write(&mut self, at: usize, bytes: &[u8]) -> Result<(), DeviceFailed>
        requires { at + length bytes.now ≤ DISK_SIZE }
        ensures ok { IsOk result }
        ensures written { bytes_of self.new ≡ overwritten (bytes_of self.old) at bytes.now }
        ensures synced { synced_of self.new ≡ synced_of self.old }
        ensures flags { written_of self.new
            ≡ overwritten (written_of self.old) at (replicate (length bytes.now) true) }
        ensures leaves { leaves_of self.new ≡ leaves_of self.old }
        ensures stop { Follows (Torn at (length bytes.now)) (IsLeft self.old) (IsLeft self.new) }
        ensures time { GoesOn self.old self.new }
    {
        self.history.note(&self.low, &self.high);
        let low = PART_SIZE.saturating_sub(at).min(bytes.len());
        let (front, back) = bytes.split_at(low);
        self.low.write(at.min(PART_SIZE), front);
        self.high.write(at.saturating_sub(PART_SIZE), back);
        Ok(())
    }

    fn sync(&mut self) -> Result<(), DeviceFailed>
        ensures ok { IsOk result }
        ensures same { bytes_of self.new ≡ bytes_of self.old }
        ensures synced { IsSynced self.new }
        ensures leaves { leaves_of self.new ≡ leaves_of self.old }
        ensures durable { Only (bytes_of self.old) (IsLeft self.new) }
        ensures stop { NothingNew (IsLeft self.old) (IsLeft self.new) }
        ensures time { GoesOn self.old self.new }
    {
        self.history.note(&self.low, &self.high);
        self.low.sync();
        self.high.sync();
        Ok(())
    }

    fn is_cut(&self) -> bool {
        false
    }
}

impl Restart for MemDisk {
    ghost use Rattle.syn_disk.specs.MemDisk.{bytes_of, synced_of, written_of, leaves_of, IsSynced};
    ghost use Rattle.syn_disk.specs.MemDisk.{IsLeft, GoesOn};

    /// What the list of leaves says next becomes of each byte that was not synced.
    fn restart(mut self) -> Self
        ensures left { IsLeft self (bytes_of result) }
        ensures durable { Only (bytes_of result) (IsLeft result) }
        ensures time { GoesOn self result }

        // Each byte that was not synced, as the list says.
        ensures each { Left (slice_index_or (leaves_of self) 0 Leaves.Lose)
            (bytes_of self) (synced_of self) (written_of self) (bytes_of result) }
        ensures synced { IsSynced result }
        ensures leaves { leaves_of result ≡ drop 1 (leaves_of self) }
    {
        self.stop();
        self
    }
}
