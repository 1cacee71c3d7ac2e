//! A checkpoint: another image in the half that is not current.
ghost use Rattle.std.specs.Prelude.{◌≡◌, ◌↔◌, ◌⊎◌, ◌<◌, ◌+◌, ◌^◌, true, false, ℕ, List, length};
ghost use Rattle.std.specs.Prelude.{Err, OnOk, IfErr, MatchResult};
ghost use Rattle.syn_disk.specs.Calls.{Makes, MakesUpTo};
ghost use Rattle.syn_disk.specs.Disk.{CountsFailure, Only};
ghost use Rattle.syn_journal.specs.Layout.{Value, half_size, longest_image, other_half, is_open};
ghost use Rattle.syn_journal.specs.Layout.{image_alone, IsBeforeOrAfter};
ghost use Rattle.syn_journal.specs.inner.Commit.{IsClosing, IsNextImage};
ghost use Rattle.syn_disk.specs.Stops.{LeavesOnly};
ghost use Rattle.syn_journal.specs.inner.Whole.{IsWhole};
ghost use Rattle.syn_journal.specs.declared.layout.TheConstants.{IMAGE_AT};

use super::{Journal, image_body};
use crate::JournalError;
use crate::commit::commit;
use crate::cursor::JournalCursor;
use crate::half::Half;
use crate::layout::{IMAGE_AT, LONGEST_IMAGE};
use std::alloc::Global;
use syn_disk::{DeviceFailed, Disk};

impl<D: Disk> Journal<D> {
    ghost use Rattle.syn_journal.specs.Journal.{disk_of, half_of, generation_of, gate_of, IsHalted};
    ghost use Rattle.syn_journal.specs.Journal.{Stands};
    ghost use Rattle.syn_journal.specs.Refusals.{CountsFailures, MakesIfDevice};
    ghost use Rattle.syn_journal.specs.Refusals.{IsCheckpointRefusal};

    /// Takes this image, with no payloads, in the place of what the journal stood for. At `Ok` it
    /// is durable: from then on each stop leaves it. It is written into the half that is not
    /// current, with the next generation.
    ///
    /// It is refused `Halted`, `Full` where the image is longer than `LONGEST_IMAGE` or the
    /// generation is the greatest that can be written, `Memory`, and `Device`, after which the
    /// journal is halted.
    pub fn checkpoint(&mut self, alloc: Global, image: &[u8]) -> Result<(), JournalError>
        ensures acknowledged { OnOk result (Stands self.new (image_alone image.now)) }

        // A stop at any moment of the call leaves the value before it, or the image alone.
        ensures any_moment { (value : Value) → Stands self.old value
            → LeavesOnly D.moment D.left_since (disk_of self.old) (disk_of self.new)
            (IsBeforeOrAfter value (generation_of self.old) (image_alone image.now)
            (generation_of self.old + 1)) }

        // When each refusal comes, and what it leaves.
        ensures halted { (result ≡ Err JournalError.Halted) ↔ IsHalted self.old }
        ensures full { (result ≡ Err JournalError.Full)
            ↔ (¬ IsHalted self.old
            × ((longest_image < length image.now) ⊎ (generation_of self.old + 1 ≡ 2 ^ 64))) }
        ensures halts { result ≡ Err JournalError.Device → IsHalted self.new }
        ensures refusals { IfErr result IsCheckpointRefusal }
        ensures unchanged { IfErr result
            (λ refusal. (refusal ≡ JournalError.Device) ⊎ (self.new ≡ self.old)) }
        ensures failures { MatchResult result
            (λ _. D.failures (disk_of self.new) ≡ D.failures (disk_of self.old))
            (λ refusal. CountsFailures refusal (D.failures (disk_of self.old))
            (D.failures (disk_of self.new))) }

        // Six device calls where it succeeds. After Device none before the last was to be refused.
        ensures calls { MatchResult result
            (λ _. Makes 6 (D.arms (disk_of self.old)) (D.arms (disk_of self.new)))
            (λ refusal. MakesIfDevice refusal 6 (D.arms (disk_of self.old))
            (D.arms (disk_of self.new))) }

        // The readings, also after a refusal.
        ensures half { MatchResult result (λ _. half_of self.new ≡ other_half (half_of self.old))
            (λ _. half_of self.new ≡ half_of self.old) }
        ensures generation { MatchResult result
            (λ _. generation_of self.new ≡ generation_of self.old + 1)
            (λ _. generation_of self.new ≡ generation_of self.old) }
        ensures gate { MatchResult result (λ _. gate_of self.new ≡ IMAGE_AT + length image.now)
            (λ _. gate_of self.new ≡ gate_of self.old) }
    {
        if self.halted {
            return Err(JournalError::Halted);
        }
        if image.len() > LONGEST_IMAGE || self.cursor.generation == u64::MAX {
            return Err(JournalError::Full);
        }
        let next = JournalCursor {
            half: self.cursor.half.other(),
            generation: self.cursor.generation + 1,
            gate: IMAGE_AT + image.len(),
            other_is_open: true,
        };
        let body = image_body(alloc, next.generation, image)?;
        // It is halted if a device call fails.
        self.halted = true;
        replace(&mut self.disk, next.half, self.cursor.other_is_open, &body)?;
        self.cursor = next;
        self.halted = false;
        Ok(())
    }
}

// Makes the other half current: commits the body of an image of the next generation to it, once it
// is closed.
fn replace<D: Disk>(
    disk: &mut D,
    half: Half,
    was_open: bool,
    body: &[u8],
) -> Result<(), DeviceFailed>
    requires fits { length body.now < half_size }
    requires gate { is_open (D.seen disk.old) half ≡ was_open }
    requires durable { Only (D.seen disk.old) (D.may_leave disk.old) }

    // Where the body is the next image of a whole disk, it is there and the old half is open, and a
    // stop leaves the value before or after.
    ensures written { (generation gate : ℕ) (value : Value) (image : List ℕ)
        → IsNextImage (D.seen disk.old) half generation gate value image body.now
        → OnOk result
        (IsWhole (D.seen disk.new) half (generation + 1) (IMAGE_AT + length image)
        (image_alone image)
        × (is_open (D.seen disk.new) (other_half half) ≡ true)) }
    ensures durable { OnOk result (Only (D.seen disk.new) (D.may_leave disk.new)) }
    ensures any_moment { (generation gate : ℕ) (value : Value) (image : List ℕ)
        → IsNextImage (D.seen disk.old) half generation gate value image body.now
        → LeavesOnly D.moment D.left_since disk.old disk.new
        (IsBeforeOrAfter value generation (image_alone image) (generation + 1)) }
    ensures count { CountsFailure result (D.failures disk.old) (D.failures disk.new) }
    ensures calls { MakesUpTo 6 result (D.arms disk.old) (D.arms disk.new) }
{
    ensure_closed(disk, half, was_open)?;
    commit(disk, half.start(), body)
}

// Closes a half by its gate, and syncs. The gate of one that is closed is not written: until the
// sync a stop could leave any byte there, so that the old bytes after it would count again.
fn ensure_closed<D: Disk>(disk: &mut D, half: Half, was_open: bool) -> Result<(), DeviceFailed>
    requires { is_open (D.seen disk.old) half ≡ was_open }
    ensures closed { OnOk result (is_open (D.seen disk.new) half ≡ false) }
    ensures same { OnOk result (IsClosing (D.seen disk.old) half (D.seen disk.new)) }
    ensures durable { OnOk result (Only (D.seen disk.new) (D.may_leave disk.new)) }
    ensures any_moment { Only (D.seen disk.old) (D.may_leave disk.old)
        → LeavesOnly D.moment D.left_since disk.old disk.new (IsClosing (D.seen disk.old) half) }
    ensures count { CountsFailure result (D.failures disk.old) (D.failures disk.new) }
    ensures calls { MakesUpTo 2 result (D.arms disk.old) (D.arms disk.new) }
{
    let gate: &[u8] = if was_open { &[0] } else { &[] };
    disk.write(half.start(), gate)?;
    disk.sync()
}
