//! Many payloads at once: they are written as one, behind a gate that is opened last.
ghost use Rattle.std.specs.Prelude.{◌≡◌, ◌↔◌, ◌⊎◌, ◌≤◌, ◌<◌, ◌+◌, ◌++◌, ◌∷◌, [], length, None};
ghost use Rattle.std.specs.Prelude.{Err, IfErr, IfOk, IfSome, MatchResult, OnOk};
ghost use Rattle.syn_disk.specs.Calls.{Makes};
ghost use Rattle.syn_disk.specs.Stops.{LeavesOnly};
ghost use Rattle.syn_journal.specs.Batches.{bytes_of_each, calls_for, records_size, with_payloads};
ghost use Rattle.syn_journal.specs.Layout.{IsBeforeOrAfter, Value, half_size, record_of};
ghost use Rattle.syn_journal.specs.Layout.{records_of};

use super::Journal;
use crate::JournalError;
use crate::commit::commit;
use crate::half::HALF_SIZE;
use crate::layout::{OPEN_GATE, RECORD_HEADER};
use crate::number::write_u32;
use std::alloc::{AllocError, Global};
use syn_disk::Disk;

impl<D: Disk> Journal<D> {
    ghost use Rattle.syn_journal.specs.Journal.{disk_of, half_of, generation_of, gate_of, left_of};
    ghost use Rattle.syn_journal.specs.Journal.{IsHalted, Stands};
    ghost use Rattle.syn_journal.specs.Refusals.{CountsFailures, IsAppendRefusal, MakesIfDevice};

    /// Adds the payloads in their order, all of them or none. At `Ok` all are durable. The bytes
    /// are those that an append of each would leave. All but the first record have an open gate as
    /// they are written, and mean nothing until the first is opened.
    ///
    /// It is refused `Halted`, `JournalFull` where their records do not all fit in the current
    /// half, `Memory`, and `Device`, after which the journal is halted.
    pub fn append_all(&mut self, alloc: Global, payloads: &[Vec<u8>]) -> Result<(), JournalError>
        ensures acknowledged { (value : Value) → Stands self.old value
            → OnOk result (Stands self.new (with_payloads value (bytes_of_each payloads.now))) }

        // A stop at any moment of the call leaves the value before it, or that with all of them.
        ensures any_moment { (value : Value) → Stands self.old value
            → LeavesOnly D.moment D.left_since (disk_of self.old) (disk_of self.new)
            (IsBeforeOrAfter value (generation_of self.old)
            (with_payloads value (bytes_of_each payloads.now)) (generation_of self.old)) }

        // When each refusal comes, and what it leaves.
        ensures halted { (result ≡ Err JournalError.Halted) ↔ IsHalted self.old }
        ensures full { (result ≡ Err JournalError.JournalFull) ↔ (¬ IsHalted self.old
            × (left_of self.old < records_size (bytes_of_each payloads.now))) }
        ensures halts { result ≡ Err JournalError.Device → IsHalted self.new }
        ensures refusals { IfErr result IsAppendRefusal }
        ensures unchanged { IfErr result
            (λ refusal. (refusal ≡ JournalError.Device) ⊎ (self.new ≡ self.old)) }
        ensures failures { MatchResult result
            (λ _. D.failures (disk_of self.new) ≡ D.failures (disk_of self.old))
            (λ refusal. CountsFailures refusal (D.failures (disk_of self.old))
            (D.failures (disk_of self.new))) }

        // Four device calls for all of them where it succeeds, and none where there is no payload.
        // After Device none before the last was to be refused.
        ensures calls { MatchResult result
            (λ _. Makes (calls_for payloads.now) (D.arms (disk_of self.old))
            (D.arms (disk_of self.new)))
            (λ refusal. MakesIfDevice refusal (calls_for payloads.now) (D.arms (disk_of self.old))
            (D.arms (disk_of self.new))) }

        // The readings, also after a refusal.
        ensures half { half_of self.new ≡ half_of self.old }
        ensures generation { generation_of self.new ≡ generation_of self.old }
        ensures gate { MatchResult result
            (λ _. gate_of self.new ≡ gate_of self.old
            + records_size (bytes_of_each payloads.now))
            (λ _. gate_of self.new ≡ gate_of self.old) }
    {
        if self.halted {
            return Err(JournalError::Halted);
        }
        let Some(size) = size_within(payloads, HALF_SIZE - 1 - self.cursor.gate) else {
            return Err(JournalError::JournalFull);
        };
        if payloads.is_empty() {
            return Ok(());
        }
        let records = records_and_gate(alloc, payloads, size)?;
        let gate = self.cursor.half.start() + self.cursor.gate;
        // It is halted if a device call fails.
        self.halted = true;
        // The first gate stays closed until the commit opens it.
        commit(&mut self.disk, gate, &records[1..])?;
        self.cursor.gate += size;
        self.halted = false;
        Ok(())
    }
}

// How many bytes the records of the payloads take, where that is not more than `most`.
fn size_within(payloads: &[Vec<u8>], most: usize) -> Option<usize>
    ensures size { IfSome result (λ size. size ≡ records_size (bytes_of_each payloads.now)) }
    ensures fits { IfSome result (λ size. size ≤ most) }
    ensures long { result ≡ None → most < records_size (bytes_of_each payloads.now) }
{
    let mut left = most;
    for payload in payloads {
        let size = RECORD_HEADER + payload.len();
        if left < size {
            return None;
        }
        left -= size;
    }
    Some(most - left)
}

// The records of the payloads, all with an open gate, and the closed gate after the last.
fn records_and_gate(alloc: Global, payloads: &[Vec<u8>], size: usize) -> Result<Vec<u8>, AllocError>
    requires size { size ≡ records_size (bytes_of_each payloads.now) }
    requires fits { size < half_size }
    ensures { IfOk result
        (λ records. records.items ≡ records_of (bytes_of_each payloads.now) ++ 0 ∷ []) }
{
    let mut records = Vec::with_capacity(alloc, size + 1)?;
    for payload in payloads {
        push_record(&mut records, payload)?;
    }
    records.push(0)?;
    Ok(records)
}

// Adds the record of the payload, with an open gate.
fn push_record(records: &mut Vec<u8>, payload: &[u8]) -> Result<(), AllocError>
    requires { length payload.now < half_size }
    ensures { OnOk result (records.new.items ≡ records.old.items ++ record_of payload.now) }
{
    records.push(OPEN_GATE)?;
    write_u32(records, payload.len() as u32)?;
    records.extend_from_slice(payload)
}
