//! Finds out what a disk stands for.
ghost use Rattle.std.specs.Prelude.{◌≡◌, ◌+◌, ◌-◌, ◌<◌, ◌≤◌, ◌≢◌, ◌⊎◌, ◌++◌, length, take, drop};
ghost use Rattle.std.specs.Prelude.{slice_index, Ok, Err, None, IfOk, IfErr, OnOk, MatchResult};
ghost use Rattle.std.specs.Int.{w32, from_be_bytes, to_be_bytes};
ghost use Rattle.syn_disk.specs.Disk.{Only, CountsFailure};
ghost use Rattle.syn_journal.specs.Layout.{half_size, damaged, longest_image, open_gate, start_of};
ghost use Rattle.syn_journal.specs.Layout.{other_half, is_open, generation_at, current, current_of};
ghost use Rattle.syn_journal.specs.Layout.{bytes_from, records, value_at, meaning, record_of};
ghost use Rattle.syn_journal.specs.Layout.{records_of};
ghost use Rattle.syn_journal.specs.Opened.{payloads_of, value_read};
ghost use Rattle.syn_journal.specs.Refusals.{CountsFailures, ReadsAtLeast, IsOpenRefusal};
ghost use Rattle.syn_journal.specs.inner.Reading.{IsReadRefusal};
ghost use Rattle.syn_disk.specs.Calls.{MakesReads};
ghost use Rattle.syn_disk.specs.Stops.{Untouched};
ghost use Rattle.syn_journal.specs.inner.Whole.{IsWhole};
ghost use Rattle.syn_journal.specs.declared.layout.TheConstants.{IMAGE_LENGTH_AT, RECORD_HEADER};
ghost use Rattle.syn_journal.specs.declared.layout.TheConstants.{RECORD_OVERHEAD};

use crate::JournalError;
use crate::cursor::JournalCursor;
use crate::half::{HALF_SIZE, Half};
use crate::layout::{
    IMAGE_AT, IMAGE_LENGTH_AT, LONGEST_IMAGE, OPEN_GATE, RECORD_HEADER, RECORD_OVERHEAD,
};
use crate::read::{read_bytes, read_u8, read_u32, read_u64};
use std::alloc::Global;
use syn_disk::{DeviceFailed, Disk};

/// What a disk stands for.
#[derive(Drop)]
pub struct Contents {
    /// The image of the last checkpoint, or of the format where none was made.
    pub image: Vec<u8>,
    /// The payloads since, the oldest first.
    pub payloads: Vec<Vec<u8>>,
}

/// Finds out what a disk stands for, and where it stands there. It syncs first, so that a stop
/// leaves what is read.
pub(crate) fn read_contents<D: Disk>(
    alloc: Global,
    disk: &mut D,
) -> Result<(JournalCursor, Contents), JournalError>
    ensures whole { IfOk result
        (λ found. IsWhole (D.seen disk.old) found.0.half found.0.generation found.0.gate
        (value_read found.1)) }
    ensures other { IfOk result
        (λ found. is_open (D.seen disk.old) (other_half found.0.half)
        ≡ found.0.other_is_open) }
    ensures durable { OnOk result (Only (D.seen disk.new) (D.may_leave disk.new)) }
    ensures refusals { IfErr result (λ refusal. IsOpenRefusal refusal (meaning (D.seen disk.old))) }
    ensures untouched { Untouched D.seen D.may_leave D.moment D.left_since disk.old disk.new }
    ensures count { MatchResult result (λ _. D.failures disk.new ≡ D.failures disk.old)
        (λ refusal. CountsFailures refusal (D.failures disk.old) (D.failures disk.new)) }
    ensures calls { ReadsAtLeast 1 result (D.arms disk.old) (D.arms disk.new) }
{
    disk.sync()?;
    let (half, generation, other_is_open) = read_current(disk)?;
    let image = read_image(alloc, disk, half)?;
    let (payloads, gate) = read_payloads(alloc, disk, half, IMAGE_AT + image.len())?;
    let cursor = JournalCursor {
        half,
        generation,
        gate,
        other_is_open,
    };
    Ok((cursor, Contents { image, payloads }))
}

// What stands before the image's length in a half.
#[derive(Clone, Copy)]
struct Header {
    is_open: bool,
    generation: u64,
}

#[tactic(auto, unfolding(crate::specs::Layout::generation_at))]
fn read_header<D: Disk>(disk: &mut D, half: Half) -> Result<Header, DeviceFailed>
    ensures gate { IfOk result (λ header. header.is_open ≡ is_open (D.seen disk.old) half) }
    ensures generation { IfOk result
        (λ header. header.generation ≡ generation_at (D.seen disk.old) half) }
    ensures untouched { Untouched D.seen D.may_leave D.moment D.left_since disk.old disk.new }
    ensures count { CountsFailure result (D.failures disk.old) (D.failures disk.new) }
    ensures calls { MakesReads result (D.arms disk.old) (D.arms disk.new) }
{
    let gate = read_u8(disk, half.start())?;
    let generation = read_u64(disk, half.start() + 1)?;
    Ok(Header {
        is_open: gate == OPEN_GATE,
        generation,
    })
}

// The current half, its generation, and whether the other half is open too.
#[tactic(auto, unfolding(crate::specs::Layout::current))]
fn read_current<D: Disk>(disk: &mut D) -> Result<(Half, u64, bool), JournalError>
    ensures half { IfOk result (λ found. current (D.seen disk.old) ≡ Ok found.0) }
    ensures generation { IfOk result (λ found. found.1 ≡ generation_at (D.seen disk.old) found.0) }
    ensures other { IfOk result
        (λ found. found.2 ≡ is_open (D.seen disk.old) (other_half found.0)) }
    ensures refusals { IfErr result (λ refusal. IsOpenRefusal refusal (current (D.seen disk.old))) }
    ensures untouched { Untouched D.seen D.may_leave D.moment D.left_since disk.old disk.new }
    ensures count { MatchResult result (λ _. D.failures disk.new ≡ D.failures disk.old)
        (λ refusal. CountsFailures refusal (D.failures disk.old) (D.failures disk.new)) }
    ensures calls { ReadsAtLeast 0 result (D.arms disk.old) (D.arms disk.new) }
{
    let first = read_header(disk, Half::First)?;
    let second = read_header(disk, Half::Second)?;
    match choose(first, second) {
        Ok(Half::First) => Ok((Half::First, first.generation, second.is_open)),
        Ok(Half::Second) => Ok((Half::Second, second.generation, first.is_open)),
        Err(refusal) => Err(refusal),
    }
}

// The open one of the greatest generation.
fn choose(first: Header, second: Header) -> Result<Half, JournalError>
    ensures half { IfOk result
        (λ half. current_of first.is_open second.is_open first.generation second.generation
        ≡ Ok half) }
    ensures no_device { IfErr result
        (λ refusal. (refusal ≡ JournalError.NoImage) ⊎ (refusal ≡ JournalError.Damaged)) }
    ensures refusals { IfErr result
        (λ refusal. IsOpenRefusal refusal
        (current_of first.is_open second.is_open first.generation second.generation)) }
{
    match (first.is_open, second.is_open) {
        (false, false) => Err(JournalError::NoImage),
        (true, false) => Ok(Half::First),
        (false, true) => Ok(Half::Second),
        (true, true) if first.generation == second.generation => Err(JournalError::Damaged),
        (true, true) if first.generation < second.generation => Ok(Half::Second),
        (true, true) => Ok(Half::First),
    }
}

fn read_image<D: Disk>(alloc: Global, disk: &mut D, half: Half) -> Result<Vec<u8>, JournalError>
    ensures image { IfOk result
        (λ image. take (4 + length image.items)
        (drop (start_of half + IMAGE_LENGTH_AT) (D.seen disk.old))
        ≡ to_be_bytes w32 (length image.items) ++ image.items) }
    ensures fits { IfOk result (λ image. length image.items ≤ longest_image) }
    ensures refusals { IfErr result
        (λ refusal. IsReadRefusal refusal (value_at (D.seen disk.old) half ≡ Err damaged)) }
    ensures untouched { Untouched D.seen D.may_leave D.moment D.left_since disk.old disk.new }
    ensures count { MatchResult result (λ _. D.failures disk.new ≡ D.failures disk.old)
        (λ refusal. CountsFailures refusal (D.failures disk.old) (D.failures disk.new)) }
    ensures calls { ReadsAtLeast 0 result (D.arms disk.old) (D.arms disk.new) }
{
    let size = read_u32(disk, half.start() + IMAGE_LENGTH_AT)? as usize;
    if size > LONGEST_IMAGE {
        return Err(JournalError::Damaged);
    }
    read_bytes(alloc, disk, half.start() + IMAGE_AT, size)
}

// The payloads from this gate on, and the closed gate after the last.
fn read_payloads<D: Disk>(
    alloc: Global,
    disk: &mut D,
    half: Half,
    first: usize,
) -> Result<(Vec<Vec<u8>>, usize), JournalError>
    requires { first < half_size }
    ensures ordered { IfOk result (λ found. first ≤ found.1) }
    ensures within { IfOk result (λ found. found.1 < half_size) }
    ensures closed { IfOk result
        (λ found. slice_index (D.seen disk.old) (start_of half + found.1) ≢ open_gate) }
    ensures payloads { IfOk result
        (λ found. take (found.1 - first) (drop (start_of half + first) (D.seen disk.old))
        ≡ records_of (payloads_of found.0)) }
    ensures refusals { IfErr result
        (λ refusal. IsReadRefusal refusal
        (let bytes = bytes_from (D.seen disk.old) half first in
        records (length bytes) bytes ≡ None)) }
    ensures untouched { Untouched D.seen D.may_leave D.moment D.left_since disk.old disk.new }
    ensures count { MatchResult result (λ _. D.failures disk.new ≡ D.failures disk.old)
        (λ refusal. CountsFailures refusal (D.failures disk.old) (D.failures disk.new)) }
    ensures calls { ReadsAtLeast 0 result (D.arms disk.old) (D.arms disk.new) }
{
    let mut payloads = Vec::new(alloc);
    let mut gate = first;
    while read_u8(disk, half.start() + gate)? == OPEN_GATE {
        let payload = read_record(alloc, disk, half, gate)?;
        gate += RECORD_HEADER + payload.len();
        payloads.push(payload)?;
    }
    Ok((payloads, gate))
}

// The payload after an open gate.
fn read_record<D: Disk>(
    alloc: Global,
    disk: &mut D,
    half: Half,
    gate: usize,
) -> Result<Vec<u8>, JournalError>
    requires within { gate < half_size }
    requires opened { slice_index (D.seen disk.old) (start_of half + gate) ≡ open_gate }
    ensures fits { IfOk result
        (λ payload. gate + RECORD_OVERHEAD + length payload.items ≤ half_size) }
    ensures payload { IfOk result
        (λ payload. take (RECORD_HEADER + length payload.items)
        (drop (start_of half + gate) (D.seen disk.old))
        ≡ record_of payload.items) }
    ensures refusals { IfErr result
        (λ refusal. IsReadRefusal refusal
        (half_size
        < gate + RECORD_OVERHEAD + from_be_bytes w32
        (take 4 (drop (start_of half + gate + 1) (D.seen disk.old))))) }
    ensures untouched { Untouched D.seen D.may_leave D.moment D.left_since disk.old disk.new }
    ensures count { MatchResult result (λ _. D.failures disk.new ≡ D.failures disk.old)
        (λ refusal. CountsFailures refusal (D.failures disk.old) (D.failures disk.new)) }
    ensures calls { ReadsAtLeast 0 result (D.arms disk.old) (D.arms disk.new) }
{
    if HALF_SIZE - gate < RECORD_OVERHEAD {
        return Err(JournalError::Damaged);
    }
    let size = read_u32(disk, half.start() + gate + 1)? as usize;
    if size > HALF_SIZE - gate - RECORD_OVERHEAD {
        return Err(JournalError::Damaged);
    }
    read_bytes(alloc, disk, half.start() + gate + RECORD_HEADER, size)
}
