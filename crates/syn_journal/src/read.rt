//! The reads of an opening. They write nothing, so a stop meanwhile leaves what it might have left
//! before.
ghost use Rattle.std.specs.Prelude.{◌≡◌, ◌+◌, ◌≤◌, length, take, drop, slice_index, IfOk, IfErr};
ghost use Rattle.std.specs.Prelude.{MatchResult};
ghost use Rattle.std.specs.Int.{w32, w64, from_be_bytes, to_be_bytes};
ghost use Rattle.syn_disk.specs.Disk.{CountsFailure};
ghost use Rattle.syn_disk.specs.Calls.{MakesReads};
ghost use Rattle.syn_disk.specs.Stops.{Untouched};
ghost use Rattle.syn_journal.specs.Refusals.{CountsFailures, ReadsAtLeast};
ghost use Rattle.syn_journal.specs.inner.Reading.{IsReadRefusal};

use crate::JournalError;
use crate::number::{u32_of, u64_of};
use std::alloc::Global;
use syn_disk::{DISK_SIZE, DeviceFailed, Disk};

/// The byte at this place.
pub fn read_u8<D: Disk>(disk: &mut D, at: usize) -> Result<u8, DeviceFailed>
    requires { at + 1 ≤ DISK_SIZE }
    ensures value { IfOk result (λ byte. byte ≡ slice_index (D.seen disk.old) at) }
    ensures untouched { Untouched D.seen D.may_leave D.moment D.left_since disk.old disk.new }
    ensures count { CountsFailure result (D.failures disk.old) (D.failures disk.new) }
    ensures calls { MakesReads result (D.arms disk.old) (D.arms disk.new) }
{
    let mut bytes = [0; 1];
    disk.read(at, &mut bytes)?;
    Ok(bytes[0])
}

/// The number of the four bytes from here on.
pub fn read_u32<D: Disk>(disk: &mut D, at: usize) -> Result<u32, DeviceFailed>
    requires { at + 4 ≤ DISK_SIZE }
    ensures value { IfOk result (λ n. n ≡ from_be_bytes w32 (take 4 (drop at (D.seen disk.old)))) }
    ensures bytes { IfOk result (λ n. to_be_bytes w32 n ≡ take 4 (drop at (D.seen disk.old))) }
    ensures untouched { Untouched D.seen D.may_leave D.moment D.left_since disk.old disk.new }
    ensures count { CountsFailure result (D.failures disk.old) (D.failures disk.new) }
    ensures calls { MakesReads result (D.arms disk.old) (D.arms disk.new) }
{
    let mut bytes = [0; 4];
    disk.read(at, &mut bytes)?;
    Ok(u32_of(&bytes))
}

/// The number of the eight bytes from here on.
pub fn read_u64<D: Disk>(disk: &mut D, at: usize) -> Result<u64, DeviceFailed>
    requires { at + 8 ≤ DISK_SIZE }
    ensures value { IfOk result (λ n. n ≡ from_be_bytes w64 (take 8 (drop at (D.seen disk.old)))) }
    ensures untouched { Untouched D.seen D.may_leave D.moment D.left_since disk.old disk.new }
    ensures count { CountsFailure result (D.failures disk.old) (D.failures disk.new) }
    ensures calls { MakesReads result (D.arms disk.old) (D.arms disk.new) }
{
    let mut bytes = [0; 8];
    disk.read(at, &mut bytes)?;
    Ok(u64_of(&bytes))
}

/// So many bytes from here on.
pub fn read_bytes<D: Disk>(
    alloc: Global,
    disk: &mut D,
    at: usize,
    size: usize,
) -> Result<Vec<u8>, JournalError>
    requires { at + size ≤ DISK_SIZE }
    ensures value { IfOk result (λ bytes. bytes.items ≡ take size (drop at (D.seen disk.old))) }
    ensures size { IfOk result (λ bytes. length bytes.items ≡ size) }
    ensures refusals { IfErr result (λ refusal. IsReadRefusal refusal ⊥) }
    ensures untouched { Untouched D.seen D.may_leave D.moment D.left_since disk.old disk.new }
    ensures count { MatchResult result (λ _. D.failures disk.new ≡ D.failures disk.old)
        (λ refusal. CountsFailures refusal (D.failures disk.old) (D.failures disk.new)) }
    ensures calls { ReadsAtLeast 0 result (D.arms disk.old) (D.arms disk.new) }
{
    let mut bytes = vec![in alloc; 0; size]?;
    disk.read(at, &mut bytes)?;
    Ok(bytes)
}
