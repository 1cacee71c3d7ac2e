//! The journal, its appends and its checkpoints.
//!
//! The disk has two halves of 4 MiB. This is a half, with the offsets of its parts; numbers are big
//! endian:
//!
//! ```text
//! 0      gate of the half, open at a5
//! 1      generation, 8 bytes
//! 9      L, the length of the image, 4 bytes
//! 13     image, L bytes
//! 13 + L gate of the first record, open at a5
//!        n, the length of its payload, 4 bytes
//!        payload, n bytes
//!        gate of the next record, and so on up to one that is closed
//! ```
//!
//! The current half is the open one of the greatest generation. An append writes after the closed
//! gate and opens it last; a checkpoint does the same with the gate of the other half.
ghost use Rattle.std.specs.Prelude.{◌≡◌, ◌↔◌, ◌⊎◌, ◌≤◌, ◌<◌, ◌+◌, ◌-◌, ℕ, true, false, List};
ghost use Rattle.std.specs.Prelude.{length, Ok, IfOk, IfErr, OnOk, MatchResult, IsErrAnd};
ghost use Rattle.syn_disk.specs.Armed.{armed};
ghost use Rattle.syn_disk.specs.Arms.{is_stopped};
ghost use Rattle.syn_disk.specs.Calls.{Makes, MakesAtLeast, MakesUpTo};
ghost use Rattle.syn_disk.specs.Disk.{CountsFailure, Only, SameOutcomes};
ghost use Rattle.syn_journal.specs.Layout.{Value, half_size, is_open, longest_image, current};
ghost use Rattle.syn_journal.specs.Layout.{generation_at, meaning, image_alone, with_payload};
ghost use Rattle.syn_journal.specs.Layout.{IsBeforeOrAfter};
ghost use Rattle.syn_disk.specs.Stops.{LeavesOnly, Untouched};
ghost use Rattle.syn_journal.specs.Opened.{value_read};
ghost use Rattle.syn_journal.specs.inner.Whole.{IsInStep, IsWhole};
ghost use Rattle.syn_journal.specs.inner.Commit.{body_of_image, body_of_record};
ghost use Rattle.syn_journal.specs.declared.half.Half.TheVariants.{First, Second};
ghost use Rattle.syn_journal.specs.declared.layout.TheConstants.{IMAGE_AT, RECORD_HEADER};

use crate::JournalError;
use crate::commit::commit;
use crate::contents::{Contents, read_contents};
use crate::cursor::JournalCursor;
use crate::half::{HALF_SIZE, Half};
use crate::layout::{IMAGE_AT, LONGEST_IMAGE, RECORD_HEADER, RECORD_OVERHEAD};
use crate::number::{write_u32, write_u64};
use std::alloc::{AllocError, Global};
use syn_disk::{Arm, DeviceFailed, Disk, Limit};

mod batch;
mod checkpoint;
mod reopen;

/// An image and the payloads that were appended since, on a disk.
///
/// The value is kept on the disk alone. A journal that was refused `Device` is halted: each later
/// change is refused `Halted`, until it is reopened.
#[derive(Drop)]
pub struct Journal<D: Disk> {
    disk: D,
    /// Where the value stands on the disk.
    cursor: JournalCursor,
    halted: bool,
    ghost in_step: { halted ≡ false → IsInStep (D.seen disk) (D.may_leave disk) cursor },
}

/// A journal that was opened, and what its disk stands for.
#[derive(Drop)]
pub struct Opened<D: Disk> {
    pub journal: Journal<D>,
    pub contents: Contents,
}

impl<D: Disk> Journal<D> {
    ghost use Rattle.syn_journal.specs.Journal.{disk_of, half_of, generation_of, gate_of, room_of};
    ghost use Rattle.syn_journal.specs.Journal.{value_of, IsTooLong, IsHalted, Shows, Stands};
    ghost use Rattle.syn_journal.specs.Refusals.{CountsFailures, MakesIfDevice, AfterReads};
    ghost use Rattle.syn_journal.specs.Refusals.{IsFormatRefusal, IsOpenRefusal, IsAppendRefusal};

    /// Makes a disk stand for this image and no payloads, whatever it held. A disk that is refused
    /// comes back.
    ///
    /// A stop inside the call may leave what the disk stood for before, the image, or nothing:
    /// format it again. It is refused `Full` where the image is longer than `LONGEST_IMAGE`,
    /// `Memory`, or `Device`.
    pub fn format(alloc: Global, mut disk: D, image: &[u8]) -> Result<Journal<D>, (JournalError, D)>
        ensures formatted { IfOk result (λ journal. Stands journal (image_alone image.now)) }
        ensures half { IfOk result (λ journal. half_of journal ≡ First) }
        ensures generation { IfOk result (λ journal. generation_of journal ≡ 1) }

        // Full comes exactly where the image is too long.
        ensures too_long { longest_image < length image.now
            → IsErrAnd result (λ refused. refused.0 ≡ JournalError.Full) }
        ensures full { IfErr result
            (λ refused. refused.0 ≡ JournalError.Full → longest_image < length image.now) }

        ensures refusals { IfErr result (λ refused. IsFormatRefusal refused.0) }
        ensures unchanged { IfErr result
            (λ refused. (refused.0 ≡ JournalError.Device) ⊎ (refused.1 ≡ disk)) }
        ensures failures { MatchResult result
            (λ journal. D.failures (disk_of journal) ≡ D.failures disk)
            (λ refused. CountsFailures refused.0 (D.failures disk) (D.failures refused.1)) }

        // Seven device calls if it succeeds. After Device none before the last was to be refused.
        ensures calls { MatchResult result
            (λ journal. Makes 7 (D.arms disk) (D.arms (disk_of journal)))
            (λ refused. MakesIfDevice refused.0 7 (D.arms disk) (D.arms refused.1)) }
    {
        if image.len() > LONGEST_IMAGE {
            return Err((JournalError::Full, disk));
        }
        let Ok(body) = image_body(alloc, 1, image) else {
            return Err((JournalError::Memory, disk));
        };
        match write_image(&mut disk, &body) {
            Ok(()) => Ok(Journal {
                disk,
                cursor: JournalCursor {
                    half: Half::First,
                    generation: 1,
                    gate: IMAGE_AT + image.len(),
                    other_is_open: false,
                },
                halted: false,
            }),
            Err(_) => Err((JournalError::Device, disk)),
        }
    }

    /// Finds out what a disk stands for. It syncs before it reads, so that each later stop leaves
    /// what is handed out, and it writes nothing. A disk that is refused comes back.
    ///
    /// It is refused `Device`, `NoImage` where neither half is open, `Damaged` where both are open
    /// and of one generation or the current one breaks the layout, and `Memory`.
    pub fn open(alloc: Global, mut disk: D) -> Result<Opened<D>, (JournalError, D)>
        ensures opened { IfOk result
            (λ opened. Stands opened.journal (value_read opened.contents)) }
        ensures half { IfOk result (λ opened. current (D.seen disk) ≡ Ok (half_of opened.journal)) }
        ensures generation { IfOk result
            (λ opened. generation_at (D.seen disk) (half_of opened.journal)
            ≡ generation_of opened.journal) }

        // NoImage and Damaged come only where the disk stands for nothing.
        ensures refusals { IfErr result
            (λ refused. IsOpenRefusal refused.0 (meaning (D.seen disk))) }

        // Reads give the same, and a stop at any moment of the call leaves only what it might have
        // left before.
        ensures untouched { MatchResult result
            (λ opened. Untouched D.seen D.may_leave D.moment D.left_since disk
            (disk_of opened.journal))
            (λ refused. Untouched D.seen D.may_leave D.moment D.left_since disk refused.1) }
        ensures failures { MatchResult result
            (λ opened. D.failures (disk_of opened.journal) ≡ D.failures disk)
            (λ refused. CountsFailures refused.0 (D.failures disk) (D.failures refused.1)) }

        // A sync and then reads, whose number is not fixed; after Device the last of them failed.
        ensures calls { MatchResult result
            (λ opened. MakesAtLeast 1 (D.arms disk) (D.arms (disk_of opened.journal)))
            (λ refused. AfterReads 1 refused.0 (D.arms disk) (D.arms refused.1)) }
    {
        match read_contents(alloc, &mut disk) {
            Ok((cursor, contents)) => Ok(Opened {
                journal: Journal {
                    disk,
                    cursor,
                    halted: false,
                },
                contents,
            }),
            Err(error) => Err((error, disk)),
        }
    }

    /// Gives the disk back.
    pub fn into_disk(self) -> D
        ensures { result ≡ disk_of self }
    {
        self.disk
    }

    /// The length of the longest payload that fits, or 0 where none does.
    pub fn room(&self) -> usize
        ensures { result ≡ room_of self.now }
    {
        (HALF_SIZE - self.cursor.gate).saturating_sub(RECORD_OVERHEAD)
    }

    /// The generation of the current half: 1 after `format`.
    pub fn generation(&self) -> u64
        ensures { result ≡ generation_of self.now }
    {
        self.cursor.generation
    }

    /// Whether each change is refused `Halted`: a device call failed, or `halt` was called, and no
    /// reopening succeeded since.
    pub fn is_halted(&self) -> bool
        ensures halted { (result ≡ true) ↔ IsHalted self.now }
        // A journal that is not halted has the value of its disk.
        ensures stands { result ≡ false → Stands self.now (value_of self.now) }
    {
        self.halted
    }

    /// Whether its machine has stopped, so that no device call is made any more.
    pub fn is_cut(&self) -> bool
        ensures { result ≡ is_stopped (D.Disk.arms (disk_of self.now)) }
    {
        self.disk.is_cut()
    }

    /// What it shows of its disk, which a layer above keeps while it reopens the journal.
    pub fn cursor(&self) -> JournalCursor
        ensures { Shows self.now result }
    {
        self.cursor
    }

    /// Halts the journal as `halt` does, and restores what it showed before a reopening whose
    /// result the layer above cannot use.
    pub fn halt_at(&mut self, cursor: JournalCursor)
        ensures halted { IsHalted self.new }
        ensures disk { disk_of self.new ≡ disk_of self.old }
        ensures shows { Shows self.new cursor }
    {
        self.cursor = cursor;
        self.halted = true;
    }

    /// Halts the journal: each later change is refused `Halted`, until it is reopened. It serves a
    /// layer above that could not take what a reopening handed out.
    pub fn halt(&mut self)
        ensures halted { IsHalted self.new }
        ensures disk { disk_of self.new ≡ disk_of self.old }
        ensures half { half_of self.new ≡ half_of self.old }
        ensures generation { generation_of self.new ≡ generation_of self.old }
        ensures gate { gate_of self.new ≡ gate_of self.old }
    {
        self.halted = true;
    }

    /// Adds a payload. At `Ok` it is durable: from then on each stop leaves it. A record takes 6
    /// bytes beside its payload, the last of which is the closed gate of the next record.
    ///
    /// It is refused `Halted`, `JournalFull` where the record does not fit in the current half,
    /// `Memory`, and `Device`, after which the journal is halted.
    pub fn append(&mut self, alloc: Global, payload: &[u8]) -> Result<(), JournalError>
        ensures acknowledged { (value : Value) → Stands self.old value
            → OnOk result (Stands self.new (with_payload value payload.now)) }

        // A stop at any moment of the call leaves the value before it, or that with the payload.
        ensures any_moment { (value : Value) → Stands self.old value
            → LeavesOnly D.moment D.left_since (disk_of self.old) (disk_of self.new)
            (IsBeforeOrAfter value (generation_of self.old) (with_payload value payload.now)
            (generation_of self.old)) }

        // When each refusal comes, and what it leaves.
        ensures halted { (result ≡ Err JournalError.Halted) ↔ IsHalted self.old }
        ensures full { (result ≡ Err JournalError.JournalFull)
            ↔ (¬ IsHalted self.old × IsTooLong self.old (length payload.now)) }
        ensures halts { result ≡ Err JournalError.Device → IsHalted self.new }
        ensures refusals { IfErr result IsAppendRefusal }
        ensures unchanged { IfErr result
            (λ refusal. (refusal ≡ JournalError.Device) ⊎ (self.new ≡ self.old)) }
        ensures failures { MatchResult result
            (λ _. D.failures (disk_of self.new) ≡ D.failures (disk_of self.old))
            (λ refusal. CountsFailures refusal (D.failures (disk_of self.old))
            (D.failures (disk_of self.new))) }

        // Four device calls where it succeeds. After Device none before the last was to be refused.
        ensures calls { MatchResult result
            (λ _. Makes 4 (D.arms (disk_of self.old)) (D.arms (disk_of self.new)))
            (λ refusal. MakesIfDevice refusal 4 (D.arms (disk_of self.old))
            (D.arms (disk_of self.new))) }

        // The readings, also after a refusal.
        ensures half { half_of self.new ≡ half_of self.old }
        ensures generation { generation_of self.new ≡ generation_of self.old }
        ensures gate { MatchResult result
            (λ _. gate_of self.new ≡ gate_of self.old + RECORD_HEADER + length payload.now)
            (λ _. gate_of self.new ≡ gate_of self.old) }
    {
        if self.halted {
            return Err(JournalError::Halted);
        }
        if HALF_SIZE - self.cursor.gate < RECORD_OVERHEAD
            || HALF_SIZE - self.cursor.gate - RECORD_OVERHEAD < payload.len()
        {
            return Err(JournalError::JournalFull);
        }
        let body = record_body(alloc, payload)?;
        let gate = self.cursor.half.start() + self.cursor.gate;
        // It is halted if a device call fails.
        self.halted = true;
        commit(&mut self.disk, gate, &body)?;
        self.cursor.gate += RECORD_HEADER + payload.len();
        self.halted = false;
        Ok(())
    }
}

impl<D: Limit> Journal<D> {
    ghost use Rattle.syn_journal.specs.Journal.{disk_of, SameReadings, Stands};

    /// Arms the journal's disk. It takes the place of an arm of its kind that is still to come.
    pub fn arm(&mut self, arm: Arm)
        ensures arms { D.Disk.arms (disk_of self.new) ≡ armed (D.Disk.arms (disk_of self.old)) arm }

        // It changes nothing that a read gives or a stop leaves.
        ensures seen { D.Disk.seen (disk_of self.new) ≡ D.Disk.seen (disk_of self.old) }
        ensures stop { SameOutcomes (D.Disk.may_leave (disk_of self.old))
            (D.Disk.may_leave (disk_of self.new)) }
        ensures moment { D.Disk.moment (disk_of self.new) ≡ D.Disk.moment (disk_of self.old) }
        ensures past { (t : ℕ)
            → SameOutcomes (D.Disk.left_since (disk_of self.old) t)
            (D.Disk.left_since (disk_of self.new) t) }
        ensures failures { D.Disk.failures (disk_of self.new) ≡ D.Disk.failures (disk_of self.old) }
        ensures stands { (value : Value) → Stands self.old value → Stands self.new value }
        ensures readings { SameReadings self.old self.new }
    {
        self.disk.arm(arm);
    }
}

// The length, the payload, and the closed gate after it.
fn record_body(alloc: Global, payload: &[u8]) -> Result<Vec<u8>, AllocError>
    requires { length payload.now < half_size }
    ensures { IfOk result (λ body. body.items ≡ body_of_record payload.now) }
{
    let mut body = Vec::with_capacity(alloc, payload.len() + RECORD_HEADER)?;
    write_u32(&mut body, payload.len() as u32)?;
    body.extend_from_slice(payload)?;
    body.push(0)?;
    Ok(body)
}

// The generation, the image's length, the image, and the closed gate after it.
fn image_body(alloc: Global, generation: u64, image: &[u8]) -> Result<Vec<u8>, AllocError>
    requires { length image.now ≤ longest_image }
    ensures { IfOk result (λ body. body.items ≡ body_of_image generation image.now) }
{
    let mut body = Vec::with_capacity(alloc, image.len() + IMAGE_AT)?;
    write_u64(&mut body, generation)?;
    write_u32(&mut body, image.len() as u32)?;
    body.extend_from_slice(image)?;
    body.push(0)?;
    Ok(body)
}

// Closes a half by its gate.
fn close<D: Disk>(disk: &mut D, half: Half) -> Result<(), DeviceFailed>
    ensures closed { OnOk result (is_open (D.seen disk.new) half ≡ false) }
    ensures count { CountsFailure result (D.failures disk.old) (D.failures disk.new) }
    ensures calls { MakesUpTo 1 result (D.arms disk.old) (D.arms disk.new) }
{
    disk.write(half.start(), &[0])
}

// Closes both halves, and commits the body of an image to the first.
fn write_image<D: Disk>(disk: &mut D, body: &[u8]) -> Result<(), DeviceFailed>
    requires { length body.now < half_size }
    ensures written { (image : List ℕ) → length image ≤ longest_image
        → body.now ≡ body_of_image 1 image
        → OnOk result
        (IsWhole (D.seen disk.new) First 1 (IMAGE_AT + length image) (image_alone image)) }
    ensures other { OnOk result (is_open (D.seen disk.new) Second ≡ false) }
    ensures durable { OnOk result (Only (D.seen disk.new) (D.may_leave disk.new)) }
    ensures count { CountsFailure result (D.failures disk.old) (D.failures disk.new) }
    ensures calls { MakesUpTo 7 result (D.arms disk.old) (D.arms disk.new) }
{
    close(disk, Half::First)?;
    close(disk, Half::Second)?;
    disk.sync()?;
    commit(disk, Half::First.start(), body)
}
