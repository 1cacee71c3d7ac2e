//! The table of refusals.
ghost use Rattle.std.specs.Prelude.{◌≡◌, ◌≢◌, ◌==◌, find, Some, IfSome, IfNone};
ghost use Rattle.syn_model.specs.Refusal.{number, name_of};
ghost use Rattle.syn_refusal.specs.Refusals.{cause_of};

use std::fmt;
use thiserror::Error;

/// Why a call is refused.
#[derive(Clone, Copy, Debug, PartialEq, Eq, Error)]
pub enum Refusal {
    /// The text is no path: `.`, or at most 16 names of 1 to 64 bytes parted by `/`.
    BadPath,
    /// The parent of the path is not a directory.
    NoParent,
    /// A directory is where the file would be put, or whose mode would change.
    IsDirectory,
    /// Something is already where the directory would be made.
    Exists,
    /// Nothing is at the path, or no directory where one is to be listed.
    Absent,
    /// The root cannot be edited, replaced or recorded.
    Root,
    /// The result would pass a limit.
    Full,
    /// The record does not fit in what is left of the journal.
    JournalFull,
    /// A file or a stream cannot be read or written, or the file is no image.
    Device,
    /// A call of the device failed before, and the image was not opened again since.
    Halted,
    /// There is not enough memory.
    Memory,
    /// Somebody else is using it now.
    Busy,
    /// The path was changed since the position that was given.
    Touched,
    /// The session is not the last one, or the item was overtaken by a later one.
    OldSession,
    /// The position is older than what is remembered, or newer than the present one.
    BelowFloor,
    /// Nothing was staged for this item.
    NotStaged,
    /// The staged part does not fit what was staged before it.
    BadStage,
    /// The file has no image: it was never formatted, or a format was cut off.
    NoImage,
    /// The bytes of the image break its format.
    Damaged,
    /// The image belongs to another pair of replicas.
    WrongPair,
    /// A frame of no bytes was received.
    BadFrame,
    /// A frame or a scan is larger than the limit.
    TooLarge,
    /// What was received is no message, or answers nothing that was asked.
    BadMessage,
    /// The lock has no pass left.
    NoSeat,
    /// No answer came in time, or the connection ended.
    NoAnswer,
    /// The image is of version 1, in which a file has no mode.
    OldVersion,
}

/// A line of the table.
#[derive(Clone, Copy)]
struct Row {
    number: u8,
    name: &'static str,
    explanation: &'static str,
}

impl Refusal {
    /// All refusals, in the order of their numbers.
    pub const ALL: [Refusal; 26] = [
        Refusal::BadPath,
        Refusal::NoParent,
        Refusal::IsDirectory,
        Refusal::Exists,
        Refusal::Absent,
        Refusal::Root,
        Refusal::Full,
        Refusal::JournalFull,
        Refusal::Device,
        Refusal::Halted,
        Refusal::Memory,
        Refusal::Busy,
        Refusal::Touched,
        Refusal::OldSession,
        Refusal::BelowFloor,
        Refusal::NotStaged,
        Refusal::BadStage,
        Refusal::NoImage,
        Refusal::Damaged,
        Refusal::WrongPair,
        Refusal::BadFrame,
        Refusal::TooLarge,
        Refusal::BadMessage,
        Refusal::NoSeat,
        Refusal::NoAnswer,
        Refusal::OldVersion,
    ];

    /// The table: the only place that has a number, a name or an explanation.
    fn row(self) -> Row
        ensures number { result.number ≡ number (cause_of self) }
        ensures name { result.name.now ≡ name_of (cause_of self) }
    {
        let (number, name, explanation) = match self {
            Refusal::BadPath => (
                1,
                "BadPath",
                "the text is no path: `.`, or at most 16 names of 1 to 64 bytes parted by `/`",
            ),
            Refusal::NoParent => (2, "NoParent", "the parent of the path is not a directory"),
            Refusal::IsDirectory => (
                3,
                "IsDirectory",
                "a directory is where the file would be put, or whose mode would change",
            ),
            Refusal::Exists => (
                4,
                "Exists",
                "something is already where the directory would be made",
            ),
            Refusal::Absent => (
                5,
                "Absent",
                "nothing is at the path, or no directory where one is to be listed",
            ),
            Refusal::Root => (6, "Root", "the root cannot be edited, replaced or recorded"),
            Refusal::Full => (7, "Full", "the result would pass a limit"),
            Refusal::JournalFull => (
                8,
                "JournalFull",
                "the record does not fit in what is left of the journal",
            ),
            Refusal::Device => (
                9,
                "Device",
                "a file or a stream cannot be read or written, or the file is no image",
            ),
            Refusal::Halted => (
                10,
                "Halted",
                "a call of the device failed before, and the image was not opened again since",
            ),
            Refusal::Memory => (11, "Memory", "there is not enough memory"),
            Refusal::Busy => (12, "Busy", "somebody else is using it now"),
            Refusal::Touched => (
                13,
                "Touched",
                "the path was changed since the position that was given",
            ),
            Refusal::OldSession => (
                14,
                "OldSession",
                "the session is not the last one, or the item was overtaken by a later one",
            ),
            Refusal::BelowFloor => (
                15,
                "BelowFloor",
                "the position is older than what is remembered, or newer than the present one",
            ),
            Refusal::NotStaged => (16, "NotStaged", "nothing was staged for this item"),
            Refusal::BadStage => (
                17,
                "BadStage",
                "the staged part does not fit what was staged before it",
            ),
            Refusal::NoImage => (
                18,
                "NoImage",
                "the file has no image: it was never formatted, or a format was cut off",
            ),
            Refusal::Damaged => (19, "Damaged", "the bytes of the image break its format"),
            Refusal::WrongPair => (
                20,
                "WrongPair",
                "the image belongs to another pair of replicas",
            ),
            Refusal::BadFrame => (21, "BadFrame", "a frame of no bytes was received"),
            Refusal::TooLarge => (22, "TooLarge", "a frame or a scan is larger than the limit"),
            Refusal::BadMessage => (
                23,
                "BadMessage",
                "what was received is no message, or answers nothing that was asked",
            ),
            Refusal::NoSeat => (24, "NoSeat", "the lock has no pass left"),
            Refusal::NoAnswer => (
                25,
                "NoAnswer",
                "a side gave no answer in time, or its connection ended",
            ),
            Refusal::OldVersion => (
                26,
                "OldVersion",
                "the image is of version 1, in which a file has no mode",
            ),
        };
        Row {
            number,
            name,
            explanation,
        }
    }

    /// The number, from 1 to 26.
    pub fn number(self) -> u8
        ensures { result ≡ number (cause_of self) }
    {
        self.row().number
    }

    /// The refusal of this number, and none where no refusal has it.
    pub fn from_number(wanted: u8) -> Option<Refusal>
        ensures some { IfSome result (λ refusal. number (cause_of refusal) ≡ wanted) }
        ensures none { IfNone result ((refusal : Refusal) → number (cause_of refusal) ≢ wanted) }
    {
        first_with(&Refusal::ALL, wanted)
    }

    /// What was refused, in plain words: a part of a sentence, with no full stop.
    pub fn explanation(self) -> &'static str {
        self.row().explanation
    }
}

/// The first of the refusals that has this number.
fn first_with(refusals: &[Refusal], wanted: u8) -> Option<Refusal>
    ensures { result ≡ find (λ refusal. number (cause_of refusal) == wanted) refusals.now }
{
    refusals
        .iter()
        .copied()
        .find(|refusal| refusal.number() == wanted)
}

/// The name, as it is printed wherever a refusal is printed.
impl fmt::Display for Refusal {
    ghost output = { λ refusal. Some (name_of (cause_of refusal)) };

    fn fmt<W: fmt::Write>(&self, f: &mut fmt::Formatter<W>) -> fmt::Result {
        write!(f, "{}", self.row().name)
    }
}
