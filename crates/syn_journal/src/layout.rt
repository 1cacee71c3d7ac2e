//! Where things stand in a half, in bytes. `journal.rt` draws it.
use crate::half::HALF_SIZE;

/// The byte of an open gate. Any other closes it.
pub const OPEN_GATE: u8 = 0xa5;

/// Where the length of the image stands, after the gate and the generation.
pub const IMAGE_LENGTH_AT: usize = 9;

/// Where the image begins, after its length.
pub const IMAGE_AT: usize = 13;

/// What a record has before its payload: its gate and its length.
pub const RECORD_HEADER: usize = 5;

/// What a record takes beside its payload: its header, and the gate of the next record.
pub const RECORD_OVERHEAD: usize = 6;

/// The length of the longest image. With it the first gate of a record is the last byte of its
/// half, and no record fits.
pub const LONGEST_IMAGE: usize = HALF_SIZE - IMAGE_AT - 1;
