//! The first byte of a body: what kind of message it is.

/// A session begins on a side. In version 1 it was kind 1, which is no message now.
pub const BEGIN: u8 = 0x06;

/// The names in a directory, with the mark of each.
pub const LIST: u8 = 0x02;

/// A piece of what stands at a path.
pub const FETCH: u8 = 0x03;

/// A piece for the item's staging.
pub const STAGE: u8 = 0x04;

/// What is staged goes to its path.
pub const REPLACE: u8 = 0x05;

/// A user edits.
pub const EDIT: u8 = 0x11;

/// A user reads what stands at a path.
pub const GET: u8 = 0x12;

/// A user asks where the replica is in its history.
pub const STATUS: u8 = 0x13;

/// A session has begun.
pub const BEGUN: u8 = 0x81;

/// The names in a directory, with the mark of each.
pub const LISTED: u8 = 0x82;

/// No directory is at the path.
pub const NOT_DIR: u8 = 0x83;

/// A piece of what stands at a path.
pub const PIECE: u8 = 0x84;

/// A piece is staged.
pub const STAGED: u8 = 0x85;

/// What was staged is at its path.
pub const DONE: u8 = 0x86;

/// The request is refused.
pub const REFUSED: u8 = 0x87;

/// A user's edit is made.
pub const EDITED: u8 = 0x91;

/// What stands at a path, to a user.
pub const GOT: u8 = 0x92;

/// Where the replica is in its history, to a user.
pub const STATED: u8 = 0x93;
