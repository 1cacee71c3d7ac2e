//! What no run of the world does, and a session that the definitions allow: what no run meets
//! proves nothing.
//!
//! # What it promises
//!
//! Its functions do nothing. What they promise are sentences on the definitions of the world.
//!
//! - `forbidden` says what no run does. Each sentence refutes a wrong body.
//!   - Without a stop among the steps no machine goes down (`up`). An edit takes its side down only
//!     where a stop is armed at one of its four calls (`stops`). It is not acknowledged where one
//!     of them is armed to fail or to be the last (`armed`).
//!   - A session that has just started is not given up at its first tick (`fresh`), and no side is
//!     asked twice to begin it but by a resend (`begins`). No side is asked for a listing before
//!     both have answered that they have begun (`lists`).
//!   - An answer without a fault ends no session 22 or 23 (`faults`). One with an unstable path is
//!     not called Complete (`unstable`), and one whose archive's device failed in a call does not
//!     go on (`fails`).
//!   - Within an answer the session never goes back in its plan. What it reports refused are items
//!     that it passed (`refuses`), and what it records is due for an item that it came to
//!     (`keeps`).
//!   - A checkpoint within an answer is for a record that is due and does not fit (`needed`). That
//!     record follows, or nothing more of the answer (`room`), so that there is at most one
//!     checkpoint more than records (`checkpoints`). An answer without a fault ends no session 8
//!     without such a checkpoint (`full`).
//!   - A machine is halted only after one of its device calls failed (`halted`). A step is refused
//!     9, and a session ends 9 for an answer without a fault, only where a device call failed in it
//!     (`refused`, `ended`).
//! - `witnesses` is a session that the definitions allow, step by step: it carries a file from one
//!   side to the other, whichever side it prefers. It starts from three formatted disks (`start`),
//!   of which the archive's has the room that a new one has (`room`, `carried`), or 50 bytes: then
//!   a checkpoint makes room for the record within the last answer (`made`). It is one of the
//!   sessions of which a run promises what they leave.
//! - `examples` are answers of a side, one by one; the last three are of a halted side.
#![tactic(auto)]

ghost use Rattle.syn_witness.specs.Rows.{SideRows};
ghost use Rattle.syn_witness.specs.Forbidden.{StaysWithoutStop, ArmedCallsCome, StartsFresh};
ghost use Rattle.syn_witness.specs.Forbidden.{BeginsOnce, FaultsAlone, UnstableIsIncomplete};
ghost use Rattle.syn_witness.specs.Forbidden.{ListsAfterBegun, FailureEnds, RefusedIsPassed};
ghost use Rattle.syn_witness.specs.Forbidden.{KeptIsDue, RecordsAfterRoom, CheckpointsAreNeeded};
ghost use Rattle.syn_witness.specs.Forbidden.{CheckpointsAreForRecords, FullAfterCheckpoint};
ghost use Rattle.syn_witness.specs.Forbidden.{HaltedAfterFailure, RefusedAfterFailure};
ghost use Rattle.syn_witness.specs.Forbidden.{EndsAfterFailure, StopsAsArmed};
ghost use Rattle.syn_witness.specs.Witness.{OpenedIsStart, NewRoomIs, FileIsCarried, RoomIsMade};

/// What a side answers in worked examples, which its definition gives.
pub fn examples()
    ensures sides { SideRows }
{}

/// A session that the definitions allow, step by step, from three formatted disks. Whichever side
/// it prefers, it carries a file, whose record has room, or needs a checkpoint within the answer.
pub fn witnesses()
    ensures start { OpenedIsStart }
    ensures room { NewRoomIs }
    ensures carried { FileIsCarried }
    ensures made { RoomIsMade }
{}

/// What no run does. Without a stop among the steps no machine goes down, and an edit takes its
/// side down only as a stop is armed there. An edit is not acknowledged where one of its device
/// calls is armed. A session is not given up at its first tick, begun twice on a side, ended 22 or
/// 23 for an answer without a fault, called Complete with an unstable path, or gone on with once
/// its archive's device failed. No side is asked for a listing before both have begun, and no item
/// is refused or recorded before the session came to it. No checkpoint is made within an answer but
/// for a record that does not fit, which is kept next, and no session ends 8 without it. No machine
/// is halted, no step is refused 9 and no session ends 9 but after a device call that failed.
pub fn forbidden()
    ensures up { StaysWithoutStop }
    ensures stops { StopsAsArmed }
    ensures armed { ArmedCallsCome }
    ensures fresh { StartsFresh }
    ensures begins { BeginsOnce }
    ensures faults { FaultsAlone }
    ensures unstable { UnstableIsIncomplete }
    ensures lists { ListsAfterBegun }
    ensures fails { FailureEnds }
    ensures refuses { RefusedIsPassed }
    ensures keeps { KeptIsDue }
    ensures room { RecordsAfterRoom }
    ensures needed { CheckpointsAreNeeded }
    ensures checkpoints { CheckpointsAreForRecords }
    ensures full { FullAfterCheckpoint }
    ensures halted { HaltedAfterFailure }
    ensures refused { RefusedAfterFailure }
    ensures ended { EndsAfterFailure }
{}
