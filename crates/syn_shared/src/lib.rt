//! A replica that threads share, under a lock.
//!
//! # What it promises
//!
//! A `SharedReplica` is a replica under the lock (`own`). Each caller has a pass of that lock
//! (`IsFor`), and each call is one hold.
//!
//! - `try_edit`, `try_replace`, `try_checkpoint`, `try_reopen`, `try_get`, `try_list` and
//!   `try_listing` take the lock if it is free (`held`).
//!   - Either their one exchange found it taken, which the pass's view then shows. They are refused
//!     12, and nothing was looked at or changed (`FoundBusy`).
//!   - Or there is a lock history that begins with all that the pass had seen, with the pass's own
//!     holds and no others under its number. The pass has then seen that history with one hold more
//!     at its end, its own (`HeldOnce`).
//!   - That hold found the replica at the end of the history. The answer and the replica left are
//!     what the call of one thread gives there.
//! - What that is, is one record for each call: `Edits`, `Replaces`, `Checkpoints`, `Reopens`,
//!   `Gets`, `Lists`, `ListsMarks`. Each has the clauses of the replica's own call, of the replica
//!   found and the one left, and its record (`machine`) as it is. One that reads leaves the replica
//!   as it was found.
//! - What is got is within the limit of a file, also of a replica that stands for no history
//!   (`Gets`: `fits`).
//! - An edit, and a replacement under a token that is not done, are one step in the form of a
//!   side's (`step`: `StepsBy`), told of a replica that runs. What was checked and what was added
//!   are in one hold.
//!   - The event is added by four device calls and stands. Or one of them failed, and the replica
//!     is cut off there. Or the first cause, or lack of memory, is answered without a device call,
//!     and the history stands.
//! - Each changing hold is a step of the world's side (`world`), of every machine that the replica
//!   with some agent is (`IsOf` of `syn_agent`). This holds whether the machine goes on, is halted
//!   or stops. It leaves the replica as that machine after it.
//!   - An edit is refused just for the cause that the world names first, lack of memory last, or
//!     its event is written (`EditsSide`: `Writes`). So is a replacement under a token that is not
//!     done (`WritesEvent`), where memory may come before another cause.
//!   - A checkpoint is the world's (`CompactsSide`: `Compacts`), with its causes. Another opening
//!     gives what the disk may mean (`ReopensSide`: `Opens`), also of a halted machine; else it is
//!     refused 9 and 11 alone.
//! - `journal_health` is one hold that shows room and halt, and changes nothing (`held`:
//!   `ShowsHealth`). `keep_up` is a checkpointer's step (`keeps`: `KeepsUp`).
//!   - It looks. A halted replica it opens again, and where there is less room than the caller
//!     wants it makes a checkpoint, in a hold of its own. Else it rests.
//!   - Where the lock is taken nothing was looked at; where it is taken between the two holds, the
//!     second is refused 12.
//! - `edit`, `get`, `status`, `snapshot` and `put_part` wait for the lock, and say the same after
//!   any number of exchanges that found it taken (`HeldAfterWait`). No other call of a shared
//!   replica may wait.
//! - `status` tells where the replica is in its history, also while it is halted (`Tells`), and
//!   leaves it as it was found.
//! - `snapshot` answers what the replica has in one hold (`Takes`). `put_part` puts a part of a
//!   tree in the place of what the replica has at a path (`Puts`). Where an event touched the path
//!   since the given position it is refused for that, and nothing changes (`touched`). Else the
//!   edits of the user are made in turn within the one hold, and each is what an edit is
//!   (`AddsInTurn`, `Edits`): so each is a step of the world's side. Ok says that all of them
//!   stand, and that the part is there (`acknowledged`).
//! - In each history a replica left is grown from the one found (`IsGrown`), and what a pass saw
//!   last is grown further by each of its calls (`later`). It reads back its own writes, and no
//!   position that it finds is below one that it found before. So what one caller was told Ok of
//!   stands for every caller whose hold comes later, in one order, also through a halt. A hold that
//!   reopens may bring in one event that was refused 9.
//! - `position` is that of the replica that was left last, read without the lock. It is not below
//!   any that the pass had seen (`later`).
//! - `new` gives the replica back where memory is refused. `into_own` gives the lock, whose `close`
//!   gives the replica back.
//! - `with_identity` keeps the lock, and tells what the replica's disk is known by; `identity`
//!   reads it. A new shared replica has none.
//! - `serve` is one worker of a program: it borrows the replica and a pool of passes (`fill`),
//!   lends the pass that was drawn to its `Work`, and puts it back. The pool's type names the lock
//!   (`IsLock`), so that no pass of another lock comes in. With a pass the work is done, once, and
//!   the answer is Ok or 11 (`IsDone`). It is 24 exactly where none was drawn, and then nothing was
//!   done (`IsNotDone`).
#![tactic(auto)]

mod checkpointer;
mod edits;
mod error;
mod laws;
mod parts;
mod reads;
mod sessions;
mod shared;
mod upkeep;
mod workers;

pub use checkpointer::{JournalHealth, ROOM_IN_SHORT_JOURNAL, UpkeepStep, journal_health, keep_up};
pub use error::SharedError;
pub use parts::Snapshot;
pub use shared::SharedReplica;
pub use workers::{Work, fill, serve};
