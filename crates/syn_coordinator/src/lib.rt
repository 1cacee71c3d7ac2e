//! The coordinator of a pair: it runs sessions between the two replicas, over its archive.
//!
//! # What it promises
//!
//! `Stands coordinator pair machine`: it is this machine of the model. Its archive is the machine's
//! (`IsMachine`), and the session that runs is the machine's (`IsSession` of `syn_session`).
//!
//! - A call does a step of the machine (`Does`): the coordinator is the machine after it, with what
//!   was kept, sent and reported. Or the machine went down in it, with what was kept so far; the
//!   coordinator is of no use then.
//! - `start` keeps the next number and asks both sides to begin, with the preference that it is
//!   given (`step`: `CoordinatorStarts`), only where no cause stands (`allowed`): no session runs
//!   then. It is refused with the first cause that stands, and changes nothing then (`refused`).
//!   After 9 `kept` has what was being written (`breaks`), and no report stands once it succeeds
//!   (`report`).
//! - `on_tick` sends again what waits, or ends the session 25 or 11 (`step`: `CoordinatorTicks`).
//!   It makes no device call and leaves the archive.
//! - `checkpoint` and `reopen` are the machine's (`Checkpoints`, `Reopens`), whatever session runs,
//!   and leave what `report` and `kept` answer, refused or not (`same`, `again`). An archive that a
//!   failed call left is never 18, 19, 20 or 26: `reopen` is refused 9 or 11 alone (`memory`).
//! - `arm` sets what is armed at the machine (`stands`), and `is_cut` says whether it is down.
//! - `on_reply` takes the answer of a side under the session and number of its request (`step`:
//!   `CoordinatorTakes`). It answers what is to be sent next, and `kept` and `report` have what it
//!   wrote and how the session ended. The reply has to be one that can be sent (`lawful`), as the
//!   decoder gives it.
//! - Where a record was sent to the disk in `on_reply` and not kept, it is in doubt: `kept` has it
//!   beside what was written, and so has `tried`. Otherwise none is in doubt: no call failed, or
//!   one of a checkpoint before the record did (`breaks`).
//! - Where the archive of a machine that was up is halted after `start`, `on_reply` or
//!   `checkpoint`, a device call failed in it, unless the machine stopped (`halts`).
//! - `tried` is the record that could not be kept, until an opening. `reopen` answers it where the
//!   disk has it (`ok`), and `open` makes a coordinator of the disk of a machine that was down
//!   (`opens`), refused 9 or 11 alone (`rests`).
//! - No record is cut off under a session that runs (`quiet`, `untried`), so another opening leaves
//!   its archive's marks as they were.
//! - `settled` answers what became so far of the items of the running session, as it would report
//!   them if it ended now, or else what the last report has of them (`settled`: `settled_so_far`).
//!   It has how many items the plan of the running session has, once that is made (`planned`).
//! - `waits_on` says whether a request of the running session waits on a side.
//!
//! # What is due is kept
//!
//! `IsMachine archive pair machine`: the archive is that of this machine of the model. It has the
//! same pair, marks and last session, and the same arms at its device. While it runs, the same room
//! and generation stand in its journal. Whatever a stop may leave on its disk may be the machine's
//! (`LeavesMachine`). How many device calls failed is not compared.
//!
//! - `keep_due` keeps the record of an item, with one checkpoint where it has no room (`settles`:
//!   `Settles`). It is recorded; or its item is refused as the archive refuses it, or 7 where no
//!   checkpoint can be made. Or the session ends: 10 where the archive is halted, 9 for the device,
//!   8 where a checkpoint leaves no room, and 11 for memory. With 9 it says whether the record was
//!   sent to the disk (`Tried`) or its checkpoint failed before that (`Unsent`). 11 comes
//!   only where the archive is neither halted nor refuses the record (`memory`).
//! - An item that is refused leaves the archive just as it was, with its disk (`refused`).
//! - The count of failed device calls grows exactly where the session ends for the device, but for
//!   a stop right after the checkpoint (`failures`). The pair stays (`pair`).
//! - `TriedRecord` is a record that was being written as a device call failed, with the room and
//!   the generation that the archive showed (`IsTriedBy`). `recovered_record` gives it where the
//!   archive, which was opened again, has less room in the same generation (`found_in`).
//! - `Tries tried machine`: what is remembered is what the machine's journal was writing, and
//!   nothing is remembered where it was writing nothing.
#![tactic(auto)]

mod coordinator;
mod due;
mod error;
mod plan_runner;
mod session_end;
mod tried;

pub use coordinator::Coordinator;
pub use due::{RecordOutcome, keep_due};
pub use error::StartError;
pub use tried::{TriedRecord, recovered_record};
