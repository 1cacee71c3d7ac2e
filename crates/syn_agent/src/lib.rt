//! How a side takes what a session asks of it.
//!
//! # What it promises
//!
//! An `Agent` keeps the staging of one connection. `side_of history agent` is the side of the
//! world's definitions with that history and what the agent keeps.
//!
//! - `answer` takes a session's request to a lent replica. For every machine of the world that the
//!   replica with its agent is (`IsOf`), the answer is a step of that machine (`takes`). That step
//!   is `SideTakes`, which a delivery of the world uses. After it they are the next machine's; or
//!   the disk is stopped, the machine is down and nothing is heard. Whatever a stop may then leave
//!   on the disk may be the machine's (`left`).
//! - `IsOf` says that the replica keeps the machine's journal (`IsMachine` of `syn_replica`), and
//!   the agent what the machine has staged.
//! - `machine_laws`: a replica that stands for the history of an up machine, with its room,
//!   generation and arms, is that machine's.
//! - An event that a step adds is what was sent to the disk last (`Takes`: `added`). So is one that
//!   is being written after it and was not before (`writing`).
//! - For every history that the replica stands for (`answers`), the answer is in one of three cases
//!   (`Answers`). Nothing is added, and the replica stays as it was. Or one event is added, stands,
//!   and took four device calls. Or an event should be added and the device failed, which is
//!   answered 9 and halts the replica. What that is to the model's machine it says as the replica
//!   does (`world`).
//! - Where an event was sent to the disk, it is what was tried. A stop at any moment of the call
//!   then leaves the history with it or without it (`Sends`). In the other case the disk is as it
//!   was.
//! - The machine counts no more failed calls in the step than its disk does (`Takes`: `counts`).
//! - In each case the side serves the request as the definition says (`Serves`), or answers 11 and
//!   changes nothing. 11 comes only where the answer takes memory (`TakesMemory`, in `Serves`). It
//!   never comes for a token that is done or old, a staging that does not fit, a first piece, or
//!   one that came before. Nor does it where a session's begin or a fetch is refused, or where no
//!   directory is at the path.
//! - 9 is answered exactly where the count of failed device calls grew (`failures`).
//! - Of a halted replica it answers what the definition of a halted side says, of whatever history
//!   (`halted`), and the replica stays (`unchanged`).
//! - Whatever is answered, the replica left is grown from the one found (`grown`), with no
//!   condition.
//! - Every reply can be written as a message (`lawful`), with no condition too.
//! - `begin`, `list`, `fetch`, `stage` and `replace` are the single requests, with the same
//!   clauses.
//! - `stage` keeps what the definition's `stage` keeps (`StagesAs`). A staging holds at most
//!   526,336 bytes. A piece that goes after the last is added in place.
#![tactic(auto)]

mod agent;
mod answer;
mod begin;
mod laws;
mod reading;
mod replace;
mod staging;

pub use agent::Agent;
pub use laws::machine_laws;
pub use staging::{MOST_STAGED, Staging};
