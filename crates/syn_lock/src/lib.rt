//! A lock over a state that only grows, with a ghost history of its holds.
//!
//! # What it promises
//!
//! - `enter` and `try_enter` lend the state, which is the one that the last holder left (`entered`,
//!   `later`). The view of the pass becomes a longer history of holds. Each of these found what the
//!   one before left, and let it grow by the state's own relation.
//! - A pass's own holds in that history are those that it made, each of them (`own`). A refusal 12
//!   is in its view as well, so it cannot be forged.
//! - `leave` adds the hold to the history. `position` reads how far the last published state is,
//!   with no lock taken.
//! - `meet` gives two passes one common history.
//! - A `PassPool` that is refused memory gives the same pass back (`put`).
//! - `close` gives the last state back; `pass` refuses 24 where all passes are out.
#![tactic(auto)]

mod error;
mod grows;
mod guard;
mod own;
mod pool;
mod rule;
mod view;

pub use error::{LockError, Refused};
pub use grows::Grows;
pub use guard::{Guard, Holder};
pub use own::{MOST_PASSES, Onlooker, Own, Pass};
pub use pool::{NamedPass, Naming, PassPool};
pub use view::{Hold, View};
