//! A server that shares a replica over TCP, and sessions with such servers.
//!
//! Each connection has a thread of its own, and one thread more keeps room in the replica's
//! journal. What a thread does is proved in the crates below. Here they are started and joined.
//!
//! # What it promises
//!
//! - `serve` shares a replica among a thread for each connection and one for the checkpointer. It
//!   is refused 24 where the lock has not as many passes, or 11 for lack of memory, and then served
//!   nobody. That it serves at all is tested: no clause of a thread's caller can say that a thread
//!   ran.
//! - `sync` and `run` drive one session of the coordinator over two connections, as `Driver::run`
//!   of `syn_sync` does (`drives`). Ok says that a session was started, with the preference that
//!   was asked for, and that none runs now (`ended`). `run` is refused 9 where a port cannot be
//!   had, and 11 where a server has no thread: then the coordinator is as it was (`refused`). Each
//!   session takes a `Belonging` of the archive as it is (`BelongTo`), which `check_pair` of
//!   `syn_pair` alone makes.
//! - `Stamping` is the stamp by which a folder and its marks are known to belong together. It is
//!   raised before anything is recorded.
//! - `Sides` are the connections of a session with two servers. `ask` asks a side over the very
//!   connection over which the session goes.
//! - `reach` is the connection to a server, for a session and for a user.
//! - Within, each connection is served to its end by exchanges with a pass of the replica's lock,
//!   with nothing staged at its start (`serve_over`: `WasServedWhole`).
#![tactic(auto)]

mod bell;
mod checkpointer;
mod console;
mod ending;
mod folder_side;
mod pauses;
mod server;
mod sessions;
mod shares;
mod sides;
mod stamping;
mod streams;
mod told;
mod worker;

pub use console::Plain;
pub use folder_side::FolderSide;
pub use pauses::{NoPause, NoPauses, Pauses};
pub use server::{Bounds, serve, serve_beside, serve_within};
pub use sessions::{run, sync};
pub use sides::Sides;
pub use stamping::{KeepsMarks, StampError, Stamping};
pub use streams::reach;
