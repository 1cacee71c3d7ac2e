//! A session between two replicas over two connections.
//!
//! A `Driver` runs a session of a coordinator: it sends each request as a frame to its side, reads
//! the side's replies out of frames, and hands each to the coordinator. The readers and the writers
//! may be any, and a `Readiness` tells which side has a reply.
//! A `SessionWatch` is told how the session goes, and how it ended.
//!
//! # What it promises
//!
//! It runs a session of a coordinator over a left and a right connection, each with any reader and
//! writer. The coordinator stays what decides: the driver carries its requests out and the replies
//! in.
//!
//! - A connection is a `ConnectionState` to its contracts, of what is read: what the reader is to
//!   give, and what came and was not handed out. It is an `Outlet`, of what is written: that, and
//!   whether the connection goes on.
//! - `send` writes a request as one frame (`written`: `Writes`). The connection goes on exactly
//!   where the frame was written whole; else a beginning of it was written, and it is closed. On a
//!   closed one nothing is written. What is read stays (`state`).
//! - `receive` hands out the reply in the first frame of what came (`heard`: `Hears`). It gives
//!   none where the connection is closed, and then it stays closed (`closed`). What closes it is
//!   its end, a read that fails, a bad frame, a body that is no reply, or lack of memory. Nothing
//!   is written.
//! - `run` drives a session to its end, told of a coordinator that is some machine of the pair
//!   (`drives`: `Drives`).
//!   - Its acts are starts, checkpoints, replies that it takes, and ticks. They lead by steps of
//!     the coordinator's machine to the one that it then is, or to one that went down in the last
//!     act (`leads`, `ends`).
//!   - Each side's replies among them are those that came over its connection, in order, and no
//!     other (`hears`). Each is under the session and the number that it came with.
//!   - The frames of the requests that the acts sent to a side are what was written there, in order
//!     (`writes`). They are all there where the connection goes on and the machine was not stopped,
//!     else a beginning of them. What a tick sends again is not written: only a session that is
//!     given up ticks.
//! - Which side is read where both have to answer is told by a `Readiness`, and no clause asks
//!   which.
//! - Where a connection closes, no side is ready in time or has to answer, the session is given up:
//!   at most nine ticks end it 25, which the coordinator reports.
//! - A start that is refused 8 makes a checkpoint and starts again, once.
//! - After Ok the acts begin with a start, maybe after that checkpoint (`drives`: `Begins`). No
//!   session runs then, and the machine was not stopped (`ended`, `goes`).
//! - A refusal is the first cause of the start; or, where that is 8, of the checkpoint, or of the
//!   start after it (`refused`: `Refuses`). It is 9 where a device call failed or the machine was
//!   stopped, and 25 where a session still runs that no tick ends, which no clause rules out.
#![tactic(auto)]

mod driver;
mod readiness;
mod session_connection;
mod watch;

pub use driver::Driver;
pub use readiness::Readiness;
pub use session_connection::SessionConnection;
pub use watch::{SessionWatch, Unwatched, tell_unreached};
