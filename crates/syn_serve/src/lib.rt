//! A server's worker: it answers the requests that come over one connection from a shared replica.
//!
//! A request is a session's or a user's, in a frame. Each is answered by one hold of the replica's
//! lock, and the reply goes back in a frame. The reader and the writer may be any.
//!
//! # What it promises
//!
//! - `decode_any_request` gives the message that a body spells, and none exactly where it spells
//!   none of either. `encode_any_reply` gives the body of a reply.
//! - A connection is a `ConnectionState` to its contracts: what the reader is to give, what came
//!   and was not handed out, what is staged, and what was written. A `Moment` is such a state with
//!   the pass.
//! - `serve_next` is one exchange, which is one of five things (`exchanges`: `Exchanges`).
//!   - A message came and its reply was written (`answers`). Its body was in the first frame of
//!     what came, and its one hold answered it (`IsAnswered`); the reply's frame is all that was
//!     written.
//!   - The other side closed before a whole frame came (`ends`). The pass, what is staged and what
//!     was written stay.
//!   - The connection is to be closed, and nothing was answered (`closes`). This comes for 21 and
//!     22 as the bytes claim, for 23 as no message has this body, for 9 of a read and for 11
//!     (`ClosesFor`). The pass, what is staged and what was written stay.
//!   - The connection is to be closed, since a begin came of the session that the replica had begun
//!     last, and another connection began it (`declines`). One hold found that and left the replica
//!     as it was; what is staged and what was written stay.
//!   - A message was answered, and the reply was not written whole (`breaks`). After 9 a beginning
//!     of its frame was written, and after 11 nothing (`BreaksOff`). No reply is too long for a
//!     frame.
//! - A hold finds the replica at the end of a lock history that begins with what the pass had seen,
//!   maybe after the lock was found taken (`Responds`). The reply has the session and number of its
//!   request.
//!   - A session's request is answered as the agent's call of one thread answers it there, and the
//!     replica is left so (`AnswersAlone`: the clauses of `answer` of `syn_agent`). It is a hold of
//!     the server in the words of `syn_machine` (`holds`: `HoldsFor`), over a connection that has
//!     what the agent has staged. No begin is answered Begun unless this hold added its event, or
//!     the connection had it answered so before (`once`: `BeginsOnce`).
//!   - A user is told what the edit of one thread answers, what stands at the path, or where the
//!     replica is in its history, with the identity that it is shared under (`Grants`: `Edits`,
//!     `Gets` and `Tells` of `syn_shared`). What is staged stays.
//! - `serve` is any number of exchanges that answered, and the one that did not (`serves`:
//!   `Serves`). Nothing is read after a refusal.
//! - What the pass saw last is grown further by each of these calls (`later`).
//! - A `Pause` is told before each hold and after it, outside the lock, with the request's kind.
//!   No clause speaks of it.
//! - `Serving` is the `Work` of one worker. With its pass it serves its connection to the end, and
//!   keeps how that ended (`does`: `WasServed`).
#![tactic(auto)]

mod answering;
mod connection;
mod error;
mod message;
mod pause;
mod serving;

pub use connection::{Exchanged, ServerConnection};
pub use error::ServeError;
pub use message::{AnyReply, AnyRequest, decode_any_request, encode_any_reply};
pub use pause::{Pause, Point};
pub use serving::Serving;
