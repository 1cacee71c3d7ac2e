//! A user's side of a connection to a served replica.
//!
//! A `UserConnection` sends a user's edits and questions as frames, and reads what the replica
//! answers out of frames. A `SideConnection` asks for what a session asks, and so for the whole
//! tree. The reader and the writer may be any.
//!
//! # What it promises
//!
//! A `UserConnection` is over any reader and writer. `line_of` is what its contracts see: what the
//! reader is to give, what came and was not handed out, what was written, and the number of the
//! next request.
//!
//! - `edit`, `get` and `status` write the frame of one request, and answer what the next frame
//!   says, if that is a reply to just this request (`ok`: `IsTold`). A refusal has its cause
//!   (`err`: `Fails`). It is the replica's own, or 9, 11, 21, 22 or 23 of the connection. Or it is
//!   7 for an edit that no frame takes, which is not sent.
//! - The connection goes on exactly after an Ok and a refusal of the replica (`goes`). On a closed
//!   one each call is refused 9, and nothing is written (`closed`).
//!
//! A `SideConnection` asks what a session asks, and begins none. `list` writes the frame of a
//! listing, and answers the reply to just that, which came in the next frame (`replied`:
//! `IsReplied`). A refusal of the replica came so, too (`refused`), and each other refusal has its
//! cause (`unlisted`: `IsUnlisted`). Nothing else was written then. `tree` answers the position
//! that a listing of the root told, and the tree that the pieces spell which were asked for at that
//! position, one after the other (`shown`: `ShowsTree`). It is refused for the same causes, and
//! where the pieces that came are of no tree (`refused`: `NoTree`).
#![tactic(auto)]

mod connection;
mod error;
mod gathered;
mod lawful;
mod reply;
mod side;

pub use connection::UserConnection;
pub use error::UserError;
pub use side::SideConnection;
