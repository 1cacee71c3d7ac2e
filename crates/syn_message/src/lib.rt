//! What two machines say to each other, in bytes: a body for each message.
//!
//! A body is a kind, the session, the number of the request in it, and what the message has.
//! Numbers are big-endian, and nothing follows the last field. Each message has one body.
//!
//! # What it promises
//!
//! - `decode_request` gives the request that a whole body spells, and none exactly where the body
//!   spells no request (`IsWholeReading`). In a request nothing follows the last field, the session
//!   is not 0, and what is staged has 1 to 32,768 bytes, which its type says (`StagedPiece`).
//!   `encode_request` writes that one body.
//! - `decode_reply` and `encode_reply` are the same for what a side answers. A listing has at most
//!   256 names in strict byte order, a piece at most 32,768 bytes, and a refusal one of the
//!   product's numbers.
//! - `decode_user_request` and `encode_user_request` are the same for what a user asks of a served
//!   replica, and `decode_user_reply` and `encode_user_reply` for what a user is told. Their
//!   session is 0. A reply that tells where a replica is has its identity of 16 bytes, if it has
//!   one, and a lawful status.
//! - No two messages of one kind of these four have one body (`message_laws`), so what was written
//!   is read again.
//! - `write_stated` and `read_stated` spell and read an identity with a status by themselves, as
//!   they stand in a reply to a user (`Reads`).
//! - `Request::copy` and `Reply::copy` give an equal message.
#![tactic(auto)]

ghost use Rattle.syn_message.specs.Laws.{RequestsTell, RepliesTell, UserRequestsTell};
ghost use Rattle.syn_message.specs.Laws.{UserRepliesTell};

mod copies;
mod head;
mod kind;
mod listing;
mod reply;
mod reply_reading;
mod request;
mod request_reading;
mod staged_piece;
mod status;
mod status_reading;
mod user;
mod user_reading;
mod user_reply;
mod user_reply_reading;

pub use listing::are_rising;
pub use reply::{Reply, ReplyMessage, encode_reply};
pub use reply_reading::decode_reply;
pub use request::{Request, RequestMessage, encode_request};
pub use request_reading::decode_request;
pub use staged_piece::StagedPiece;
pub use status::write_stated;
pub use status_reading::read_stated;
pub use syn_wire::LONGEST_PIECE;
pub use user::{UserRequest, UserRequestMessage, encode_user_request};
pub use user_reading::decode_user_request;
pub use user_reply::{UserReply, UserReplyMessage, encode_user_reply};
pub use user_reply_reading::decode_user_reply;

/// No two messages have one body, so what was written is read again.
pub fn message_laws()
    ensures requests { RequestsTell }
    ensures replies { RepliesTell }
    ensures user_requests { UserRequestsTell }
    ensures user_replies { UserRepliesTell }
{
    syn_wire::spelling_laws();
}
