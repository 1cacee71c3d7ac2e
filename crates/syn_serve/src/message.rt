//! What comes over a connection and what goes back: of a session, or of a user.
ghost use Rattle.std.specs.Prelude.{◌≡◌, IfOk, option_map};
ghost use Rattle.syn_message.specs.Bodies.{IsWholeReading};
ghost use Rattle.syn_serve.specs.Messages.{IsLawfulMessage, IsLawfulResponse, message_kind};
ghost use Rattle.syn_serve.specs.Messages.{message_of, message_spelling, response_of};
ghost use Rattle.syn_serve.specs.Messages.{response_spelling};

use std::alloc::Global;
use syn_message::{
    ReplyMessage, RequestMessage, UserReplyMessage, UserRequestMessage, decode_request,
    decode_user_request, encode_reply, encode_user_reply,
};
use syn_wire::WireError;

/// A request of a session, or of a user.
#[derive(Debug, Drop)]
pub enum AnyRequest {
    /// With its session and its number.
    Session(RequestMessage),
    /// With its number.
    User(UserRequestMessage),
}

impl AnyRequest {
    /// The first byte of its body.
    pub fn kind(&self) -> u8
        ensures { result ≡ message_kind (message_of self.now) }
    {
        match self {
            AnyRequest::Session(asked) => asked.request.kind(),
            AnyRequest::User(asked) => asked.request.kind(),
        }
    }
}

/// A reply to a session, or to a user.
#[derive(Debug, Drop)]
pub enum AnyReply {
    /// With the session and the number of the request.
    Session(ReplyMessage),
    /// With the number of the request.
    User(UserReplyMessage),
}

/// The request that the body spells; none where it spells none of either.
///
/// Refused 11 where memory is refused.
pub fn decode_any_request(alloc: Global, body: &[u8]) -> Result<Option<AnyRequest>, WireError>
    ensures { IfOk result (λ read. IsWholeReading IsLawfulMessage message_spelling body.now
        (option_map message_of read)) }
{
    if let Some(asked) = decode_request(alloc, body)? {
        return Ok(Some(AnyRequest::Session(asked)));
    }
    Ok(decode_user_request(alloc, body)?.map(AnyRequest::User))
}

/// The body of the reply.
///
/// Refused 11 where memory is refused.
pub fn encode_any_reply(alloc: Global, reply: &AnyReply) -> Result<Vec<u8>, WireError>
    requires { IsLawfulResponse (response_of reply.now) }
    ensures { IfOk result (λ body. body.items ≡ response_spelling (response_of reply.now)) }
{
    match reply {
        AnyReply::Session(answered) => encode_reply(alloc, answered),
        AnyReply::User(answered) => encode_user_reply(alloc, answered),
    }
}
