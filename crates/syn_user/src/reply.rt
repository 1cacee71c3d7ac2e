//! Which replies answer a request.
ghost use Rattle.std.specs.Prelude.{◌↔◌, IfNone, IfSome, IsTrue};
ghost use Rattle.syn_message.specs.UserReplies.{user_reply_message_of, user_reply_of};
ghost use Rattle.syn_message.specs.Users.{user_request_of, user_request_message_of};
ghost use Rattle.syn_user.specs.Exchanges.{Answers};
ghost use Rattle.syn_user.specs.inner.Parts.{IsForeign, IsReplyTo};

use syn_message::{UserReply, UserReplyMessage, UserRequest, UserRequestMessage};

/// What is replied, where it is a reply to this request.
pub(crate) fn reply_to(asked: &UserRequestMessage, answered: UserReplyMessage) -> Option<UserReply>
    ensures some { IfSome result (λ reply. IsReplyTo (user_request_message_of asked.now)
        (user_reply_message_of answered)
        (user_reply_of reply)) }
    ensures none { IfNone result (IsForeign (user_request_message_of asked.now)
        (user_reply_message_of answered)) }
{
    if answered.number == asked.number && is_answer(&asked.request, &answered.reply) {
        return Some(answered.reply);
    }
    None
}

/// Whether such a request may be answered so.
fn is_answer(request: &UserRequest, reply: &UserReply) -> bool
    ensures { IsTrue result ↔ Answers (user_request_of request.now) (user_reply_of reply.now) }
{
    match request {
        UserRequest::Edit { .. } => {
            matches!(reply, UserReply::Edited { .. } | UserReply::Refused(_))
        }
        UserRequest::Get { .. } => {
            matches!(reply, UserReply::Got { .. } | UserReply::Refused(_))
        }
        UserRequest::Status { .. } => {
            matches!(reply, UserReply::Status { .. } | UserReply::Refused(_))
        }
    }
}
