//! One hold answers a request.
ghost use Rattle.std.specs.Prelude.{◌≡◌, ◌↔◌, IfNone, IfSome, MatchOption, option_map, true};
ghost use Rattle.syn_history.specs.Status.{identity_of};
ghost use Rattle.syn_message.specs.Replies.{IsLawfulReply, reply_of};
ghost use Rattle.syn_message.specs.Requests.{request_of};
ghost use Rattle.syn_message.specs.Statuses.{IsIdentity};
ghost use Rattle.syn_message.specs.UserReplies.{IsLawfulUserReply, user_reply_of};
ghost use Rattle.syn_message.specs.Users.{AsksStatus, Edits, Gets, user_request_of};
ghost use Rattle.syn_replica.specs.Growth.{IsGrown};
ghost use Rattle.syn_serve.specs.Begins.{IsBegunElsewhere};
ghost use Rattle.syn_serve.specs.Holds.{DeclinesMessage, Grants, Responds};
ghost use Rattle.syn_serve.specs.Messages.{IsLawfulMessage, IsLawfulResponse, message_of};
ghost use Rattle.syn_serve.specs.Messages.{response_of};
ghost use Rattle.syn_serve.specs.inner.Parts.{TakesUp};
ghost use Rattle.syn_shared.specs.Shared.{HeldAfterWait, IsFor, IsLater};
ghost use Rattle.syn_tree.specs.Contents.{IsLawful, content_of};
ghost use Rattle.syn_tree.specs.Edits.{edit_of};

use crate::message::{AnyReply, AnyRequest};
use std::alloc::Global;
use std::sync::Wait;
use syn_agent::Agent;
use syn_disk::Disk;
use syn_history::{Identity, is_identity, status_laws};
use syn_lock::Pass;
use syn_message::{
    Reply, ReplyMessage, Request, RequestMessage, UserReply, UserReplyMessage, UserRequest,
    UserRequestMessage,
};
use syn_model::are_bytes;
use syn_path::Path;
use syn_replica::{Replica, ReplicaError};
use syn_shared::SharedReplica;
use syn_tree::{Content, Edit, TreeError};

/// Waits for the lock, and answers the request within one hold of it. `begun` is the session that
/// was begun over the connection last. None where the request begins the session that the replica
/// had begun last, and another connection began it: nothing was done then.
pub(crate) fn answer<H: Wait, D: Disk>(
    rt: &H,
    alloc: Global,
    shared: &SharedReplica<D>,
    pass: &mut Pass<Replica<D>>,
    agent: &mut Agent,
    begun: Option<u64>,
    request: AnyRequest,
) -> Option<AnyReply>
    requires pass { IsFor shared.now pass.old }
    requires lawful { IsLawfulMessage (message_of request) }
    ensures of { IsFor shared.now pass.new }
    ensures held { MatchOption result
        (DeclinesMessage shared.now pass.old pass.new begun (message_of request))
        (λ reply. Responds shared.now pass.old pass.new begun agent.old agent.new
        (message_of request) (response_of reply)) }
    ensures silent { IfNone result (agent.new ≡ agent.old) }
    ensures lawful { IfSome result (λ reply. IsLawfulResponse (response_of reply)) }
    ensures later { IsLater shared.now pass.old pass.new }
{
    match request {
        AnyRequest::Session(asked) => {
            let RequestMessage {
                session,
                number,
                request,
            } = asked;
            let answered = answer_session(rt, alloc, shared, pass, agent, begun, session, request);
            let Some(reply) = answered else {
                return None;
            };
            Some(AnyReply::Session(ReplyMessage {
                session,
                number,
                reply,
            }))
        }
        AnyRequest::User(asked) => {
            let UserRequestMessage { number, request } = asked;
            let reply = answer_user(rt, alloc, shared, pass, request);
            Some(AnyReply::User(UserReplyMessage { number, reply }))
        }
    }
}

/// A session's request, within one hold.
fn answer_session<H: Wait, D: Disk>(
    rt: &H,
    alloc: Global,
    shared: &SharedReplica<D>,
    pass: &mut Pass<Replica<D>>,
    agent: &mut Agent,
    begun: Option<u64>,
    session: u64,
    request: Request,
) -> Option<Reply>
    requires { IsFor shared.now pass.old }
    ensures of { IsFor shared.now pass.new }
    ensures held { HeldAfterWait shared.now pass.old pass.new
        (TakesUp begun agent.old agent.new session (request_of request)
        (option_map reply_of result)) }
    ensures silent { IfNone result (agent.new ≡ agent.old) }
    ensures lawful { IfSome result (λ reply. IsLawfulReply (reply_of reply)) }
    ensures later { IsLater shared.now pass.old pass.new }
{
    let own = shared.own();
    let mut guard = pass.enter(rt, own);
    let reply = answer_once(alloc, &mut guard, agent, begun, session, request);
    own.leave(guard);
    reply
}

/// A session's request, by the agent; none where another connection began that session.
fn answer_once<D: Disk>(
    alloc: Global,
    replica: &mut Replica<D>,
    agent: &mut Agent,
    begun: Option<u64>,
    session: u64,
    request: Request,
) -> Option<Reply>
    ensures held { TakesUp begun agent.old agent.new session (request_of request)
        (option_map reply_of result) replica.old replica.new }
    ensures silent { IfNone result (agent.new ≡ agent.old) }
    ensures lawful { IfSome result (λ reply. IsLawfulReply (reply_of reply)) }
    ensures grown { IsGrown replica.old replica.new }
{
    if is_begun_elsewhere(replica, begun, session, &request) {
        return None;
    }
    Some(agent.answer(alloc, replica, session, request))
}

/// Whether the request begins a session that the replica has begun last, which is not the one that
/// was begun over this connection last.
fn is_begun_elsewhere<D: Disk>(
    replica: &Replica<D>,
    begun: Option<u64>,
    session: u64,
    request: &Request,
) -> bool
    ensures { (result ≡ true)
        ↔ IsBegunElsewhere begun session (request_of request.now) replica.now }
{
    let Request::Begin { pair } = request else {
        return false;
    };
    begun != Some(session)
        && session == replica.last_session()
        && *pair == replica.pair()
        && !replica.is_halted()
}

/// A user's request.
fn answer_user<H: Wait, D: Disk>(
    rt: &H,
    alloc: Global,
    shared: &SharedReplica<D>,
    pass: &mut Pass<Replica<D>>,
    request: UserRequest,
) -> UserReply
    requires { IsFor shared.now pass.old }
    ensures of { IsFor shared.now pass.new }
    ensures held { Grants shared.now pass.old pass.new (user_request_of request)
        (user_reply_of result) }
    ensures lawful { IsLawfulUserReply (user_reply_of result) }
    ensures later { IsLater shared.now pass.old pass.new }
{
    match request {
        UserRequest::Edit { user, edit } => answer_edit(rt, alloc, shared, pass, user, edit),
        UserRequest::Get { path } => answer_get(rt, alloc, shared, pass, &path),
        UserRequest::Status { place } => answer_status(rt, alloc, shared, pass, place),
    }
}

/// A user's edit.
fn answer_edit<H: Wait, D: Disk>(
    rt: &H,
    alloc: Global,
    shared: &SharedReplica<D>,
    pass: &mut Pass<Replica<D>>,
    user: u32,
    edit: Edit,
) -> UserReply
    requires { IsFor shared.now pass.old }
    ensures of { IsFor shared.now pass.new }
    ensures held { Grants shared.now pass.old pass.new (Edits user (edit_of edit))
        (user_reply_of result) }
    ensures lawful { IsLawfulUserReply (user_reply_of result) }
    ensures later { IsLater shared.now pass.old pass.new }
{
    match shared.edit(rt, alloc, pass, user, edit) {
        Ok(position) => UserReply::Edited { position },
        Err(error) => UserReply::Refused(error.refusal()),
    }
}

/// What stands at a path.
fn answer_get<H: Wait, D: Disk>(
    rt: &H,
    alloc: Global,
    shared: &SharedReplica<D>,
    pass: &mut Pass<Replica<D>>,
    path: &Path,
) -> UserReply
    requires { IsFor shared.now pass.old }
    ensures of { IsFor shared.now pass.new }
    ensures held { Grants shared.now pass.old pass.new (Gets path.now)
        (user_reply_of result) }
    ensures lawful { IsLawfulUserReply (user_reply_of result) }
    ensures later { IsLater shared.now pass.old pass.new }
{
    match shared.get(rt, alloc, pass, path) {
        Ok(content) => {
            has_bytes(&content);
            UserReply::Got {
                found: Some(content),
            }
        }
        Err(ReplicaError::Tree(TreeError::Absent)) => UserReply::Got { found: None },
        Err(error) => UserReply::Refused(error.refusal()),
    }
}

/// A file has a mode and bytes, which their types say.
fn has_bytes(content: &Content)
    ensures { IsLawful (content_of content.now) }
{
    if let Content::File(mode, bytes) = content {
        let _ = mode.bits();
        are_bytes(bytes);
    }
}

/// Where the replica is in its history, with the identity that it is shared under.
fn answer_status<H: Wait, D: Disk>(
    rt: &H,
    alloc: Global,
    shared: &SharedReplica<D>,
    pass: &mut Pass<Replica<D>>,
    place: u64,
) -> UserReply
    requires { IsFor shared.now pass.old }
    ensures of { IsFor shared.now pass.new }
    ensures held { Grants shared.now pass.old pass.new (AsksStatus place) (user_reply_of result) }
    ensures lawful { IsLawfulUserReply (user_reply_of result) }
    ensures later { IsLater shared.now pass.old pass.new }
{
    match shared.status(rt, alloc, pass, place) {
        Ok(status) => {
            let identity = shared.identity();
            has_identity_bytes(identity);
            status_laws(&status);
            UserReply::Status { identity, status }
        }
        Err(error) => UserReply::Refused(error.refusal()),
    }
}

/// An identity is 16 bytes, which its type says.
fn has_identity_bytes(identity: Option<Identity>)
    ensures { IfSome (option_map identity_of identity) IsIdentity }
{
    if let Some(identity) = identity {
        is_identity(identity);
    }
}
