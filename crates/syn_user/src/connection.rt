//! A user's connection, and the requests over it.
ghost use Rattle.std.specs.Prelude.{◌≡◌, [], Err, IfErr, IfOk, false, option_map, true};
ghost use Rattle.syn_history.specs.Status.{identity_of, status_of};
ghost use Rattle.syn_message.specs.UserReplies.{Edited, Got, States, user_reply_of};
ghost use Rattle.syn_message.specs.Users.{AsksStatus, Edits, Gets, IsLawfulUserRequestMessage};
ghost use Rattle.syn_message.specs.Users.{UserRequest as Asked};
ghost use Rattle.syn_message.specs.Users.{user_request_of, user_request_message_of};
ghost use Rattle.syn_tree.specs.Contents.{content_of};
ghost use Rattle.syn_tree.specs.Edits.{edit_of};
ghost use Rattle.syn_user.specs.Exchanges.{Fails, IsHeard, IsTold, IsUnheard, goes_on_after};
ghost use Rattle.syn_user.specs.Exchanges.{number_after};
ghost use Rattle.syn_user.specs.States.{held_by, is_open, state_of, next_of, reader_of, writer_of};
ghost use Rattle.syn_user.specs.inner.Parts.{Breaks, IsAnswered, IsSilent};

use crate::error::UserError;
use crate::lawful::body_of;
use crate::reply::reply_to;
use std::alloc::Global;
use std::io::{Read, Write};
use syn_history::{Identity, ReplicaStatus};
use syn_link::Connection;
use syn_message::{UserReply, UserRequest, UserRequestMessage, decode_user_reply, message_laws};
use syn_path::Path;
use syn_tree::{Content, Edit};

/// A user's connection to a served replica. Requests are numbered from 0.
#[derive(Drop)]
pub struct UserConnection<R, W> {
    connection: Connection<R, W>,
    open: bool,
    next: u32,
}

impl<R: Read, W: Write> UserConnection<R, W> {
    /// A connection on which nothing was asked yet. It takes no memory.
    pub fn new(alloc: Global, reader: R, writer: W) -> UserConnection<R, W>
        ensures reader { reader_of result ≡ reader }
        ensures writer { writer_of result ≡ writer }
        ensures held { held_by result ≡ [] }
        ensures open { is_open result ≡ true }
        ensures next { next_of result ≡ 0 }
    {
        UserConnection {
            connection: Connection::new(alloc, reader, writer),
            open: true,
            next: 0,
        }
    }

    /// The reader and the writer. What came and was not handed out is lost.
    pub fn into_parts(self) -> (R, W)
        ensures { result ≡ (reader_of self, writer_of self) }
    {
        self.connection.into_parts()
    }

    /// Whether the connection goes on. It is closed by each refusal but the replica's own.
    pub fn is_open(&self) -> bool
        ensures { result ≡ is_open self.now }
    {
        self.open
    }

    /// Asks that the user makes the edit, and answers the new position of the replica.
    ///
    /// Refused as the replica refuses the edit; also 7 where a frame does not take what is put. It
    /// was not sent then. Refused 9 where the connection is closed, comes to its end, or a read or
    /// the write fails; 11 where memory is refused; 21 and 22 where a frame with such a length
    /// comes; and 23 where what comes is no reply to the request. Then the connection is closed,
    /// and the edit may have been made.
    pub fn edit(&mut self, alloc: Global, user: u32, edit: Edit) -> Result<u64, UserError>
        ensures ok { IfOk result (λ position.
            IsTold (state_of R.remaining W.contents self.old)
            (state_of R.remaining W.contents self.new) (Edits user (edit_of edit))
            (Edited position)) }
        ensures err { IfErr result (λ error.
            Fails (state_of R.remaining W.contents self.old)
            (state_of R.remaining W.contents self.new) (Edits user (edit_of edit)) error) }
        ensures goes { is_open self.new ≡ goes_on_after result }
        ensures closed { is_open self.old ≡ false → result ≡ Err UserError.Device }
    {
        match self.ask(alloc, UserRequest::Edit { user, edit })? {
            UserReply::Edited { position } => Ok(position),
            UserReply::Refused(why) => Err(UserError::Refused(why)),
            UserReply::Got { .. } => unreachable!(),
            UserReply::Status { .. } => unreachable!(),
        }
    }

    /// Asks what stands at the path, and answers it; none where nothing does.
    ///
    /// Refused as `edit` is, but for the length.
    pub fn get(&mut self, alloc: Global, path: &Path) -> Result<Option<Content>, UserError>
        ensures ok { IfOk result (λ found.
            IsTold (state_of R.remaining W.contents self.old)
            (state_of R.remaining W.contents self.new) (Gets path.now)
            (Got (option_map content_of found))) }
        ensures err { IfErr result (λ error.
            Fails (state_of R.remaining W.contents self.old)
            (state_of R.remaining W.contents self.new) (Gets path.now) error) }
        ensures goes { is_open self.new ≡ goes_on_after result }
        ensures closed { is_open self.old ≡ false → result ≡ Err UserError.Device }
    {
        let Ok(path) = path.copy(alloc) else {
            return Err(self.give_up());
        };
        match self.ask(alloc, UserRequest::Get { path })? {
            UserReply::Got { found } => Ok(found),
            UserReply::Refused(cause) => Err(UserError::Refused(cause)),
            UserReply::Edited { .. } => unreachable!(),
            UserReply::Status { .. } => unreachable!(),
        }
    }

    /// Asks where the replica is in its history, and which path the event at the place touched.
    /// Answers what its disk is known by, if it is by anything, and where it is.
    ///
    /// Refused as `edit` is, but for the length.
    pub fn status(
        &mut self,
        alloc: Global,
        place: u64,
    ) -> Result<(Option<Identity>, ReplicaStatus), UserError>
        ensures ok { IfOk result (λ stated.
            IsTold (state_of R.remaining W.contents self.old)
            (state_of R.remaining W.contents self.new) (AsksStatus place)
            (States (option_map identity_of stated.0) (status_of stated.1))) }
        ensures err { IfErr result (λ error.
            Fails (state_of R.remaining W.contents self.old)
            (state_of R.remaining W.contents self.new) (AsksStatus place) error) }
        ensures goes { is_open self.new ≡ goes_on_after result }
        ensures closed { is_open self.old ≡ false → result ≡ Err UserError.Device }
    {
        match self.ask(alloc, UserRequest::Status { place })? {
            UserReply::Status { identity, status } => Ok((identity, status)),
            UserReply::Refused(refusal) => Err(UserError::Refused(refusal)),
            UserReply::Edited { .. } => unreachable!(),
            UserReply::Got { .. } => unreachable!(),
        }
    }

    /// Closes the connection for lack of memory; of a closed one the refusal is 9.
    fn give_up(&mut self) -> UserError
        ensures { (request : Asked) → Fails (state_of R.remaining W.contents self.old)
            (state_of R.remaining W.contents self.new) request result }
    {
        if !self.open {
            return UserError::Device;
        }
        self.open = false;
        UserError::Memory
    }

    /// Asks, and answers what the replica replies. Refused as `edit`, but not by the replica.
    fn ask(&mut self, alloc: Global, request: UserRequest) -> Result<UserReply, UserError>
        ensures told { IfOk result (λ reply.
            IsTold (state_of R.remaining W.contents self.old)
            (state_of R.remaining W.contents self.new) (user_request_of request)
            (user_reply_of reply)) }
        ensures fails { IfErr result (λ error.
            Fails (state_of R.remaining W.contents self.old)
            (state_of R.remaining W.contents self.new) (user_request_of request) error) }
    {
        if !self.open {
            return Err(UserError::Device);
        }
        let asked = UserRequestMessage {
            number: self.next,
            request,
        };
        match self.exchange(alloc, &asked) {
            Ok(reply) => Ok(reply),
            Err(error) => {
                self.open = error.is_refusal();
                Err(error)
            }
        }
    }

    /// Sends the request, and answers the reply to it. Where that is refused, the connection is not
    /// closed yet.
    fn exchange(
        &mut self,
        alloc: Global,
        asked: &UserRequestMessage,
    ) -> Result<UserReply, UserError>
        requires { asked.now.number ≡ next_of self.old }
        ensures told { IfOk result (λ reply.
            IsAnswered (state_of R.remaining W.contents self.old)
            (state_of R.remaining W.contents self.new) (user_request_message_of asked.now)
            (user_reply_of reply)) }
        ensures breaks { IfErr result (λ error.
            Breaks (state_of R.remaining W.contents self.old)
            (state_of R.remaining W.contents self.new) (user_request_message_of asked.now) error) }
        ensures open { is_open self.new ≡ is_open self.old }
    {
        let body = body_of(alloc, asked)?;
        match self.connection.send(&body) {
            Ok(()) => {}
            Err(_) => return Err(UserError::Device),
        }
        self.next = number_after(self.next);
        self.hear(alloc, asked)
    }

    /// The reply to the request, in the next frame.
    fn hear(&mut self, alloc: Global, asked: &UserRequestMessage) -> Result<UserReply, UserError>
        requires { IsLawfulUserRequestMessage (user_request_message_of asked.now) }
        ensures heard { IfOk result (λ reply.
            IsHeard (state_of R.remaining W.contents self.old)
            (state_of R.remaining W.contents self.new) (user_request_message_of asked.now)
            (user_reply_of reply)) }
        ensures unheard { IfErr result (λ error.
            IsUnheard (state_of R.remaining W.contents self.old)
            (state_of R.remaining W.contents self.new) (user_request_message_of asked.now) error) }
        ensures silent { IsSilent (state_of R.remaining W.contents self.old)
            (state_of R.remaining W.contents self.new) }
    {
        message_laws();
        let Some(body) = self.connection.receive(alloc)? else {
            return Err(UserError::Device);
        };
        let Some(answered) = decode_user_reply(alloc, &body)? else {
            return Err(UserError::BadMessage);
        };
        reply_to(asked, answered).ok_or(UserError::BadMessage)
    }
}

/// The number of the request after that of this number.
pub(crate) fn number_after(number: u32) -> u32
    ensures { result ≡ number_after number }
{
    number.wrapping_add(1)
}
