//! A connection, and the exchanges over it.
ghost use Rattle.std.specs.Prelude.{◌≡◌, [], IfErr, IfNone, IfOk, IfSome, None, OnOk};
ghost use Rattle.syn_agent.specs.Agents.{staging_of};
ghost use Rattle.syn_serve.specs.Begins.{begun_after};
ghost use Rattle.syn_serve.specs.Exchanges.{Exchanges, moment};
ghost use Rattle.syn_serve.specs.States.{BreaksOff, ClosesFor, Ends, IsSilent, Sends, agent_of};
ghost use Rattle.syn_serve.specs.States.{begun_over};
ghost use Rattle.syn_serve.specs.States.{held_by, state_of, reader_of, writer_of};
ghost use Rattle.syn_serve.specs.Messages.{IsLawfulResponse, message_of, response_of};
ghost use Rattle.syn_serve.specs.Messages.{response_spelling};
ghost use Rattle.syn_serve.specs.Runs.{Serves};
ghost use Rattle.syn_serve.specs.inner.Parts.{IsOnlyWritten, ReceivesMessage};
ghost use Rattle.syn_shared.specs.Shared.{IsFor, IsLater};

use crate::answering::answer;
use crate::error::ServeError;
use crate::message::{AnyReply, AnyRequest, decode_any_request, encode_any_reply};
use crate::pause::{Pause, Point};
use std::alloc::Global;
use std::io::{Read, Write};
use std::sync::Wait;
use syn_agent::Agent;
use syn_disk::Disk;
use syn_link::Connection;
use syn_lock::Pass;
use syn_message::{Reply, ReplyMessage};
use syn_replica::Replica;
use syn_shared::SharedReplica;

/// A connection to the worker, what a session over it has staged, and which one was begun over it.
#[derive(Drop)]
pub struct ServerConnection<R, W> {
    connection: Connection<R, W>,
    agent: Agent,
    /// The session that was answered as begun last.
    begun: Option<u64>,
}

/// How an exchange ended.
#[derive(Clone, Copy, Debug, PartialEq, Eq)]
pub enum Exchanged {
    /// A request was answered, and the reply was written.
    Answered,
    /// The other side closed the connection.
    Ended,
}

impl<R: Read, W: Write> ServerConnection<R, W> {
    /// A connection on which nothing came yet. It takes no memory.
    pub fn new(alloc: Global, reader: R, writer: W) -> ServerConnection<R, W>
        ensures reader { reader_of result ≡ reader }
        ensures writer { writer_of result ≡ writer }
        ensures held { held_by result ≡ [] }
        ensures staged { staging_of (agent_of result) ≡ None }
        ensures begun { begun_over result ≡ None }
    {
        ServerConnection {
            connection: Connection::new(alloc, reader, writer),
            agent: Agent::new(),
            begun: None,
        }
    }

    /// The reader and the writer. What came and was not answered is lost with what is staged.
    pub fn into_parts(self) -> (R, W)
        ensures { result ≡ (reader_of self, writer_of self) }
    {
        self.connection.into_parts()
    }

    /// Reads one request, answers it from the shared replica within one hold of its lock, and
    /// writes the reply. The pause is told before the hold and after it.
    ///
    /// Refused 21 and 22 where a frame with such a length comes, and 23 where a body comes that is
    /// no message: it is answered nothing. Refused 14 where a session's begin comes that would add
    /// no event, since the replica has begun that session last, and this connection has not: then
    /// another coordinator has taken the number too. It is answered nothing, and the replica stays.
    /// Refused 9 where a read or the write fails, and 11 where memory is refused. After any refusal
    /// the connection is to be closed.
    pub fn serve_next<H: Wait, D: Disk, G: Pause>(
        &mut self,
        rt: &H,
        alloc: Global,
        shared: &SharedReplica<D>,
        pass: &mut Pass<Replica<D>>,
        pause: &mut G,
    ) -> Result<Exchanged, ServeError>
        requires { IsFor shared.now pass.old }
        ensures of { IsFor shared.now pass.new }
        ensures exchanges { Exchanges shared.now
            (moment (state_of R.remaining W.contents self.old) pass.old)
            (moment (state_of R.remaining W.contents self.new) pass.new) result }
        ensures later { IsLater shared.now pass.old pass.new }
    {
        let Some(request) = self.receive(alloc)? else {
            return Ok(Exchanged::Ended);
        };
        let kind = request.kind();
        pause.at(Point::Before(kind));
        let begun = self.begun;
        let answered = answer(rt, alloc, shared, pass, &mut self.agent, begun, request);
        pause.at(Point::After(kind));
        let Some(reply) = answered else {
            return Err(ServeError::BegunElsewhere);
        };
        self.begun = begun_by(begun, &reply);
        self.send(alloc, &reply)?;
        Ok(Exchanged::Answered)
    }

    /// Serves the connection until the other side closes it, one request after another.
    ///
    /// Refused as `serve_next` is, by the first exchange that is refused: nothing is read after
    /// it, and the connection is to be closed.
    pub fn serve<H: Wait, D: Disk, G: Pause>(
        &mut self,
        rt: &H,
        alloc: Global,
        shared: &SharedReplica<D>,
        pass: &mut Pass<Replica<D>>,
        pause: &mut G,
    ) -> Result<(), ServeError>
        requires { IsFor shared.now pass.old }
        ensures of { IsFor shared.now pass.new }
        ensures serves { Serves shared.now
            (moment (state_of R.remaining W.contents self.old) pass.old)
            (moment (state_of R.remaining W.contents self.new) pass.new) result }
        ensures later { IsLater shared.now pass.old pass.new }
    {
        for _ in rt.forever() {
            if let Exchanged::Ended = self.serve_next(rt, alloc, shared, pass, pause)? {
                return Ok(());
            }
        }
        unreachable!()
    }

    /// The next request; none where the other side closed the connection.
    fn receive(&mut self, alloc: Global) -> Result<Option<AnyRequest>, ServeError>
        ensures request { IfOk result (λ found. IfSome found (λ request.
            ReceivesMessage (state_of R.remaining W.contents self.old)
            (state_of R.remaining W.contents self.new) (message_of request))) }
        ensures end { IfOk result (λ found. IfNone found
            (Ends (state_of R.remaining W.contents self.old)
            (state_of R.remaining W.contents self.new))) }
        ensures closes { IfErr result (λ error. ClosesFor error
            (state_of R.remaining W.contents self.old)
            (state_of R.remaining W.contents self.new)) }
        ensures silent { IsSilent (state_of R.remaining W.contents self.old)
            (state_of R.remaining W.contents self.new) }
    {
        let Some(body) = self.connection.receive(alloc)? else {
            return Ok(None);
        };
        match decode_any_request(alloc, &body)? {
            Some(request) => Ok(Some(request)),
            None => Err(ServeError::BadMessage),
        }
    }

    /// Writes the reply as a frame.
    fn send(&mut self, alloc: Global, reply: &AnyReply) -> Result<(), ServeError>
        requires { IsLawfulResponse (response_of reply.now) }
        ensures sent { OnOk result (Sends (W.contents (writer_of self.old))
            (W.contents (writer_of self.new)) (response_spelling (response_of reply.now))) }
        ensures broken { IfErr result (λ error. BreaksOff error (W.contents (writer_of self.old))
            (W.contents (writer_of self.new)) (response_spelling (response_of reply.now))) }
        ensures rest { IsOnlyWritten (state_of R.remaining W.contents self.old)
            (state_of R.remaining W.contents self.new) }
    {
        let body = encode_any_reply(alloc, reply)?;
        Ok(self.connection.send(&body)?)
    }
}

/// The session that was begun over a connection last, after this reply.
fn begun_by(begun: Option<u64>, reply: &AnyReply) -> Option<u64>
    ensures { result ≡ begun_after begun (response_of reply.now) }
{
    match reply {
        AnyReply::Session(
            ReplyMessage {
                session,
                reply: Reply::Begun { .. },
                ..
            },
        ) => Some(*session),
        _ => begun,
    }
}
