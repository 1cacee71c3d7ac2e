//! A connection to a side.
ghost use Rattle.std.specs.Prelude.{◌≡◌, ◌↔◌, [], true, false, IfNone, IfSome, None};
ghost use Rattle.syn_link.specs.Frames.{IsFront, frame_of};
ghost use Rattle.syn_message.specs.Replies.{reply_message_of};
ghost use Rattle.syn_message.specs.Requests.{request_message_of, request_spelling};
ghost use Rattle.syn_sync.specs.States.{Hears, held_by, is_open, state_of, reader_of, writer_of};
ghost use Rattle.syn_sync.specs.Outlets.{Adds, Writes, outlet_of};

use std::alloc::Global;
use std::io::{Read, Write};
use syn_link::Connection;
use syn_message::{ReplyMessage, RequestMessage, decode_reply, encode_request};

/// A connection to a side, from which replies are read and to which requests are written, and
/// whether it goes on.
#[derive(Drop)]
pub struct SessionConnection<R, W> {
    connection: Connection<R, W>,
    open: bool,
}

impl<R: Read, W: Write> SessionConnection<R, W> {
    /// A connection on which nothing came yet. It takes no memory.
    pub fn new(alloc: Global, reader: R, writer: W) -> SessionConnection<R, W>
        ensures reader { reader_of result ≡ reader }
        ensures writer { writer_of result ≡ writer }
        ensures held { held_by result ≡ [] }
        ensures open { is_open result ≡ true }
    {
        SessionConnection {
            connection: Connection::new(alloc, reader, writer),
            open: true,
        }
    }

    /// The reader and the writer. What came and was not handed out is lost.
    pub fn into_parts(self) -> (R, W)
        ensures { result ≡ (reader_of self, writer_of self) }
    {
        self.connection.into_parts()
    }

    /// Whether the connection goes on. It is closed by its end, by a read or a write that fails, by
    /// a bad frame, by a body that is no reply, and for lack of memory.
    pub fn is_open(&self) -> bool
        ensures { result ≡ is_open self.now }
    {
        self.open
    }

    /// Whether the next call of `receive` needs no more bytes: a whole frame came, or a length that
    /// no frame has.
    pub(crate) fn holds_reply(&self) -> bool
        ensures { (result ≡ false) ↔ IsFront (held_by self.now) None (held_by self.now) }
    {
        self.connection.holds_frame()
    }

    /// Writes the request as a frame, and flushes. Where that fails, or memory is refused, the
    /// connection is closed. On a closed one nothing is written.
    pub fn send(&mut self, alloc: Global, message: &RequestMessage)
        ensures written { Writes (outlet_of W.contents self.old) (outlet_of W.contents self.new)
            (frame_of (request_spelling (request_message_of message.now))) (is_open self.new) }
        ensures state { state_of R.remaining self.new ≡ state_of R.remaining self.old }
    {
        if self.open {
            self.open = self.write(alloc, message);
        }
    }

    /// Writes the request as a frame, and answers whether it is written whole.
    fn write(&mut self, alloc: Global, message: &RequestMessage) -> bool
        ensures written { Adds result (W.contents (writer_of self.old))
            (W.contents (writer_of self.new))
            (frame_of (request_spelling (request_message_of message.now))) }
        ensures state { state_of R.remaining self.new ≡ state_of R.remaining self.old }
    {
        match encode_request(alloc, message) {
            Ok(body) => self.connection.send(&body).is_ok(),
            Err(_) => false,
        }
    }

    /// The next reply; none where the connection is closed, or comes to be.
    pub fn receive(&mut self, alloc: Global) -> Option<ReplyMessage>
        ensures heard { IfSome result (λ answered. Hears (state_of R.remaining self.old)
            (state_of R.remaining self.new) (reply_message_of answered)) }
        ensures closed { IfNone result (is_open self.new ≡ false) }
        ensures written { Writes (outlet_of W.contents self.old) (outlet_of W.contents self.new) []
            (is_open self.new) }
    {
        if !self.open {
            return None;
        }
        let answered = self.read(alloc);
        self.open = answered.is_some();
        answered
    }

    /// The reply in the next frame; none where no frame comes, or its body is no reply.
    fn read(&mut self, alloc: Global) -> Option<ReplyMessage>
        ensures heard { IfSome result (λ answered. Hears (state_of R.remaining self.old)
            (state_of R.remaining self.new) (reply_message_of answered)) }
        ensures written { writer_of self.new ≡ writer_of self.old }
    {
        match self.connection.receive(alloc) {
            Ok(Some(body)) => match decode_reply(alloc, &body) {
                Ok(read) => read,
                Err(_) => None,
            },
            Ok(None) => None,
            Err(_) => None,
        }
    }
}
