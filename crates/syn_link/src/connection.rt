//! A connection: frames that are read from it, and frames that are written to it.
ghost use Rattle.std.specs.Prelude.{◌≡◌, ◌≢◌, ◌⊎◌, ◌↔◌, ◌<◌, [], Err, IfErr, IfNone, IfOk, IfSome};
ghost use Rattle.std.specs.Prelude.{None, OnErr, OnOk, Some, false, length};
ghost use Rattle.std.specs.Io.KnownBytes.{Appends, Keeps};
ghost use Rattle.syn_link.specs.Connections.{IsUnread, held_by, reader_of, writer_of};
ghost use Rattle.syn_link.specs.Frames.{AppendsSome, IsFront, frame_of};
ghost use Rattle.syn_link.specs.Streams.{Comes, ComesAtFault, EndsBefore};
ghost use Rattle.syn_link.specs.declared.frames.TheConstants.{LONGEST_BODY};

use crate::error::LinkError;
use crate::framer::Framer;
use crate::stream::{read_body, write_frame};
use std::alloc::Global;
use std::io::{Read, Write};

/// A reader and a writer of frames, and what came from the reader and was not handed out yet.
#[derive(Drop)]
pub struct Connection<R, W> {
    reader: R,
    writer: W,
    framer: Framer,
}

impl<R: Read, W: Write> Connection<R, W> {
    /// A connection on which nothing came yet. It takes no memory.
    pub fn new(alloc: Global, reader: R, writer: W) -> Connection<R, W>
        ensures reader { reader_of result ≡ reader }
        ensures writer { writer_of result ≡ writer }
        ensures held { held_by result ≡ [] }
    {
        Connection {
            reader,
            writer,
            framer: Framer::new(alloc),
        }
    }

    /// The reader and the writer. What came and was not handed out is lost.
    pub fn into_parts(self) -> (R, W)
        ensures { result ≡ (reader_of self, writer_of self) }
    {
        (self.reader, self.writer)
    }

    /// Whether the next call of `receive` needs no more bytes: a whole frame came, or a length that
    /// no frame has.
    pub fn holds_frame(&self) -> bool
        ensures { (result ≡ false) ↔ IsFront (held_by self.now) None (held_by self.now) }
    {
        self.framer.is_ready()
    }

    /// Writes the body as a frame, and flushes. It is refused as `write_frame` is.
    pub fn send(&mut self, body: &[u8]) -> Result<(), LinkError>
        ensures written { OnOk result (Appends (W.contents (writer_of self.old))
            (W.contents (writer_of self.new)) (frame_of body.now)) }
        ensures beginning { OnErr result (AppendsSome (W.contents (writer_of self.old))
            (W.contents (writer_of self.new)) (frame_of body.now)) }
        ensures nothing { IfErr result (λ e. (e ≡ LinkError.Device)
            ⊎ Keeps (W.contents (writer_of self.old)) (W.contents (writer_of self.new))) }
        ensures bad_frame { (result ≡ Err LinkError.BadFrame) ↔ (length body.now ≡ 0) }
        ensures too_large { (result ≡ Err LinkError.TooLarge) ↔ (LONGEST_BODY < length body.now) }
        ensures memory { IfErr result (λ e. e ≢ LinkError.Memory) }
        ensures unread { IsUnread self.old self.new }
    {
        write_frame(&mut self.writer, body)
    }

    /// Reads until a whole frame came, and hands out its body; none where the reader ended before.
    /// It is refused as `read_body` is.
    pub fn receive(&mut self, alloc: Global) -> Result<Option<Vec<u8>>, LinkError>
        ensures body { IfOk result (λ found. IfSome found (λ body.
            Comes (R.remaining (reader_of self.old)) (R.remaining (reader_of self.new))
            (held_by self.old) (held_by self.new) (Some body.items))) }
        ensures end { IfOk result (λ found. IfNone found
            (EndsBefore (R.remaining (reader_of self.old)) (R.remaining (reader_of self.new))
            (held_by self.old) (held_by self.new))) }
        ensures fault { IfErr result
            (ComesAtFault (R.remaining (reader_of self.old)) (R.remaining (reader_of self.new))
            (held_by self.old) (held_by self.new)) }
        ensures unwritten { writer_of self.new ≡ writer_of self.old }
    {
        read_body(alloc, &mut self.reader, &mut self.framer)
    }
}
