//! Frames on a byte stream: what two machines say to each other comes in bodies, each after its
//! length.
//!
//! A frame is a length of four bytes, the highest first, and a body of 1 to 65,536 bytes. A stream
//! may be cut anywhere on its way: a `Framer` is fed whatever came, and hands out the whole bodies.
//!
//! # What it promises
//!
//! Contracts see a `Framer` as the bytes that came and were not handed out yet.
//!
//! - `feed` adds the bytes (`fed`), and after a refusal 11 it is as it was (`unchanged`).
//! - `next` hands out the first body where a whole frame stands in front, and the rest stays. It
//!   gives none where no frame is whole yet, and no length is wrong (`front`). It is refused 21 and
//!   22 exactly where the stream goes on with a length of 0 or above 65,536, again each time.
//!   `is_ready` tells that it would not give none.
//! - `frame` gives the one frame of a body (`framed`). `write_frame` writes that frame (`written`),
//!   and where a write fails a beginning of it (`beginning`). `read_some` feeds what one read
//!   gives, and loses none of it (`fed`).
//! - `read_body` reads on until a whole frame came: what was held and what came begin with the
//!   body's frame, and the framer holds the rest (`body`). It answers none only at the reader's
//!   end, before which no whole frame came (`end`), and a refusal 21 or 22 is that of the bytes
//!   that came (`fault`).
//! - A `Connection` is a reader and a writer, with what came from the reader: `receive` hands out
//!   the next body as `read_body` does, and `send` writes one as `write_frame` does.
//! - `stream_laws`: the same bytes are the same bodies, with the same rest, wherever they are cut.
#![tactic(auto)]

ghost use Rattle.syn_link.specs.Frames.{CutsDoNotMatter};

mod connection;
mod error;
mod framer;
mod frames;
mod stream;

pub use connection::Connection;
pub use error::LinkError;
pub use framer::Framer;
pub use frames::{LONGEST_BODY, frame};
pub use stream::{read_body, read_some, write_frame};

/// The same bytes are the same bodies and the same rest, wherever the stream was cut.
pub fn stream_laws()
    ensures { CutsDoNotMatter }
{
    syn_wire::spelling_laws();
}
