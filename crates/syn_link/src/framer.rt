//! Bodies out of a stream that may be cut anywhere.
ghost use Rattle.std.specs.Prelude.{◌≡◌, ◌≢◌, ◌↔◌, ◌≤◌, ◌++◌, [], ℕ, List, Err, drop, IfOk, IfErr};
ghost use Rattle.std.specs.Prelude.{None, OnOk, OnErr, false, option_map, vec_len};
ghost use Rattle.syn_link.specs.Frames.{IsFront, ClaimsNothing, ClaimsTooMuch};

use crate::error::LinkError;
use crate::frames::first_body;
use std::alloc::Global;
use std::marker::Model;

/// The bytes of a stream that came and were not handed out yet. Contracts see it as these bytes.
///
/// Who takes all bodies before it feeds more keeps at most one frame and one feeding in memory.
#[derive(Debug, Drop)]
pub struct Framer {
    buffer: Vec<u8>,
    /// So many bytes of the buffer were handed out.
    taken: usize,
}

impl Model for Framer {
    ghost Value = { List ℕ };

    ghost view = { λ framer. drop framer.taken framer.buffer.items };

    ghost invariant = { λ framer. framer.taken ≤ vec_len framer.buffer };
}

impl Framer {
    /// Nothing came yet. It takes no memory.
    pub fn new(alloc: Global) -> Framer
        ensures { result ≡ [] }
    {
        Framer {
            buffer: Vec::new(alloc),
            taken: 0,
        }
    }

    /// Takes bytes that came. Refused 11 where memory is refused; it is then as it was.
    pub fn feed(&mut self, bytes: &[u8]) -> Result<(), LinkError>
        ensures fed { OnOk result (self.new ≡ self.old ++ bytes.now) }
        ensures unchanged { OnErr result (self.new ≡ self.old) }
        ensures refusals { IfErr result (λ e. e ≡ LinkError.Memory) }
    {
        self.forget();
        self.buffer.extend_from_slice(bytes)?;
        Ok(())
    }

    /// Drops what was handed out.
    fn forget(&mut self)
        ensures { self.new ≡ self.old }
    {
        if self.taken == 0 {
            return;
        }
        let left = self.buffer.len() - self.taken;
        self.buffer.copy_within(self.taken.., 0);
        self.buffer.truncate(left);
        self.taken = 0;
    }

    /// Whether `next` needs no more bytes: a whole frame came, or a length that no frame has.
    pub fn is_ready(&self) -> bool
        ensures { (result ≡ false) ↔ IsFront self.now None self.now }
    {
        let (_, rest) = self.buffer.split_at(self.taken);
        !matches!(first_body(rest), Ok(None))
    }

    /// Hands out the body of the first frame; none where no whole frame came yet.
    ///
    /// Refused 21 where the stream goes on with a length of 0, and 22 where with one above
    /// `LONGEST_BODY`: such a fault stays, and is answered again each time. Refused 11 where memory
    /// is refused. It is then as it was.
    pub fn next(&mut self, alloc: Global) -> Result<Option<Vec<u8>>, LinkError>
        ensures front { IfOk result
            (λ found. IsFront self.old (option_map (λ body. body.items) found) self.new) }
        ensures unchanged { OnErr result (self.new ≡ self.old) }
        ensures bad_frame { (result ≡ Err LinkError.BadFrame) ↔ ClaimsNothing self.old }
        ensures too_large { (result ≡ Err LinkError.TooLarge) ↔ ClaimsTooMuch self.old }
        ensures device { IfErr result (λ e. e ≢ LinkError.Device) }
    {
        let (_, rest) = self.buffer.split_at(self.taken);
        let Some(body) = first_body(rest)? else {
            return Ok(None);
        };
        let body = body.to_vec(alloc)?;
        self.taken += 4 + body.len();
        Ok(Some(body))
    }
}
