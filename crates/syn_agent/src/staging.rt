//! What came for one item of a session so far.
ghost use Rattle.std.specs.Prelude.{◌≡◌, ◌<◌, ◌^◌, ◌+◌, ◌&&◌, bytes_eq, drop, length, nat_le, take};
ghost use Rattle.syn_history.specs.Events.{token_of};

use syn_history::Token;
use syn_message::Reply;
use syn_refusal::Refusal;
use syn_tree::LONGEST_SPELLING;

/// The most bytes that are staged for an item.
pub const MOST_STAGED: usize = LONGEST_SPELLING;

/// The bytes that came for an item, under its token.
#[derive(Debug, Drop)]
pub struct Staging {
    token: Token,
    bytes: Vec<u8>,
}

impl Staging {
    ghost use Rattle.syn_agent.specs.Stagings.{AddsAs, staged_of};

    /// A first piece.
    pub(crate) fn new(token: Token, bytes: Vec<u8>) -> Staging
        ensures { staged_of result ≡ record { token = token_of token; bytes = bytes.items } }
    {
        Staging { token, bytes }
    }

    /// The token of the item.
    pub fn token(&self) -> Token
        ensures { token_of result ≡ (staged_of self.now).token }
    {
        self.token
    }

    /// The bytes so far.
    pub fn bytes(&self) -> &[u8]
        ensures { result.now ≡ (staged_of self.now).bytes }
    {
        self.bytes.as_slice()
    }

    /// Appends a piece that starts where the staged bytes end and passes no limit. A piece that is
    /// staged already is answered Staged, too. Any other is refused 17, and one that cannot be
    /// appended for lack of memory 11.
    pub(crate) fn add(&mut self, offset: u32, bytes: &[u8]) -> Reply
        ensures { AddsAs (staged_of self.old) (staged_of self.new) result offset bytes.now }
    {
        let offset = offset as usize;
        if offset == self.bytes.len() && offset + bytes.len() <= MOST_STAGED {
            return match self.bytes.extend_from_slice(bytes) {
                Ok(()) => Reply::Staged,
                Err(_) => Reply::Refused(Refusal::Memory),
            };
        }
        if self.holds(offset, bytes) {
            Reply::Staged
        } else {
            Reply::Refused(Refusal::BadStage)
        }
    }

    /// These bytes are there already, from the offset on.
    fn holds(&self, offset: usize, bytes: &[u8]) -> bool
        requires { offset < 2 ^ 32 }
        ensures { let had = (staged_of self.now).bytes in
            result ≡ (bytes_eq (take (length bytes.now) (drop offset had)) bytes.now
            && nat_le (offset + length bytes.now) (length had)) }
    {
        match self.bytes.get(offset..offset + bytes.len()) {
            Some(there) => there == bytes,
            None => false,
        }
    }
}
