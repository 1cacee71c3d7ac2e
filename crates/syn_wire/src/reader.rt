//! Reads one value after another.
ghost use Rattle.std.specs.Prelude.{◌≡◌, ◌≢◌, ◌<◌, ◌^◌, [], ◌∷◌, ◌++◌, length, true, false};
ghost use Rattle.std.specs.Prelude.{Ok, Err, IfOk, IfErr, OnOk, IfNone, IfSome, MatchOption};
ghost use Rattle.std.specs.Prelude.{MatchResult, option_map};
ghost use Rattle.std.specs.Int.{to_be_bytes, w16, w32, w64};
ghost use Rattle.syn_model.specs.Event.{AreBytes};
ghost use Rattle.syn_wire.specs.Reads.{IsReading, Reads};
ghost use Rattle.syn_wire.specs.declared.error.ReadError.TheVariants.{Malformed, Memory};

use crate::error::{ReadError, WireError};
use std::marker::Model;

/// The bytes that are still to be read. A clause sees them as a list.
///
/// Each method reads a value from their front and leaves what follows it. A method is `Malformed`
/// where no front of them is the spelling of such a value. What is left after an error is not said.
#[derive(Debug, Drop)]
pub struct Reader<'a> {
    rest: &'a [u8],
}

impl<'a> Model for Reader<'a> {
    ghost use Rattle.std.specs.Prelude.{ℕ, List};

    ghost Value = { List ℕ };

    ghost view = { λ reader. reader.rest.now };
}

impl<'a> Reader<'a> {
    /// Before the first of the bytes.
    pub fn new(bytes: &'a [u8]) -> Reader<'a>
        ensures { result ≡ bytes.now }
    {
        Reader { rest: bytes }
    }

    /// What is left.
    pub fn rest(&self) -> &'a [u8]
        ensures { result.now ≡ self.now }
    {
        self.rest
    }

    /// Nothing is left.
    pub fn end(&self) -> Result<(), ReadError>
        ensures ended { OnOk result (self.now ≡ []) }
        ensures more { IfErr result (λ _. self.now ≢ []) }
        ensures why { IfErr result (λ e. e ≡ Malformed) }
    {
        if self.rest.is_empty() {
            Ok(())
        } else {
            Err(ReadError::Malformed)
        }
    }

    /// A byte.
    pub fn byte(&mut self) -> Result<u8, ReadError>
        ensures read { IfOk result (λ byte. self.old ≡ byte ∷ self.new) }
        ensures end { IfErr result (λ _. self.old ≡ []) }
        ensures why { IfErr result (λ e. e ≡ Malformed) }
    {
        let [first, rest @ ..] = self.rest else {
            return Err(ReadError::Malformed);
        };
        self.rest = rest;
        Ok(*first)
    }

    /// Goes past the byte where it is the next one.
    pub fn passes(&mut self, byte: u8) -> bool
        ensures passed { result ≡ true → self.old ≡ byte ∷ self.new }
        ensures kept { result ≡ false → self.new ≡ self.old }
        ensures other { result ≡ false → (rest : _) → self.old ≢ byte ∷ rest }
    {
        match self.rest {
            [first, rest @ ..] if *first == byte => {
                self.rest = rest;
                true
            }
            _ => false,
        }
    }

    /// Goes past these bytes, which have to come next.
    pub fn expect(&mut self, front: &[u8]) -> Result<(), ReadError>
        ensures passed { OnOk result (self.old ≡ front.now ++ self.new) }
        ensures other { IfErr result (λ _. (rest : _) → self.old ≢ front.now ++ rest) }
        ensures why { IfErr result (λ e. e ≡ Malformed) }
    {
        let next = self.bytes(front.len())?;
        if next != front {
            return Err(ReadError::Malformed);
        }
        Ok(())
    }

    /// So many bytes.
    pub fn bytes(&mut self, count: usize) -> Result<&'a [u8], ReadError>
        ensures read { IfOk result (λ front. self.old ≡ front.now ++ self.new) }
        ensures length { IfOk result (λ front. length front.now ≡ count) }
        ensures bytes { IfOk result (λ front. AreBytes front.now) }
        ensures short { IfErr result (λ _. length self.old < count) }
        ensures why { IfErr result (λ e. e ≡ Malformed) }
    {
        let Some((front, rest)) = split(self.rest, count) else {
            return Err(ReadError::Malformed);
        };
        self.rest = rest;
        Ok(front)
    }

    /// The bytes of an array.
    pub fn array<const N: usize>(&mut self) -> Result<[u8; N], ReadError>
        ensures read { IfOk result (λ front. self.old ≡ front ++ self.new) }
        ensures short { IfErr result (λ _. length self.old < N) }
        ensures why { IfErr result (λ e. e ≡ Malformed) }
    {
        let (front, rest) = self
            .rest
            .split_first_chunk::<N>()
            .ok_or(ReadError::Malformed)?;
        self.rest = rest;
        Ok(*front)
    }

    /// A number of two bytes.
    pub fn u16(&mut self) -> Result<u16, ReadError>
        ensures read { Reads (λ n. n < 2 ^ 16) (to_be_bytes w16) (λ n. n) self.old self.new result }
        ensures why { IfErr result (λ e. e ≡ Malformed) }
    {
        Ok(u16::from_be_bytes(self.array()?))
    }

    /// A number of four bytes.
    pub fn u32(&mut self) -> Result<u32, ReadError>
        ensures read { Reads (λ n. n < 2 ^ 32) (to_be_bytes w32) (λ n. n) self.old self.new result }
        ensures why { IfErr result (λ e. e ≡ Malformed) }
    {
        Ok(u32::from_be_bytes(self.array()?))
    }

    /// A number of eight bytes.
    pub fn u64(&mut self) -> Result<u64, ReadError>
        ensures read { Reads (λ n. n < 2 ^ 64) (to_be_bytes w64) (λ n. n) self.old self.new result }
        ensures why { IfErr result (λ e. e ≡ Malformed) }
    {
        let bytes = self.array()?;
        Ok(u64::from_be_bytes(bytes))
    }

    /// What was read and the bytes that are left; none where nothing stands there. Refused 11 where
    /// memory was refused.
    pub fn front<T>(&self, read: Result<T, ReadError>) -> Result<Option<(T, &'a [u8])>, WireError>
        ensures { MatchResult result
            (λ found. MatchOption found (read ≡ Err Malformed)
            (λ front. (read ≡ Ok front.0) × (front.1.now ≡ self.now)))
            (λ _. read ≡ Err Memory) }
    {
        match or_none(read)? {
            Some(value) => Ok(Some((value, self.rest))),
            None => Ok(None),
        }
    }
}

/// The number of four bytes that the bytes begin with, and the rest; none where there are fewer.
pub fn read_u32(bytes: &[u8]) -> Option<(u32, &[u8])>
    ensures { IsReading (λ n. n < 2 ^ 32) (to_be_bytes w32) bytes.now
        (option_map (λ found. (found.0, found.1.now)) result) }
{
    let mut reader = Reader::new(bytes);
    let Ok(number) = reader.array() else {
        return None;
    };
    Some((u32::from_be_bytes(number), reader.rest()))
}

// So many bytes, and what follows them.
fn split(bytes: &[u8], count: usize) -> Option<(&[u8], &[u8])>
    ensures parts { IfSome result (λ parts. bytes.now ≡ parts.0.now ++ parts.1.now) }
    ensures length { IfSome result (λ parts. length parts.0.now ≡ count) }
    ensures bytes { IfSome result (λ parts. AreBytes parts.0.now) }
    ensures short { IfNone result (length bytes.now < count) }
{
    if bytes.len() < count {
        return None;
    }
    Some(bytes.split_at(count))
}

/// What was read; none where nothing stands there. Refused 11 where memory was refused.
pub fn or_none<T>(read: Result<T, ReadError>) -> Result<Option<T>, WireError>
    ensures { MatchResult result
        (λ found. MatchOption found (read ≡ Err Malformed) (λ value. read ≡ Ok value))
        (λ _. read ≡ Err Memory) }
{
    match read {
        Ok(value) => Ok(Some(value)),
        Err(ReadError::Malformed) => Ok(None),
        Err(ReadError::Memory) => Err(WireError::Memory),
    }
}
