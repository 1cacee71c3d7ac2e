//! Why a connection is closed.
ghost use Rattle.std.specs.Prelude.{◌≡◌, Some};
ghost use Rattle.syn_model.specs.Refusal.{number, name_of};
ghost use Rattle.syn_refusal.specs.Refusals.{cause_of};
ghost use Rattle.syn_serve.specs.Refusals.{refusal_of};
ghost use Rattle.syn_serve.specs.inner.Parts.{of_link};

use std::fmt;
use syn_link::LinkError;
use syn_refusal::Refusal;
use syn_wire::WireError;
use thiserror::Error;

/// Why a connection is closed by this side.
#[derive(Clone, Copy, Debug, PartialEq, Eq, Error)]
pub enum ServeError {
    /// 9: a read or a write failed.
    Device,
    /// 11: memory was refused.
    Memory,
    /// 21: a frame with a length of 0 came.
    BadFrame,
    /// 22: a frame with a length above `syn_link::LONGEST_BODY` came.
    TooLarge,
    /// 23: a body came that is no message.
    BadMessage,
    /// 14: the session whose begin came was begun before, and not over this connection.
    BegunElsewhere,
}

impl ServeError {
    /// Which refusal it is.
    pub fn refusal(&self) -> Refusal
        ensures { cause_of result ≡ refusal_of self.now }
    {
        match self {
            ServeError::Device => Refusal::Device,
            ServeError::Memory => Refusal::Memory,
            ServeError::BadFrame => Refusal::BadFrame,
            ServeError::TooLarge => Refusal::TooLarge,
            ServeError::BadMessage => Refusal::BadMessage,
            ServeError::BegunElsewhere => Refusal::OldSession,
        }
    }

    /// The number of the refusal.
    pub fn number(&self) -> u8
        ensures { result ≡ number (refusal_of self.now) }
    {
        self.refusal().number()
    }
}

/// The name of the refusal.
impl fmt::Display for ServeError {
    ghost output = { λ error. Some (name_of (refusal_of error)) };

    fn fmt<W: fmt::Write>(&self, f: &mut fmt::Formatter<W>) -> fmt::Result {
        write!(f, "{}", self.refusal())
    }
}

/// A frame was neither read nor written.
impl From<LinkError> for ServeError {
    ghost from_gives = { λ error e. e ≡ of_link error };

    fn from(error: LinkError) -> ServeError {
        match error {
            LinkError::BadFrame => ServeError::BadFrame,
            LinkError::TooLarge => ServeError::TooLarge,
            LinkError::Device => ServeError::Device,
            LinkError::Memory => ServeError::Memory,
        }
    }
}

/// A message was neither decoded nor encoded, for lack of memory.
impl From<WireError> for ServeError {
    ghost use Rattle.syn_serve.specs.declared.error.ServeError.TheVariants.{Memory};

    ghost from_gives = { λ _ e. e ≡ Memory };

    fn from(_error: WireError) -> ServeError {
        ServeError::Memory
    }
}
