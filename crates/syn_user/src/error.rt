//! Why a user gets no answer, or not the wanted one.
ghost use Rattle.std.specs.Prelude.{◌≡◌, Some};
ghost use Rattle.syn_model.specs.Refusal.{number, name_of};
ghost use Rattle.syn_refusal.specs.Refusals.{cause_of};
ghost use Rattle.syn_user.specs.Refusals.{refusal_of};
ghost use Rattle.syn_user.specs.inner.Parts.{is_refusal, of_link};

use std::alloc::AllocError;
use std::fmt;
use syn_link::LinkError;
use syn_refusal::Refusal;
use syn_wire::WireError;
use thiserror::Error;

/// Why a user's request is not answered as it was wanted.
#[derive(Clone, Copy, Debug, PartialEq, Eq, Error)]
pub enum UserError {
    /// The replica refused the request. 7 also stands for a request that is longer than a frame
    /// takes: it was not sent.
    Refused(Refusal),
    /// 9: a read or a write failed, the other side closed the connection, or it was closed before.
    /// An edit that was being asked for may have been made.
    Device,
    /// 11: memory was refused.
    Memory,
    /// 21: a frame with a length of 0 came.
    BadFrame,
    /// 22: a frame with a length above `syn_link::LONGEST_BODY` came.
    TooLarge,
    /// 23: a body came that is no reply to the request.
    BadMessage,
}

impl UserError {
    /// Which refusal it is.
    pub fn refusal(&self) -> Refusal
        ensures { cause_of result ≡ refusal_of self.now }
    {
        match self {
            UserError::Refused(why) => *why,
            UserError::Device => Refusal::Device,
            UserError::Memory => Refusal::Memory,
            UserError::BadFrame => Refusal::BadFrame,
            UserError::TooLarge => Refusal::TooLarge,
            UserError::BadMessage => Refusal::BadMessage,
        }
    }

    /// The number of the refusal.
    pub fn number(&self) -> u8
        ensures { result ≡ number (refusal_of self.now) }
    {
        self.refusal().number()
    }

    /// Whether the replica refused, so that its connection goes on.
    pub(crate) fn is_refusal(self) -> bool
        ensures { result ≡ is_refusal self }
    {
        match self {
            UserError::Refused(_) => true,
            UserError::Device => false,
            UserError::Memory => false,
            UserError::BadFrame => false,
            UserError::TooLarge => false,
            UserError::BadMessage => false,
        }
    }
}

/// The name of the refusal.
impl fmt::Display for UserError {
    ghost output = { λ error. Some (name_of (refusal_of error)) };

    fn fmt<W: fmt::Write>(&self, f: &mut fmt::Formatter<W>) -> fmt::Result {
        write!(f, "{}", self.refusal())
    }
}

impl From<AllocError> for UserError {
    ghost use Rattle.syn_user.specs.declared.error.UserError.TheVariants.{Memory};

    ghost from_gives = { λ _ e. e ≡ Memory };

    fn from(_error: AllocError) -> UserError {
        UserError::Memory
    }
}

/// A frame was neither read nor written.
impl From<LinkError> for UserError {
    ghost from_gives = { λ error e. e ≡ of_link error };

    fn from(error: LinkError) -> UserError {
        match error {
            LinkError::BadFrame => UserError::BadFrame,
            LinkError::TooLarge => UserError::TooLarge,
            LinkError::Device => UserError::Device,
            LinkError::Memory => UserError::Memory,
        }
    }
}

/// A message was neither decoded nor encoded, for lack of memory.
impl From<WireError> for UserError {
    ghost use Rattle.syn_user.specs.declared.error.UserError.TheVariants.{Memory};

    ghost from_gives = { λ _ e. e ≡ Memory };

    fn from(_error: WireError) -> UserError {
        UserError::Memory
    }
}
