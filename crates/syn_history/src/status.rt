//! Where a replica is in its history, as it answers whoever asks.

ghost use Rattle.std.specs.Prelude.{◌≡◌, IfSome, length, option_map};
ghost use Rattle.syn_model.specs.Event.{AreBytes, IsLawfulToken};
ghost use Rattle.syn_model.specs.Path.{IsPath};
ghost use Rattle.syn_history.specs.Events.{token_of};
ghost use Rattle.syn_history.specs.Status.{IsLawfulStatus, identity_of, status_of};

use crate::token::Token;
use syn_model::{are_bytes, is_long, is_short};
use syn_path::Path;

/// The bytes of an identity.
pub const IDENTITY_LENGTH: usize = 16;

/// What a replica's disk is known by: random bytes, which no other disk has.
#[derive(Clone, Copy, Debug, PartialEq, Eq)]
pub struct Identity(pub [u8; 16]);

/// What the type of an identity says: it is 16 bytes.
pub fn is_identity(identity: Identity)
    ensures length { length (identity_of identity) ≡ IDENTITY_LENGTH }
    ensures bytes { AreBytes (identity_of identity) }
{
    are_bytes(identity.0.as_slice());
}

/// Where a replica is in its history.
#[derive(Debug, Drop)]
pub struct ReplicaStatus {
    /// The number of the pair.
    pub pair: u64,
    /// The number of events.
    pub position: u64,
    /// The position from which on the touches are whole.
    pub floor: u64,
    /// The session begun last, and 0 while there is none.
    pub session: u64,
    /// The token of the last replacement.
    pub token: Option<Token>,
    /// The position of the event that was asked about.
    pub place: u64,
    /// The path that the event at the place touched; none where the replica keeps no such touch.
    pub touch: Option<Path>,
    /// Whether the replica refuses each change.
    pub halted: bool,
}

/// The numbers of a status fit their bytes, and its path is lawful, which their types say.
pub fn status_laws(status: &ReplicaStatus)
    ensures { IsLawfulStatus (status_of status.now) }
{
    is_long(status.pair);
    is_long(status.position);
    is_long(status.floor);
    is_long(status.session);
    is_long(status.place);
    is_lawful_token(&status.token);
    is_lawful_path(&status.touch);
}

/// The numbers of a token fit their bytes.
fn is_lawful_token(token: &Option<Token>)
    ensures { IfSome (option_map token_of token.now) IsLawfulToken }
{
    if let Some(token) = token {
        is_long(token.session);
        is_short(token.item);
    }
}

/// A path is lawful.
fn is_lawful_path(path: &Option<Path>)
    ensures { IfSome path.now IsPath }
{
    if let Some(path) = path {
        let _ = path.names();
    }
}
