//! Writes where a replica is in its history.
ghost use Rattle.std.specs.Prelude.{◌≡◌, ◌++◌, OnOk, option_map};
ghost use Rattle.syn_history.specs.Events.{token_of};
ghost use Rattle.syn_history.specs.Status.{identity_of, status_of};
ghost use Rattle.syn_message.specs.Statuses.{halted_spelling, identity_spelling};
ghost use Rattle.syn_message.specs.Statuses.{stated_spelling, status_spelling, touched_spelling};
ghost use Rattle.syn_message.specs.inner.Stated.{four_of, four_spelling, later_of};
ghost use Rattle.syn_message.specs.inner.Stated.{later_spelling};
ghost use Rattle.syn_model.specs.Image.{last_token_spelling};

use syn_history::{Identity, ReplicaStatus, Token};
use syn_path::Path;
use syn_wire::{ABSENT, WireError, write_path, write_token, write_u64};

/// Stands before a value that is there; `ABSENT` stands where there is none.
pub(crate) const PRESENT: u8 = 1;

/// Adds the identity, and where the replica is. `read_stated` reads it.
///
/// Refused 11 where memory is refused.
pub fn write_stated(
    body: &mut Vec<u8>,
    identity: Option<Identity>,
    status: &ReplicaStatus,
) -> Result<(), WireError>
    ensures { OnOk result (body.new.items ≡ body.old.items
        ++ stated_spelling (option_map identity_of identity, status_of status.now)) }
{
    write_identity(body, identity)?;
    write_status(body, status)?;
    Ok(())
}

/// Adds where the replica is.
fn write_status(body: &mut Vec<u8>, status: &ReplicaStatus) -> Result<(), WireError>
    ensures { OnOk result (body.new.items
        ≡ body.old.items ++ status_spelling (status_of status.now)) }
{
    write_numbers(body, status)?;
    write_later(body, status)?;
    Ok(())
}

/// Adds the pair, the position, the floor and the session.
fn write_numbers(body: &mut Vec<u8>, status: &ReplicaStatus) -> Result<(), WireError>
    ensures { OnOk result (body.new.items
        ≡ body.old.items ++ four_spelling (four_of (status_of status.now))) }
{
    write_u64(body, status.pair)?;
    write_u64(body, status.position)?;
    write_u64(body, status.floor)?;
    write_u64(body, status.session)?;
    Ok(())
}

/// Adds the token, the place, the touch, and whether the replica is halted.
fn write_later(body: &mut Vec<u8>, status: &ReplicaStatus) -> Result<(), WireError>
    ensures { OnOk result (body.new.items
        ≡ body.old.items ++ later_spelling (later_of (status_of status.now))) }
{
    write_last_token(body, status.token)?;
    write_u64(body, status.place)?;
    write_touched(body, status.touch.as_ref())?;
    write_halted(body, status.halted)?;
    Ok(())
}

/// Adds the identity after a mark that there is one, or the mark that there is none.
fn write_identity(body: &mut Vec<u8>, identity: Option<Identity>) -> Result<(), WireError>
    ensures { OnOk result (body.new.items
        ≡ body.old.items ++ identity_spelling (option_map identity_of identity)) }
{
    match identity {
        None => body.push(ABSENT)?,
        Some(identity) => {
            let bytes = identity.0;
            body.push(PRESENT)?;
            body.extend_from_slice(&bytes)?;
        }
    }
    Ok(())
}

/// Adds the token after a mark that there is one, or the mark that there is none.
fn write_last_token(body: &mut Vec<u8>, token: Option<Token>) -> Result<(), WireError>
    ensures { OnOk result (body.new.items
        ≡ body.old.items ++ last_token_spelling (option_map token_of token)) }
{
    match token {
        None => body.push(ABSENT)?,
        Some(token) => {
            body.push(PRESENT)?;
            write_token(body, &token)?;
        }
    }
    Ok(())
}

/// Adds the path of the touch after a mark that there is one, or the mark that there is none.
fn write_touched(body: &mut Vec<u8>, path: Option<&Path>) -> Result<(), WireError>
    ensures { OnOk result (body.new.items
        ≡ body.old.items ++ touched_spelling (option_map (λ there. there.now) path.entry)) }
{
    match path {
        None => body.push(ABSENT)?,
        Some(path) => {
            body.push(PRESENT)?;
            write_path(body, path)?;
        }
    }
    Ok(())
}

/// Adds whether the replica is halted: 1 where it is, and else 0.
fn write_halted(body: &mut Vec<u8>, halted: bool) -> Result<(), WireError>
    ensures { OnOk result (body.new.items ≡ body.old.items ++ halted_spelling halted) }
{
    if halted {
        body.push(PRESENT)?;
    } else {
        body.push(ABSENT)?;
    }
    Ok(())
}
