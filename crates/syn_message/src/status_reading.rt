//! Reads where a replica is in its history.
ghost use Rattle.std.specs.Prelude.{option_map};
ghost use Rattle.syn_history.specs.Events.{token_of};
ghost use Rattle.syn_history.specs.Status.{IsLawfulStatus, identity_of, status_of};
ghost use Rattle.syn_message.specs.Bodies.{ReadsWhole};
ghost use Rattle.syn_message.specs.Statuses.{IsStated, halted_spelling, identity_spelling};
ghost use Rattle.syn_message.specs.Statuses.{stated_spelling, status_spelling, touched_spelling};
ghost use Rattle.syn_message.specs.inner.Stated.{AreFour, AreLater, AreTokenAndPlace};
ghost use Rattle.syn_message.specs.inner.Stated.{AreTouchAndHalted, AreTwo, IsAnyFlag};
ghost use Rattle.syn_message.specs.inner.Stated.{IsAnyIdentity, IsAnyPath, IsAnyToken};
ghost use Rattle.syn_message.specs.inner.Stated.{four_spelling, later_of, later_spelling};
ghost use Rattle.syn_message.specs.inner.Stated.{token_and_place, touch_and_halted, two_spelling};
ghost use Rattle.syn_model.specs.Image.{last_token_spelling};
ghost use Rattle.syn_wire.specs.Reads.{Reads};

use crate::status::PRESENT;
use std::alloc::Global;
use syn_history::{IDENTITY_LENGTH, Identity, ReplicaStatus, Token, is_identity};
use syn_path::Path;
use syn_wire::{ABSENT, ReadError, Reader};

/// The same as `read_stated`, with nothing after it.
pub(crate) fn read_whole_stated(
    reader: &mut Reader<'_>,
    alloc: Global,
) -> Result<(Option<Identity>, ReplicaStatus), ReadError>
    ensures { ReadsWhole IsStated stated_spelling
        (λ stated. (option_map identity_of stated.0, status_of stated.1)) reader.old result }
{
    let stated = read_stated(reader, alloc)?;
    reader.end()?;
    Ok(stated)
}

/// An identity, or that there is none, and where the replica is.
pub fn read_stated(
    reader: &mut Reader<'_>,
    alloc: Global,
) -> Result<(Option<Identity>, ReplicaStatus), ReadError>
    ensures { Reads IsStated stated_spelling
        (λ stated. (option_map identity_of stated.0, status_of stated.1)) reader.old reader.new
        result }
{
    let identity = read_identity(reader)?;
    let status = read_status(reader, alloc)?;
    Ok((identity, status))
}

/// Where the replica is.
fn read_status(reader: &mut Reader<'_>, alloc: Global) -> Result<ReplicaStatus, ReadError>
    ensures { Reads IsLawfulStatus status_spelling status_of reader.old reader.new result }
{
    let ((pair, position), (floor, session)) = read_four(reader)?;
    let ((token, place), (touch, halted)) = read_later(reader, alloc)?;
    Ok(ReplicaStatus {
        pair,
        position,
        floor,
        session,
        token,
        place,
        touch,
        halted,
    })
}

/// Four numbers.
fn read_four(reader: &mut Reader<'_>) -> Result<((u64, u64), (u64, u64)), ReadError>
    ensures { Reads AreFour four_spelling (λ four. four) reader.old reader.new result }
{
    let first = read_two(reader)?;
    let second = read_two(reader)?;
    Ok((first, second))
}

/// Two numbers.
fn read_two(reader: &mut Reader<'_>) -> Result<(u64, u64), ReadError>
    ensures { Reads AreTwo two_spelling (λ two. two) reader.old reader.new result }
{
    let first = reader.u64()?;
    let second = reader.u64()?;
    Ok((first, second))
}

/// What follows the numbers.
fn read_later(
    reader: &mut Reader<'_>,
    alloc: Global,
) -> Result<((Option<Token>, u64), (Option<Path>, bool)), ReadError>
    ensures { Reads AreLater later_spelling
        (λ later. ((option_map token_of later.0.0, later.0.1), later.1)) reader.old reader.new
        result }
{
    let first = read_token_and_place(reader)?;
    let second = read_touch_and_halted(reader, alloc)?;
    Ok((first, second))
}

/// The last token, and the place that was asked about.
fn read_token_and_place(reader: &mut Reader<'_>) -> Result<(Option<Token>, u64), ReadError>
    ensures { Reads AreTokenAndPlace token_and_place
        (λ found. (option_map token_of found.0, found.1)) reader.old reader.new result }
{
    let token = read_last_token(reader)?;
    let place = reader.u64()?;
    Ok((token, place))
}

/// The path that the event at the place touched, and whether the replica is halted.
fn read_touch_and_halted(
    reader: &mut Reader<'_>,
    alloc: Global,
) -> Result<(Option<Path>, bool), ReadError>
    ensures { Reads AreTouchAndHalted touch_and_halted (λ found. found) reader.old reader.new
        result }
{
    let touch = read_touched(reader, alloc)?;
    let halted = read_halted(reader)?;
    Ok((touch, halted))
}

/// An identity, or that there is none.
fn read_identity(reader: &mut Reader<'_>) -> Result<Option<Identity>, ReadError>
    ensures { Reads IsAnyIdentity identity_spelling (λ identity. option_map identity_of identity)
        reader.old reader.new result }
{
    match reader.byte()? {
        ABSENT => Ok(None),
        PRESENT => {
            let bytes = reader.array::<IDENTITY_LENGTH>()?;
            let identity = Identity(bytes);
            is_identity(identity);
            Ok(Some(identity))
        }
        _ => Err(ReadError::Malformed),
    }
}

/// The last token, or that there is none.
fn read_last_token(reader: &mut Reader<'_>) -> Result<Option<Token>, ReadError>
    ensures { Reads IsAnyToken last_token_spelling (λ token. option_map token_of token)
        reader.old reader.new result }
{
    match reader.byte()? {
        ABSENT => Ok(None),
        PRESENT => Ok(Some(reader.token()?)),
        _ => Err(ReadError::Malformed),
    }
}

/// The path of a touch, or that there is none.
fn read_touched(reader: &mut Reader<'_>, alloc: Global) -> Result<Option<Path>, ReadError>
    ensures { Reads IsAnyPath touched_spelling (λ path. path) reader.old reader.new result }
{
    match reader.byte()? {
        ABSENT => Ok(None),
        PRESENT => Ok(Some(reader.path(alloc)?)),
        _ => Err(ReadError::Malformed),
    }
}

/// Whether the replica is halted.
fn read_halted(reader: &mut Reader<'_>) -> Result<bool, ReadError>
    ensures { Reads IsAnyFlag halted_spelling (λ halted. halted) reader.old reader.new result }
{
    match reader.byte()? {
        ABSENT => Ok(false),
        PRESENT => Ok(true),
        _ => Err(ReadError::Malformed),
    }
}
