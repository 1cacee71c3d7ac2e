//! A replica from what its disk holds.
ghost use Rattle.std.specs.Prelude.{◌≡◌, ◌≢◌, ◌⊎◌, ◌<◌, ◌^◌, ℕ, List, IfOk, IfErr, OnOk, IsErrAnd};
ghost use Rattle.std.specs.Prelude.{Some, true, option_map, map};
ghost use Rattle.syn_model.specs.Event as model;
ghost use Rattle.syn_model.specs.Image.{GivesIn, IsStanding};
ghost use Rattle.syn_model.specs.Limits.{fits_replica};
ghost use Rattle.syn_model.specs.Spelling.{event_spelling_in};
ghost use Rattle.syn_model.specs.Standing as model_standing;
ghost use Rattle.syn_model.specs.Standing.{AllAllowedIn, IsAllowedIn};
ghost use Rattle.syn_model.specs.Tree.{IsTree};
ghost use Rattle.syn_history.specs.Events.{event_of};
ghost use Rattle.syn_image.specs.Images.{image_of};
ghost use Rattle.syn_wire.specs.Versions.{version_of};
ghost use Rattle.syn_replica.specs.Readings.{GivesOtherPairIn};
ghost use Rattle.syn_replica.specs.ErrorRefusals.{refusal_of};
ghost use Rattle.syn_model.specs.Refusal as why;
ghost use Rattle.syn_replica.specs.Readings.{AddsEvent, Replays, IsEventOf, bytes_of_each};
ghost use Rattle.syn_replica.specs.Readings.{IsOfMeaning, IsOfPayload, IsImageOf};

use crate::error::ReplicaError;
use crate::laws::opening_laws;
use crate::remembered::Remembered;
use crate::standing::Standing;
use std::alloc::Global;
use syn_history::Event;
use syn_image::{ReplicaImage, decode_replica, image_laws, is_other_pair};
use syn_refusal::Refusal;
use syn_wire::{Version, WireError, decode_event, spelling_laws};

/// What the image and the payloads give to remember, all spelled in the version.
///
/// Refused 19 where they give none, 20 where they do but the pair is not the wanted one, and 11
/// where memory is refused.
pub fn read_replica(
    alloc: Global,
    version: Version,
    image: &[u8],
    wanted: Option<u64>,
    payloads: &[Vec<u8>],
) -> Result<Remembered, ReplicaError>
    ensures fits { IfOk result (λ read. read.pair < 2 ^ 64) }
    ensures gives { IfOk result (λ read. GivesIn (version_of version) read.pair image.now
        (bytes_of_each payloads.now) read.standing) }
    ensures one { IfOk result (λ read. (other : Remembered) → other.pair < 2 ^ 64
        → GivesIn (version_of version) other.pair image.now (bytes_of_each payloads.now)
        other.standing → other ≡ read) }
    ensures sound { IfOk result (λ read. IsStanding read.standing) }
    ensures wanted { IfOk result (λ read. (asked : ℕ) → wanted ≡ Some asked
        → asked ≡ read.pair) }
    ensures refusals { IfErr result IsOfMeaning }
    ensures damaged { IfErr result (λ e. e ≡ ReplicaError.Damaged
        → (pair : ℕ) (standing : model_standing.Standing) → pair < 2 ^ 64
        → ¬ GivesIn (version_of version) pair image.now (bytes_of_each payloads.now) standing) }
    ensures other { IfErr result (λ e. e ≡ ReplicaError.WrongPair → GivesOtherPairIn
        (version_of version) wanted image.now (bytes_of_each payloads.now)) }
    ensures wrong_pair { GivesOtherPairIn (version_of version) wanted image.now
        (bytes_of_each payloads.now)
        → IsErrAnd result (λ e. (e ≡ ReplicaError.Memory) ⊎ (e ≡ ReplicaError.WrongPair)) }
{
    opening_laws();
    let ReplicaImage { pair, tree, trail } = read_image(alloc, version, image)?;
    let first = Standing::of(tree, trail);
    let standing = replayed(alloc, version, first, payloads)?;
    is_whole(&standing);
    if is_other_pair(wanted, pair) {
        return Err(ReplicaError::WrongPair);
    }
    Ok(Remembered { pair, standing })
}

/// What its type says: its tree is one, within the limits of a replica.
fn is_whole(standing: &Standing)
    ensures tree { IsTree standing.now.tree }
    ensures fits { fits_replica standing.now.tree ≡ true }
{
    let _ = standing.tree().entries();
}

/// The image that the bytes are.
///
/// Refused 19 where they are none, and 11 where memory is refused.
pub fn read_image(
    alloc: Global,
    version: Version,
    bytes: &[u8],
) -> Result<ReplicaImage, ReplicaError>
    ensures read { IfOk result (λ image. IsImageOf (version_of version) bytes.now
        (image_of image).0 (image_of image).1) }
    ensures refusals { IfErr result IsOfPayload }
    ensures damaged { IfErr result (λ e. e ≡ ReplicaError.Damaged
        → (pair : ℕ) (standing : model_standing.Standing)
        → ¬ IsImageOf (version_of version) bytes.now pair standing) }
{
    image_laws();
    let Some((image, rest)) = decode_replica(alloc, version, bytes)? else {
        return Err(ReplicaError::Damaged);
    };
    if !rest.is_empty() {
        return Err(ReplicaError::Damaged);
    }
    Ok(image)
}

/// The standing after each payload in turn, each of which has to be an event that is allowed.
///
/// Refused 19 where one is not, and 11 where memory is refused.
fn replayed(
    alloc: Global,
    version: Version,
    first: Standing,
    payloads: &[Vec<u8>],
) -> Result<Standing, ReplicaError>
    ensures replays { IfOk result
        (λ standing. Replays (version_of version) first (bytes_of_each payloads.now) standing) }
    ensures refusals { IfErr result IsOfPayload }
    ensures damaged { IfErr result (λ e. e ≡ ReplicaError.Damaged → (events : List model.Event)
        → AllAllowedIn (version_of version) first events
        → bytes_of_each payloads.now ≢ map (event_spelling_in (version_of version)) events) }
{
    opening_laws();
    let mut standing = first;
    for payload in payloads {
        add_payload(alloc, version, &mut standing, payload)?;
    }
    standing.build_index(alloc)?;
    Ok(standing)
}

/// Adds the event of one payload.
///
/// Refused 19 where it is no event that is allowed, and 11 where memory is refused.
fn add_payload(
    alloc: Global,
    version: Version,
    standing: &mut Standing,
    payload: &[u8],
) -> Result<(), ReplicaError>
    ensures added { OnOk result
        (AddsEvent (version_of version) standing.old payload.now standing.new) }
    ensures refusals { IfErr result IsOfPayload }
    ensures damaged { IfErr result (λ e. e ≡ ReplicaError.Damaged → (event : model.Event)
        → payload.now ≡ event_spelling_in (version_of version) event
        → ¬ IsAllowedIn (version_of version) standing.old event) }
{
    opening_laws();
    let Some(event) = read_event(alloc, version, payload)? else {
        return Err(ReplicaError::Damaged);
    };
    match standing.add(alloc, event) {
        Ok(()) => Ok(()),
        Err(error) => Err(damage(error)),
    }
}

/// The event that the payload is; none where it is none. Refused 11 where memory is refused.
pub fn read_event(
    alloc: Global,
    version: Version,
    payload: &[u8],
) -> Result<Option<Event>, WireError>
    ensures { IfOk result
        (λ read. IsEventOf (version_of version) payload.now (option_map event_of read)) }
{
    spelling_laws();
    let Some((event, rest)) = decode_event(alloc, version, payload)? else {
        return Ok(None);
    };
    if rest.is_empty() {
        Ok(Some(event))
    } else {
        Ok(None)
    }
}

/// What a payload is whose event is refused: damage, unless memory is refused.
fn damage(error: ReplicaError) -> ReplicaError
    ensures damaged { result ≡ ReplicaError.Damaged → refusal_of error ≢ why.Memory }
    ensures refusals { (result ≡ ReplicaError.Memory) ⊎ (result ≡ ReplicaError.Damaged) }
{
    match error.refusal() {
        Refusal::Memory => ReplicaError::Memory,
        _ => ReplicaError::Damaged,
    }
}
