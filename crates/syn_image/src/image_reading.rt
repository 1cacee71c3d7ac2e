//! What is read of the image of a replica.
ghost use Rattle.std.specs.Prelude.{◌≡◌, IfErr, IfOk, option_map};
ghost use Rattle.syn_model.specs.Image.{IsStanding, last_token_spelling, touch_spelling};
ghost use Rattle.syn_model.specs.Tree.{Tree};
ghost use Rattle.syn_history.specs.Events.{token_of};
ghost use Rattle.syn_history.specs.Past.{IsLawful, standing_with};
ghost use Rattle.syn_history.specs.Trails.{past_from};
ghost use Rattle.syn_wire.specs.Reads.{IsReading, Reads};
ghost use Rattle.syn_wire.specs.Versions.{version_of};
ghost use Rattle.syn_wire.specs.declared.error.ReadError.TheVariants as ReadError;
ghost use Rattle.syn_image.specs.Images.{IsImage, spelled_image, image_of, IsLastToken, IsTouch};
ghost use Rattle.syn_image.specs.Images.{AreTouches, touches_spelling};
ghost use Rattle.syn_image.specs.inner.Pasts.{AreTwo, two_spelling, AreFour, four_spelling};
ghost use Rattle.syn_image.specs.inner.Pasts.{AreFences, fences_spelling, IsPast, past_spelling};
ghost use Rattle.syn_image.specs.inner.Pasts.{HasTouches, each_spelling, past_read};
ghost use Rattle.syn_image.specs.inner.Trees.{IsImageTree};
ghost use Rattle.syn_model.specs.Spelling.{spelling_in};

use crate::image::{ReplicaImage, front};
use std::alloc::Global;
use syn_history::{Token, Touch, Trail, TrailParts};
use syn_tree::Tree;
use syn_wire::{ReadError, Reader, Version, WireError};

/// The most bytes that spell the tree of an image of the first version.
const LONGEST_OLD_TREE: usize = 524_288;

/// The image of the version that the bytes begin with, and the rest; none where no front of them is
/// the spelling of what such an image may hold: another version, a tree beyond its limits, a floor
/// above the position, touches that do not rise from the floor on and before the position, or a
/// token of no session.
///
/// Refused 11 where memory is refused.
pub fn decode_replica(
    alloc: Global,
    version: Version,
    bytes: &[u8],
) -> Result<Option<(ReplicaImage, &[u8])>, WireError>
    ensures { IfOk result (λ read. IsReading (IsImage (version_of version))
        (spelled_image (version_of version)) bytes.now
        (option_map (λ found. (image_of found.0, found.1.now)) read)) }
{
    let mut reader = Reader::new(bytes);
    let image = read_image(&mut reader, alloc, version);
    reader.front(image)
}

fn read_image(
    reader: &mut Reader<'_>,
    alloc: Global,
    version: Version,
) -> Result<ReplicaImage, ReadError>
    ensures { Reads (IsImage (version_of version)) (spelled_image (version_of version)) image_of
        reader.old reader.new result }
{
    reader.expect(&front(version))?;
    let (pair, parts) = read_past(reader, alloc)?;
    let tree = read_tree(reader, alloc, version)?;
    let trail = trail_of(alloc, parts)?;
    Ok(ReplicaImage { pair, tree, trail })
}

/// The tree of an image of the version.
fn read_tree(reader: &mut Reader<'_>, alloc: Global, version: Version) -> Result<Tree, ReadError>
    ensures { Reads (IsImageTree (version_of version)) (spelling_in (version_of version))
        (λ tree. tree) reader.old reader.new result }
{
    syn_model::spelling_laws();
    let before = reader.rest().len();
    let tree = reader.tree(alloc, version)?;
    let taken = before - reader.rest().len();
    match version {
        Version::One if taken > LONGEST_OLD_TREE => Err(ReadError::Malformed),
        _ => Ok(tree),
    }
}

/// The trail of these parts. `Malformed` where they are not lawful.
fn trail_of(alloc: Global, parts: TrailParts) -> Result<Trail, ReadError>
    ensures parts { IfOk result (λ trail. trail ≡ past_from parts) }
    ensures lawful { IfOk result IsLawful }
    ensures malformed { IfErr result (λ e. e ≡ ReadError.Malformed
        → (tree : Tree) → ¬ IsStanding (standing_with tree (past_from parts))) }
{
    match Trail::from_parts(alloc, parts) {
        Ok(trail) => trail.ok_or(ReadError::Malformed),
        Err(_) => Err(ReadError::Memory),
    }
}

/// The pair, and what an image has of a trail.
fn read_past(reader: &mut Reader<'_>, alloc: Global) -> Result<(u64, TrailParts), ReadError>
    ensures { Reads IsPast past_spelling past_read reader.old reader.new result }
{
    let ((pair, position), (floor, session), token) = read_fences(reader)?;
    let touches = read_touches(reader, alloc)?;
    let parts = TrailParts {
        position,
        floor,
        touches,
        session,
        token,
    };
    Ok((pair, parts))
}

/// The four numbers, and the last token.
fn read_fences(
    reader: &mut Reader<'_>,
) -> Result<((u64, u64), (u64, u64), Option<Token>), ReadError>
    ensures { Reads AreFences fences_spelling
        (λ found. ((found.0, found.1), option_map token_of found.2)) reader.old reader.new result }
{
    let (first, second) = read_four(reader)?;
    let token = read_last_token(reader)?;
    Ok((first, second, token))
}

/// Four numbers.
fn read_four(reader: &mut Reader<'_>) -> Result<((u64, u64), (u64, u64)), ReadError>
    ensures { Reads AreFour four_spelling (λ four. four) reader.old reader.new result }
{
    let first = read_two(reader)?;
    let second = read_two(reader)?;
    Ok((first, second))
}

/// Two numbers.
pub(crate) fn read_two(reader: &mut Reader<'_>) -> Result<(u64, u64), ReadError>
    ensures { Reads AreTwo two_spelling (λ two. two) reader.old reader.new result }
{
    let first = reader.u64()?;
    let second = reader.u64()?;
    Ok((first, second))
}

/// The last token, or that there is none.
fn read_last_token(reader: &mut Reader<'_>) -> Result<Option<Token>, ReadError>
    ensures { Reads IsLastToken last_token_spelling (λ token. option_map token_of token)
        reader.old reader.new result }
{
    match reader.byte()? {
        0 => Ok(None),
        1 => Ok(Some(reader.token()?)),
        _ => Err(ReadError::Malformed),
    }
}

/// The touches, after their number.
fn read_touches(reader: &mut Reader<'_>, alloc: Global) -> Result<Vec<Touch>, ReadError>
    ensures { Reads AreTouches touches_spelling (λ touches. touches.items) reader.old reader.new
        result }
{
    let count = reader.u16()?;
    let touches = read_each(reader, alloc, count)?;
    Ok(touches)
}

/// So many touches. Memory is taken as they are seen, and never by their number alone.
fn read_each(reader: &mut Reader<'_>, alloc: Global, count: u16) -> Result<Vec<Touch>, ReadError>
    ensures { Reads (HasTouches count) each_spelling (λ touches. touches.items) reader.old
        reader.new result }
{
    let mut touches = Vec::new(alloc);
    for _read in 0..count {
        touches.push(read_touch(reader, alloc)?)?;
    }
    Ok(touches)
}

/// The position and the path of a touch.
fn read_touch(reader: &mut Reader<'_>, alloc: Global) -> Result<Touch, ReadError>
    ensures { Reads IsTouch touch_spelling (λ touch. touch) reader.old reader.new result }
{
    let position = reader.u64()?;
    let path = reader.path(alloc)?;
    Ok(Touch::new(position, path))
}
