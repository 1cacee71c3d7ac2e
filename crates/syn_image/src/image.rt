//! The image of a replica: its pair, and what its history leaves.
ghost use Rattle.std.specs.Prelude.{◌≡◌, ◌↔◌, ◌++◌, true, IfOk, OnOk, option_map};
ghost use Rattle.syn_model.specs.Image.{IsOldImage, image_spelling, last_token_spelling};
ghost use Rattle.syn_model.specs.Image.{replica_front};
ghost use Rattle.syn_history.specs.Events.{token_of};
ghost use Rattle.syn_history.specs.Past.{standing_with};
ghost use Rattle.syn_wire.specs.Versions.{version_of};
ghost use Rattle.syn_image.specs.Images.{touches_spelling};
ghost use Rattle.syn_image.specs.inner.Pasts.{each_spelling, four_spelling, two_spelling};

use std::alloc::Global;
use syn_history::{Token, Touch, Trail};
use syn_tree::Tree;
use syn_wire::{Version, WireError, write_path, write_token, write_tree, write_u16, write_u64};

/// What the image of a replica holds.
#[derive(Debug, Drop)]
pub struct ReplicaImage {
    /// The number of the pair that the replica is of.
    pub pair: u64,
    /// The tree that the history leaves.
    pub tree: Tree,
    /// What else is kept of the history.
    pub trail: Trail,
}

/// The letters and the version that an image begins with.
pub(crate) fn front(version: Version) -> [u8; 5]
    ensures { result ≡ replica_front (version_of version) }
{
    [b'S', b'Y', b'N', b'R', version.number()]
}

/// Whether the bytes begin as an image of the first version does, whatever follows.
pub fn is_old_replica(bytes: &[u8]) -> bool
    ensures { (result ≡ true) ↔ IsOldImage bytes.now }
{
    bytes.starts_with(&front(Version::One))
}

/// The spelling of the image of a replica of the pair, which has this tree and this trail. The tree
/// is written entry by entry, so that there is no second copy of it.
///
/// Refused 11 where memory is refused.
pub fn encode_replica(
    alloc: Global,
    pair: u64,
    tree: &Tree,
    trail: &Trail,
) -> Result<Vec<u8>, WireError>
    ensures { IfOk result (λ bytes. bytes.items
        ≡ image_spelling pair (standing_with tree.now trail.now)) }
{
    let mut out = Vec::with_capacity(alloc, tree.spelling_length())?;
    out.extend_from_slice(&front(Version::Two))?;
    write_numbers(&mut out, pair, trail)?;
    write_last_token(&mut out, trail.last_token())?;
    write_touches(&mut out, trail)?;
    write_tree(&mut out, tree)?;
    Ok(out)
}

/// Adds the pair, and the position, the floor and the last session of the trail.
fn write_numbers(out: &mut Vec<u8>, pair: u64, trail: &Trail) -> Result<(), WireError>
    ensures { OnOk result (out.new.items ≡ out.old.items
        ++ four_spelling ((pair, trail.now.position), (trail.now.floor, trail.now.session))) }
{
    write_two(out, pair, trail.position())?;
    write_two(out, trail.floor(), trail.last_session())?;
    Ok(())
}

/// Adds two numbers.
fn write_two(out: &mut Vec<u8>, first: u64, second: u64) -> Result<(), WireError>
    ensures { OnOk result (out.new.items ≡ out.old.items ++ two_spelling (first, second)) }
{
    write_u64(out, first)?;
    write_u64(out, second)?;
    Ok(())
}

/// Adds the last token after a mark that there is one, or the mark that there is none.
fn write_last_token(out: &mut Vec<u8>, token: Option<Token>) -> Result<(), WireError>
    ensures { OnOk result (out.new.items ≡ out.old.items
        ++ last_token_spelling (option_map token_of token)) }
{
    match token {
        None => {
            out.push(0)?;
            Ok(())
        }
        Some(token) => {
            out.push(1)?;
            write_token(out, &token)
        }
    }
}

/// Adds the number of the touches, and each of them, the oldest first.
fn write_touches(out: &mut Vec<u8>, trail: &Trail) -> Result<(), WireError>
    ensures { OnOk result (out.new.items ≡ out.old.items ++ touches_spelling trail.now.touches) }
{
    let (older, newer) = trail.touches();
    write_u16(out, (older.len() + newer.len()) as u16)?;
    write_each(out, older)?;
    write_each(out, newer)?;
    Ok(())
}

/// Adds each of the touches: its position and its path.
fn write_each(out: &mut Vec<u8>, touches: &[Touch]) -> Result<(), WireError>
    ensures { OnOk result (out.new.items ≡ out.old.items ++ each_spelling touches.now) }
{
    for touch in touches {
        write_u64(out, touch.position())?;
        write_path(out, touch.path())?;
    }
    Ok(())
}
