//! One frame.
ghost use Rattle.std.specs.Prelude.{◌≡◌, ◌≢◌, ◌↔◌, ◌⊎◌, ◌+◌, ◌<◌, ◌≤◌, Err, length, drop, IfOk};
ghost use Rattle.std.specs.Prelude.{IfErr, IfSome, IfNone, OnOk, Some, None};
ghost use Rattle.std.specs.Int.{w32, to_be_bytes};
ghost use Rattle.syn_link.specs.declared.frames.TheConstants.{LONGEST_BODY};
ghost use Rattle.syn_link.specs.Frames.{IsBody, IsFront, ClaimsNothing, ClaimsTooMuch, frame_of};

use crate::error::LinkError;
use byteorder::{BigEndian, ByteOrder};
use std::alloc::Global;
use syn_wire::read_u32;

/// The most bytes of a body.
pub const LONGEST_BODY: usize = 65_536;

/// The body with its length before it. Refused 21 where it is empty, 22 where it has more than
/// `LONGEST_BODY` bytes, and 11 where memory is refused.
pub fn frame(alloc: Global, body: &[u8]) -> Result<Vec<u8>, LinkError>
    ensures framed { IfOk result (λ framed. framed.items ≡ frame_of body.now) }
    ensures body { OnOk result (IsBody body.now) }
    ensures bad_frame { (result ≡ Err LinkError.BadFrame) ↔ (length body.now ≡ 0) }
    ensures too_large { (result ≡ Err LinkError.TooLarge) ↔ (LONGEST_BODY < length body.now) }
    ensures device { IfErr result (λ e. e ≢ LinkError.Device) }
{
    check_length(body.len())?;
    let mut framed = Vec::with_capacity(alloc, body.len() + 4)?;
    framed.extend_from_slice(&spelled_length(body.len()))?;
    framed.extend_from_slice(body)?;
    Ok(framed)
}

/// The length of a body as its frame begins.
pub(crate) fn spelled_length(length: usize) -> [u8; 4]
    requires { length ≤ LONGEST_BODY }
    ensures { result ≡ to_be_bytes w32 length }
{
    let mut spelled = [0; 4];
    BigEndian::write_u32(&mut spelled, length as u32);
    spelled
}

/// Whether a body may have so many bytes: not none (21), and at most `LONGEST_BODY` (22).
pub(crate) fn check_length(length: usize) -> Result<(), LinkError>
    ensures ok { OnOk result ((1 ≤ length) × (length ≤ LONGEST_BODY)) }
    ensures bad_frame { (result ≡ Err LinkError.BadFrame) ↔ (length ≡ 0) }
    ensures too_large { (result ≡ Err LinkError.TooLarge) ↔ (LONGEST_BODY < length) }
    ensures other { IfErr result (λ e. (e ≡ LinkError.BadFrame) ⊎ (e ≡ LinkError.TooLarge)) }
{
    if length == 0 {
        return Err(LinkError::BadFrame);
    }
    if length > LONGEST_BODY {
        return Err(LinkError::TooLarge);
    }
    Ok(())
}

/// The body of the frame that the bytes begin with; none where no whole frame is there yet. Refused
/// 21 and 22 where they begin with a length that no body has.
pub(crate) fn first_body(bytes: &[u8]) -> Result<Option<&[u8]>, LinkError>
    ensures found { IfOk result (λ found. IfSome found (λ body.
        IsFront bytes.now (Some body.now) (drop (4 + length body.now) bytes.now))) }
    ensures none { IfOk result (λ found. IfNone found (IsFront bytes.now None bytes.now)) }
    ensures bad_frame { (result ≡ Err LinkError.BadFrame) ↔ ClaimsNothing bytes.now }
    ensures too_large { (result ≡ Err LinkError.TooLarge) ↔ ClaimsTooMuch bytes.now }
    ensures other { IfErr result (λ e. (e ≡ LinkError.BadFrame) ⊎ (e ≡ LinkError.TooLarge)) }
{
    let Some((length, rest)) = read_u32(bytes) else {
        return Ok(None);
    };
    syn_wire::spelling_laws();
    let length = length as usize;
    check_length(length)?;
    if rest.len() < length {
        return Ok(None);
    }
    let (body, _) = rest.split_at(length);
    Ok(Some(body))
}
