//! Whether two sides and an archive belong together.
ghost use Rattle.std.specs.Prelude.{◌≡◌, ◌↔◌, ◌≤◌, IfErr, IfOk, None, OnOk, Option};
ghost use Rattle.std.specs.Prelude.{Some, option_map, true};
ghost use Rattle.syn_history.specs.Events.{token_of};
ghost use Rattle.syn_history.specs.Status.{status_of};
ghost use Rattle.syn_pair.specs.Belongs.{BelongTogether, FitsAt, Fits, GoesOn, HasCause};
ghost use Rattle.syn_pair.specs.Belongs.{HasCauseAt, HasOtherEvent, IsApart, IsBefore, archive_in};
ghost use Rattle.syn_pair.specs.Refusals.{refusal_for, refusal_of};
ghost use Rattle.syn_pair.specs.Sides.{SideState, side_of};
ghost use Rattle.syn_pair.specs.declared.check.ArchiveStatus.{ArchiveStatus};
ghost use Rattle.syn_path.specs.Sides.{which_of};
ghost use Rattle.syn_refusal.specs.Refusals.{cause_of};

use crate::side::{KnownSides, SideStatus, are_different, are_one};
use syn_history::{ReplicaStatus, Token};
use syn_path::{Path, Side};
use syn_refusal::Refusal;

/// What an archive says of itself.
#[derive(Clone, Copy, Debug)]
pub struct ArchiveStatus {
    /// The number of the pair.
    pub pair: u64,
    /// The number of its last session.
    pub session: u64,
    /// Whether it has the mark of anything but the root.
    pub has_marks: bool,
}

/// Why a side is not the one that the archive belongs to.
#[derive(Clone, Copy, Debug, PartialEq, Eq)]
pub enum Cause {
    /// The archive is older than the side, whose last session is above the archive's.
    OlderArchive { archive: u64, side: u64 },
    /// The archive is older than what is known of the side, whose session is above the archive's.
    OlderThanKnown { archive: u64, known: u64 },
    /// What is known is older than the side, which has replaced something in a later session.
    OlderKnown { known: u64, side: u64 },
    /// Nothing is known of the side, the archive has marks, and the side has not begun its last
    /// session.
    Unknown { archive: u64, side: u64 },
    /// The side has another identity.
    OtherReplica,
    /// The side's last session is below the one that is known.
    OlderSession { known: u64, side: u64 },
    /// The side's last replacement is before the one that is known.
    OlderReplacement,
    /// The side has fewer events than are known.
    OlderPosition { known: u64, side: u64 },
    /// The side's event at this place is another one than is known.
    OtherEvent { place: u64 },
}

impl Cause {
    /// Which refusal it is: 14 where the archive or what is known is older, and 20 where the side
    /// is another one or an older one.
    pub fn refusal(&self) -> Refusal
        ensures { cause_of result ≡ refusal_for self.now }
    {
        match self {
            Cause::OlderArchive { .. } | Cause::OlderThanKnown { .. } | Cause::OlderKnown { .. } =>
                Refusal::OldSession,
            Cause::Unknown { .. }
            | Cause::OtherReplica
            | Cause::OlderSession { .. }
            | Cause::OlderReplacement
            | Cause::OlderPosition { .. }
            | Cause::OtherEvent { .. } => Refusal::WrongPair,
        }
    }
}

/// Why two sides and an archive do not belong together.
#[derive(Clone, Copy, Debug, PartialEq, Eq)]
pub enum Mismatch {
    /// Both sides are one replica.
    OneReplica,
    /// The side is of another pair.
    OtherPair(Side),
    /// The side has begun the last session that there is.
    LastSession(Side),
    /// The side is not the one that the archive belongs to.
    Of(Side, Cause),
}

impl Mismatch {
    /// Which refusal it is: 12 where both sides are one, 20 and 7 where no archive can go on with
    /// the side, and else that of the cause.
    pub fn refusal(&self) -> Refusal
        ensures { cause_of result ≡ refusal_of self.now }
    {
        match self {
            Mismatch::OneReplica => Refusal::Busy,
            Mismatch::OtherPair(_) => Refusal::WrongPair,
            Mismatch::LastSession(_) => Refusal::Full,
            Mismatch::Of(_, cause) => cause.refusal(),
        }
    }
}

/// That a session of an archive may begin with two sides. `check_pair` alone makes one, and each
/// session takes one that was made of its archive.
#[derive(Debug, Drop)]
pub struct Belonging {
    archive: ArchiveStatus,
}

/// Whether a session of the archive may begin with the two sides, of which this is known. Each side
/// has to have been asked about the place that is known of it (`KnownSides::entry_for`).
///
/// A replica of another pair is left to the session, which it refuses.
///
/// Refused 12 where both sides are one replica; 14 where the archive is older than a side, or than
/// what is known; and 20 where a side is another replica than the one that is known, or an older
/// one. Where nothing is known and the archive has marks, it is refused 20 unless each side has
/// begun the archive's last session.
pub fn check_pair(
    archive: &ArchiveStatus,
    known: Option<&KnownSides>,
    left: &SideStatus,
    right: &SideStatus,
) -> Result<Belonging, Mismatch>
    ensures belong { OnOk result (BelongTogether archive.now
        (option_map (λ known. known.now) known.entry) (side_of left.now) (side_of right.now)) }
    ensures checked { IfOk result (λ belonging. archive_in belonging ≡ archive.now) }
    ensures apart { IfErr result (IsApart archive.now (option_map (λ known. known.now) known.entry)
        (side_of left.now) (side_of right.now)) }
{
    if are_one(left.identity, right.identity) {
        return Err(Mismatch::OneReplica);
    }
    if left.status.pair != archive.pair || right.status.pair != archive.pair {
        return Ok(Belonging { archive: *archive });
    }
    if let Err(cause) = check_at(archive, known, Side::Left, left) {
        return Err(Mismatch::Of(Side::Left, cause));
    }
    if let Err(cause) = check_at(archive, known, Side::Right, right) {
        return Err(Mismatch::Of(Side::Right, cause));
    }
    Ok(Belonging { archive: *archive })
}

/// Whether the side of the name is the one that the archive belongs to.
fn check_at(
    archive: &ArchiveStatus,
    known: Option<&KnownSides>,
    name: Side,
    side: &SideStatus,
) -> Result<(), Cause>
    ensures fits { OnOk result (FitsAt archive.now (option_map (λ known. known.now) known.entry)
        (which_of name) (side_of side.now)) }
    ensures cause { IfErr result (HasCauseAt archive.now
        (option_map (λ known. known.now) known.entry) (which_of name) (side_of side.now)) }
{
    match known {
        None => check_unknown(archive, side),
        Some(known) => check_known(archive, known.entry_for(name, side.identity), side),
    }
}

/// Whether the side, of which nothing is known, is the one that the archive belongs to.
fn check_unknown(archive: &ArchiveStatus, side: &SideStatus) -> Result<(), Cause>
    ensures fits { OnOk result (Fits archive.now None (side_of side.now)) }
    ensures cause { IfErr result (HasCause archive.now None (side_of side.now)) }
{
    if let Err(cause) = check_session(archive, side) {
        return Err(cause);
    }
    if archive.has_marks && side.status.session != archive.session {
        return Err(Cause::Unknown {
            archive: archive.session,
            side: side.status.session,
        });
    }
    Ok(())
}

/// Whether the side, of which this is known, is the one that the archive belongs to.
fn check_known(archive: &ArchiveStatus, entry: &SideStatus, side: &SideStatus) -> Result<(), Cause>
    ensures fits { OnOk result (Fits archive.now (Some (side_of entry.now)) (side_of side.now)) }
    ensures cause { IfErr result (HasCause archive.now (Some (side_of entry.now))
        (side_of side.now)) }
{
    if let Err(cause) = check_session(archive, side) {
        return Err(cause);
    }
    let (known, now) = (&entry.status, &side.status);
    if known.session > archive.session {
        return Err(Cause::OlderThanKnown {
            archive: archive.session,
            known: known.session,
        });
    }
    if let Some(token) = now.token {
        if token.session > known.session {
            return Err(Cause::OlderKnown {
                known: known.session,
                side: token.session,
            });
        }
    }
    check_history(entry, side)
}

/// The archive is not older than the side.
fn check_session(archive: &ArchiveStatus, side: &SideStatus) -> Result<(), Cause>
    ensures ok { OnOk result (side.now.status.session ≤ archive.now.session) }
    ensures cause { (entry : Option SideState) → IfErr result (HasCause archive.now entry
        (side_of side.now)) }
{
    if side.status.session > archive.session {
        return Err(Cause::OlderArchive {
            archive: archive.session,
            side: side.status.session,
        });
    }
    Ok(())
}

/// Whether the side is the known one, and its history goes on from what is known of it.
pub(crate) fn check_history(entry: &SideStatus, side: &SideStatus) -> Result<(), Cause>
    ensures ok { OnOk result (GoesOn (side_of entry.now) (side_of side.now)) }
    ensures cause { (archive : ArchiveStatus) → IfErr result (HasCause archive
        (Some (side_of entry.now)) (side_of side.now)) }
{
    let (known, now) = (&entry.status, &side.status);
    if are_different(entry.identity, side.identity) {
        return Err(Cause::OtherReplica);
    }
    if now.session < known.session {
        return Err(Cause::OlderSession {
            known: known.session,
            side: now.session,
        });
    }
    if is_before(now.token, known.token) {
        return Err(Cause::OlderReplacement);
    }
    if now.position < known.position {
        return Err(Cause::OlderPosition {
            known: known.position,
            side: now.position,
        });
    }
    if has_other_event(known, now) {
        return Err(Cause::OtherEvent { place: known.place });
    }
    Ok(())
}

/// Whether the one token comes before the other; none comes before any.
fn is_before(one: Option<Token>, other: Option<Token>) -> bool
    ensures { (result ≡ true) ↔ IsBefore (option_map token_of one) (option_map token_of other) }
{
    match (one, other) {
        (_, None) => false,
        (None, Some(_)) => true,
        (Some(one), Some(other)) => one.is_below(&other),
    }
}

/// Whether the side has another event than the known one at the known place, of which it still
/// keeps the path.
fn has_other_event(known: &ReplicaStatus, side: &ReplicaStatus) -> bool
    ensures { (result ≡ true) ↔ HasOtherEvent (status_of known.now) (status_of side.now) }
{
    let Some(path) = &known.touch else {
        return false;
    };
    side.place == known.place && side.floor <= known.place && !is_at(path, &side.touch)
}

/// Whether it is the path.
fn is_at(path: &Path, touch: &Option<Path>) -> bool
    ensures { (result ≡ true) ↔ (touch.now ≡ Some path.now) }
{
    match touch {
        Some(touched) => touched == path,
        None => false,
    }
}
