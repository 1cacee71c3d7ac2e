//! The session after which an archive goes on with two sides.
ghost use Rattle.std.specs.Prelude.{◌≡◌, IfErr, IfOk, OnOk};
ghost use Rattle.syn_pair.specs.Following.{CannotFollow, FitsPair, Follows, HasNoNext};
ghost use Rattle.syn_pair.specs.Sides.{side_of};

use crate::check::Mismatch;
use crate::side::{SideStatus, are_one};
use syn_path::Side;

/// The number of the last session of an archive of the pair that goes on with both sides: the
/// greater one of those that they have begun last. The next session is then one that neither has
/// seen.
///
/// Refused 12 where both sides are one replica, 20 where a side is of another pair, and 7 where a
/// side has begun the session of the greatest number.
pub fn session_after(pair: u64, left: &SideStatus, right: &SideStatus) -> Result<u64, Mismatch>
    ensures follows { IfOk result (Follows pair (side_of left.now) (side_of right.now)) }
    ensures cannot { IfErr result (CannotFollow pair (side_of left.now) (side_of right.now)) }
{
    if are_one(left.identity, right.identity) {
        return Err(Mismatch::OneReplica);
    }
    if let Err(why) = check_side(pair, left, Side::Left) {
        return Err(why);
    }
    if let Err(why) = check_side(pair, right, Side::Right) {
        return Err(why);
    }
    Ok(left.status.session.max(right.status.session))
}

/// The side is of the pair, and there is a session after its last one.
fn check_side(pair: u64, side: &SideStatus, name: Side) -> Result<(), Mismatch>
    ensures fits { OnOk result (FitsPair pair (side_of side.now)) }
    ensures cannot { IfErr result (HasNoNext pair name (side_of side.now)) }
{
    if side.status.pair != pair {
        return Err(Mismatch::OtherPair(name));
    }
    if side.status.session == u64::MAX {
        return Err(Mismatch::LastSession(name));
    }
    Ok(())
}
