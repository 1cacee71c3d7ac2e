//! What a side says of itself, and what is known of it.
ghost use Rattle.std.specs.Prelude.{◌≡◌, ◌↔◌, true};
ghost use Rattle.syn_pair.specs.Sides.{AreOne, Differ, IsEntryFor, known_at, side_of};
ghost use Rattle.syn_model.specs.Which.{other};
ghost use Rattle.syn_path.specs.Sides.{which_of};

use syn_history::{Identity, ReplicaStatus};
use syn_path::Side;

/// A place that no event has. A replica that is asked about it answers about its last touch.
pub const LAST_PLACE: u64 = u64::MAX;

/// What a replica answers of itself.
#[derive(Debug, Drop)]
pub struct SideStatus {
    /// What its disk is known by; none where it was never opened to be written since disks have
    /// identities.
    pub identity: Option<Identity>,
    /// Where it is in its history.
    pub status: ReplicaStatus,
}

/// What the coordinator has found of both sides when they last had a session.
#[derive(Debug, Drop)]
pub struct KnownSides {
    pub left: SideStatus,
    pub right: SideStatus,
}

impl KnownSides {
    /// What is known of the side that is named there and has this identity: the entry of that
    /// identity, since the sides may be named in the other order, and else the one of its name.
    pub fn entry_for(&self, side: Side, identity: Option<Identity>) -> &SideStatus
        ensures { IsEntryFor (known_at self.now (which_of side))
            (known_at self.now (other (which_of side))) identity (side_of result.now) }
    {
        match side {
            Side::Left => entry_of(&self.left, &self.right, identity),
            Side::Right => entry_of(&self.right, &self.left, identity),
        }
    }
}

/// The entry across where it has the identity, and else the other one.
fn entry_of<'k>(
    named: &'k SideStatus,
    across: &'k SideStatus,
    identity: Option<Identity>,
) -> &'k SideStatus
    ensures { IsEntryFor (side_of named.now) (side_of across.now) identity (side_of result.now) }
{
    if are_one(across.identity, identity) {
        return across;
    }
    named
}

/// Whether both are there, and are the same.
pub(crate) fn are_one(one: Option<Identity>, other: Option<Identity>) -> bool
    ensures { (result ≡ true) ↔ AreOne one other }
{
    match (one, other) {
        (Some(one), Some(other)) => one == other,
        _ => false,
    }
}

/// Whether both are there, and differ.
pub(crate) fn are_different(one: Option<Identity>, other: Option<Identity>) -> bool
    ensures { (result ≡ true) ↔ Differ one other }
{
    match (one, other) {
        (Some(one), Some(other)) => one != other,
        _ => false,
    }
}
