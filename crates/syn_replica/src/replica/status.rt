//! Where a replica is in its history, as it tells whoever asks.
ghost use Rattle.std.specs.Prelude.{◌≡◌, ◌↔◌, true, option_map, IfOk, IfErr};
ghost use Rattle.syn_history.specs.Past.{past_in};
ghost use Rattle.syn_history.specs.Status.{IsLawfulStatus, status_at, status_of};

use super::Replica;
use crate::ReplicaError;
use std::alloc::{AllocError, Global};
use syn_disk::Disk;
use syn_history::{ReplicaStatus, status_laws};
use syn_path::Path;

impl<D: Disk> Replica<D> {
    ghost use Rattle.syn_replica.specs.Replica.{IsHalted, pair_of, standing_shown};

    /// Where the replica is in its history, with the path that the event at the place touched. It
    /// is told also while the replica is halted.
    ///
    /// The greatest number asks for the last touch, whose place is then told. A place without a
    /// touch that is still kept has no path.
    ///
    /// Refused 11 where memory is refused, and for no other cause.
    pub fn status(&self, alloc: Global, place: u64) -> Result<ReplicaStatus, ReplicaError>
        ensures told { IfOk result (λ told. status_of told ≡ status_at (pair_of self.now)
            told.halted (past_in (standing_shown self.now)) place) }
        ensures halted { IfOk result (λ told. (told.halted ≡ true) ↔ IsHalted self.now) }
        ensures lawful { IfOk result (λ told. IsLawfulStatus (status_of told)) }
        ensures memory { IfErr result (λ e. e ≡ ReplicaError.Memory) }
    {
        let trail = self.current_standing().trail();
        let place = trail.place_for(place);
        let status = ReplicaStatus {
            pair: self.pair(),
            position: trail.position(),
            floor: trail.floor(),
            session: trail.last_session(),
            token: trail.last_token(),
            place,
            touch: copy_path(alloc, trail.path_at(place))?,
            halted: self.is_halted(),
        };
        status_laws(&status);
        Ok(status)
    }
}

/// An equal path of its own, where there is one. Refused where memory is refused.
fn copy_path(alloc: Global, path: Option<&Path>) -> Result<Option<Path>, AllocError>
    ensures { IfOk result (λ copied. copied ≡ option_map (λ path. path.now) path.entry) }
{
    match path {
        Some(path) => Ok(Some(path.copy(alloc)?)),
        None => Ok(None),
    }
}
