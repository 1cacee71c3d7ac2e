//! A replica only grows, so that it may lie under a lock.
use super::Replica;
use syn_disk::Disk;
use syn_lock::Grows;

impl<D: Disk> Grows for Replica<D> {
    ghost use Rattle.syn_replica.specs.Replica.{position_shown};
    ghost use Rattle.syn_replica.specs.Growth.{IsGrown};
    ghost use Rattle.syn_replica.specs.Growing.{itself, grown_twice, advances};

    ghost position = { λ replica. position_shown replica };

    ghost grows = { λ old new. IsGrown old new };

    fn position(&self) -> u64 {
        self.current_standing().trail().position()
    }

    ghost reflexive = { λ replica. itself replica };

    ghost transitive = { λ a b c first second. grown_twice a b c first second };

    ghost advances = { λ old new grown. advances old new grown };
}
