//! What stands in a replica.
ghost use Rattle.syn_replica.specs.Replica.{tree_shown};
ghost use Rattle.syn_shared.specs.Reads.{EachFits};

use syn_disk::Disk;
use syn_replica::Replica;

/// What stands at a path of a replica is within the limit of a file.
pub(crate) fn limit_laws<D: Disk>(replica: &Replica<D>)
    ensures { EachFits (tree_shown replica.now) }
{
    let _whole = replica.tree().entries();
}
