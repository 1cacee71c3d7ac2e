//! What holds of a replica and its agent as a side's machine, and of what a side lists.
ghost use Rattle.std.specs.Prelude.{ℕ};
ghost use Rattle.syn_machine.specs.SideMachine.{SideMachine};
ghost use Rattle.syn_replica.specs.Replica.{tree_shown};
ghost use Rattle.syn_agent.specs.Machines.{IsOf, IsUpAs};
ghost use Rattle.syn_agent.specs.inner.Lawful.{ListsLawfully};

use crate::agent::Agent;
use syn_disk::Disk;
use syn_model::mark_laws;
use syn_replica::Replica;

/// A replica that stands for a machine's history is that machine's.
pub fn machine_laws<D: Disk>(replica: &Replica<D>, agent: &Agent)
    ensures { (pair : ℕ) (machine : SideMachine) → IsUpAs pair replica.now agent.now machine
        → IsOf pair replica.now agent.now machine }
{
    let _ = replica;
    let _ = agent;
}

/// What stands in a directory of a replica is a listing that can be sent.
pub(crate) fn listing_laws<D: Disk>(replica: &Replica<D>)
    ensures { ListsLawfully (tree_shown replica.now) }
{
    let _whole = replica.tree().entries();
    mark_laws();
}
