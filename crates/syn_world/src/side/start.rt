//! A side that starts, from a replica or from its disk alone, and what it shows.
ghost use Rattle.std.specs.Prelude.{◌≡◌, ◌<◌, ◌^◌, ℕ, None, IfErr, IfOk, MatchResult, option_map};
ghost use Rattle.syn_agent.specs.Agents.{staging_of};
ghost use Rattle.syn_agent.specs.Machines.{IsOf};
ghost use Rattle.syn_agent.specs.declared.agent.Agent.{Agent as Staged};
ghost use Rattle.syn_archive.specs.Disks.{IsWanted};
ghost use Rattle.syn_disk.specs.Disk.{NothingNew};
ghost use Rattle.syn_machine.specs.SideMachine.{SideMachine};
ghost use Rattle.syn_world.specs.Sides.{replica_in};
ghost use Rattle.syn_world.specs.Starts.{CanStart, CountsFailure, HoldsReplica, IsFromOutside};
ghost use Rattle.syn_world.specs.Starts.{RefusesSide, StartsSide};
ghost use Rattle.syn_model.specs.History.{History};
ghost use Rattle.syn_replica.specs.Keepings.{of_side};
ghost use Rattle.syn_replica.specs.Replica.{disk_of, pair_of};

use super::{SideHost, UpSide};
use crate::disk::SimulatedDisk;
use std::alloc::Global;
use syn_agent::{Agent, machine_laws};
use syn_disk::Disk;
use syn_journal::opening_laws;
use syn_refusal::Refusal;
use syn_replica::{Replica, disk_laws};

impl<D: Disk> UpSide<D> {
    ghost use Rattle.syn_world.specs.Sides.{RunsAs};

    /// A side of the replica, with a new connection. It is the machine that the replica is with an
    /// agent that has nothing staged, where nothing is being written.
    pub fn new(replica: Replica<D>) -> UpSide<D>
        ensures replica { replica_in result ≡ replica }
        ensures runs { (pair : ℕ) (machine : SideMachine) (agent : Staged)
            → staging_of agent ≡ None → IsOf pair replica agent machine
            → machine.journal.writing ≡ None → RunsAs pair result machine }
    {
        UpSide {
            replica,
            agent: Agent::new(),
        }
    }

    /// The number of the pair that its replica is of.
    pub fn pair(&self) -> u64
        ensures { result ≡ pair_of (replica_in self.now) }
    {
        self.replica.pair()
    }
}

impl<D: Disk> SideHost<D> {
    ghost use Rattle.syn_world.specs.Sides.{replica_of};

    /// The replica; none while the machine is down.
    pub fn replica(&self) -> Option<&Replica<D>>
        ensures { option_map (λ replica. replica.now) result ≡ replica_of self.now }
    {
        match self {
            SideHost::Up(side) => Some(&side.replica),
            SideHost::Down(_) => None,
        }
    }
}

/// Opens a side's disk, with a new connection and nothing known of it. The replica may be of any
/// pair where none is given. Nothing is written, and the disk comes back where it is refused.
///
/// Refused 9 where a device call fails, 11 where memory is refused, 18 where the disk holds no
/// image, 26 where that is of version 1, 19 where it means no replica, and 20 where that is of
/// another pair than the one given.
pub fn start_side<D: SimulatedDisk>(
    alloc: Global,
    disk: D,
    pair: Option<u64>,
) -> Result<UpSide<D>, (Refusal, D)>
    ensures starts { (number : ℕ) (history : History) → number < 2 ^ 64
        → CanStart (of_side number) (D.Limit.arms disk) (D.Limit.seen disk) history
        → IfOk result (StartsSide number (D.Limit.seen disk) history) }
    ensures holds { IfOk result
        (λ side. HoldsReplica (pair_of (replica_in side)) (D.Limit.seen disk)) }
    ensures wanted { IfOk result (λ side. (asked : ℕ) → pair ≡ Some asked
        → asked ≡ pair_of (replica_in side)) }
    ensures cause { IfErr result (λ refused. RefusesSide pair (D.Limit.seen disk) refused.0) }
    ensures refused { (number : ℕ) (history : History) → number < 2 ^ 64 → IsWanted pair number
        → CanStart (of_side number) (D.Limit.arms disk) (D.Limit.seen disk) history
        → IfErr result (λ refused. IsFromOutside refused.0) }
    ensures left { MatchResult result
        (λ side. NothingNew (D.Limit.may_leave disk)
        (D.Limit.may_leave (disk_of (replica_in side))))
        (λ refused. NothingNew (D.Limit.may_leave disk) (D.Limit.may_leave refused.1)) }
    ensures failures { MatchResult result
        (λ side. D.Limit.failures (disk_of (replica_in side)) ≡ D.Limit.failures disk)
        (λ refused. CountsFailure refused.0 (D.Limit.failures disk)
        (D.Limit.failures refused.1)) }
{
    opening_laws();
    disk_laws();
    match Replica::open(alloc, disk, pair) {
        Ok(replica) => {
            let agent = Agent::new();
            machine_laws(&replica, &agent);
            Ok(UpSide { replica, agent })
        }
        Err((error, disk)) => Err((error.refusal(), disk)),
    }
}
