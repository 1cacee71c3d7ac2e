//! A side is opened after a stop of its machine, or again.
ghost use Rattle.std.specs.Prelude.{◌≡◌, ℕ, IfOk, option_map};
ghost use Rattle.syn_machine.specs.MachineSteps.{Does, Open, Reopen};
ghost use Rattle.syn_machine.specs.SideMachine.{SideMachine, side_kind};
ghost use Rattle.syn_world.specs.Sides.{Gains};
ghost use Rattle.syn_replica.specs.Replica.{disk_of, tried_shown};

use super::{DownSide, SideCall, SideHost, UpSide};
use crate::disk::SimulatedDisk;
use crate::outcome::SideOutcome;
use std::alloc::{AllocError, Global};
use syn_agent::Agent;
use syn_refusal::Refusal;
use syn_replica::Replica;

impl<D: SimulatedDisk> DownSide<D> {
    ghost use Rattle.syn_world.specs.Sides.{CallIsStep, RestsAs};

    /// The machine is started again, and opens its disk. It may find there the event that was being
    /// written as it stopped or its device failed, and that is acknowledged then.
    ///
    /// Refused 9 where a device call fails, and 11 where memory is refused. Then it stays down.
    pub fn open(self, alloc: Global, pair: u64) -> SideCall<D>
        ensures { (machine : SideMachine) → RestsAs D.Limit.arms D.Limit.may_leave pair self machine
            → CallIsStep pair machine (D.Limit.failures self.disk)
            (Does (side_kind pair) machine Open) result }
    {
        let DownSide {
            disk,
            position,
            tried,
        } = self;
        match Replica::open(alloc, disk, Some(pair)) {
            Ok(replica) => {
                let agent = Agent::new();
                let outcome = gained(position, replica.position(), tried);
                SideCall {
                    side: SideHost::Up(UpSide { replica, agent }),
                    outcome,
                }
            }
            Err((error, disk)) => SideCall {
                side: SideHost::Down(DownSide {
                    disk,
                    position,
                    tried,
                }),
                outcome: SideOutcome::Refused(error.refusal()),
            },
        }
    }
}

impl<D: SimulatedDisk> UpSide<D> {
    ghost use Rattle.syn_world.specs.Sides.{CallIsStep, RunsAs, SettlesOpened};

    /// The replica opens its own disk again, and runs again where it was halted. It may find there
    /// the event that was being written as its device failed, and that is acknowledged then.
    ///
    /// Refused 9 where a device call fails, and 11 where memory is refused.
    pub fn reopen(self, alloc: Global) -> SideCall<D>
        ensures { (pair : ℕ) (machine : SideMachine) → RunsAs pair self machine
            → CallIsStep pair machine (D.Limit.failures (disk_of self.replica))
            (Does (side_kind pair) machine Reopen) result }
    {
        match self.copied(alloc) {
            Ok(tried) => self.reopen_with(alloc, tried),
            Err(_) => self.refused(Refusal::Memory),
        }
    }

    /// A copy of what was sent to the disk last, which a reopening forgets.
    fn copied(&self, alloc: Global) -> Result<Option<Vec<u8>>, AllocError>
        ensures { IfOk result (λ copy. option_map (λ spelled. spelled.items) copy
            ≡ tried_shown self.now.replica) }
    {
        match self.replica.tried() {
            Some(spelled) => Ok(Some(spelled.to_vec(alloc)?)),
            None => Ok(None),
        }
    }

    /// The same, with that copy.
    fn reopen_with(self, alloc: Global, tried: Option<Vec<u8>>) -> SideCall<D>
        requires { option_map (λ spelled. spelled.items) tried ≡ tried_shown self.replica }
        ensures { (pair : ℕ) (machine : SideMachine) → RunsAs pair self machine
            → CallIsStep pair machine (D.Limit.failures (disk_of self.replica))
            (Does (side_kind pair) machine Reopen) result }
    {
        let mut side = self;
        let position = side.replica.position();
        match side.replica.reopen(alloc) {
            Ok(()) => side.settle_opened(position, tried),
            Err(error) => side.settle(position, SideOutcome::Refused(error.refusal())),
        }
    }

    /// The side after a reopening, before which so many events had been acknowledged and this had
    /// been sent to the disk last.
    fn settle_opened(self, position: u64, tried: Option<Vec<u8>>) -> SideCall<D>
        ensures { SettlesOpened self position (option_map (λ spelled. spelled.items) tried) result }
    {
        if self.replica.is_cut() {
            let (disk, _) = self.replica.into_parts();
            return SideCall {
                side: SideHost::Down(DownSide {
                    disk: disk.after_stop(),
                    position,
                    tried,
                }),
                outcome: SideOutcome::Nothing,
            };
        }
        let outcome = gained(position, self.replica.position(), tried);
        SideCall {
            side: SideHost::Up(self),
            outcome,
        }
    }
}

/// What an opening gave: the event that was being written, where there are more events now.
fn gained(before: u64, now: u64, tried: Option<Vec<u8>>) -> SideOutcome
    ensures { Gains result before now (option_map (λ spelled. spelled.items) tried) }
{
    if before < now {
        match tried {
            Some(spelled) => SideOutcome::Acknowledged(spelled),
            None => SideOutcome::Nothing,
        }
    } else {
        SideOutcome::Nothing
    }
}
