//! A world is opened from its three disks.
ghost use Rattle.std.specs.Prelude.{◌≡◌, ℕ, [], IfErr, IfOk, MatchResult};
ghost use Rattle.syn_runs.specs.Acknowledged.{Stores};
ghost use Rattle.syn_world.specs.Starts.{CountsFailure, IsFromOutside};
ghost use Rattle.syn_world.specs.Openings.{AreOfPair, ComeBack, CountsAsOpened, OpensFrom};
ghost use Rattle.syn_world.specs.Openings.{RefusesDisks, StandFor, failed_calls, shown_on};
ghost use Rattle.syn_world.specs.Worlds.{pair_in};

use crate::lists::Lists;
use crate::running::Running;
use crate::world::{Disks, World};
use crate::{CoordinatorHost, SideHost, SimulatedDisk, start_coordinator, start_side};
use std::alloc::Global;
use syn_refusal::Refusal;

impl<D: SimulatedDisk> World<D> {
    /// Opens the world of a pair from its three disks, as they stand. The pair is the left side's,
    /// and nothing was sent or acknowledged yet.
    ///
    /// Refused 9 where a device call fails, 11 where memory is refused, 18 where a disk holds no
    /// image, 26 where that is of version 1, 19 where it means nothing that its machine holds, and
    /// 20 where the disks are not of one pair. The disks come back, and nothing is written.
    pub fn open(alloc: Global, disks: Disks<D>) -> Result<World<D>, (Refusal, Disks<D>)>
        ensures opened { (pair : ℕ) (stores : Stores)
            → StandFor D.Limit.seen D.Limit.arms pair disks stores
            → IfOk result (OpensFrom pair (shown_on D.Limit.seen disks) stores) }
        // Disks of a pair are refused for no other cause.
        ensures refused { (pair : ℕ) (stores : Stores)
            → StandFor D.Limit.seen D.Limit.arms pair disks stores
            → IfErr result (λ refused. IsFromOutside refused.0) }
        ensures back { IfErr result (λ refused. ComeBack D.Limit.may_leave disks refused.1) }

        // Of any disks, whatever they hold: only those of one pair are opened.
        ensures pair { IfOk result
            (λ world. AreOfPair (shown_on D.Limit.seen disks) (pair_in world)) }
        ensures cause { IfErr result
            (λ refused. RefusesDisks (shown_on D.Limit.seen disks) refused.0) }
        ensures failures { MatchResult result
            (λ world. CountsAsOpened world disks)
            (λ refused. CountsFailure refused.0 (failed_calls D.Limit.failures disks)
            (failed_calls D.Limit.failures refused.1)) }
    {
        let left = match start_side(alloc, disks.left, None) {
            Ok(left) => left,
            Err((why, left)) => {
                return Err((
                    why,
                    Disks {
                        left,
                        right: disks.right,
                        archive: disks.archive,
                    },
                ));
            }
        };
        let pair = left.pair();
        let right = match start_side(alloc, disks.right, Some(pair)) {
            Ok(right) => right,
            Err((why, right)) => {
                return Err((
                    why,
                    Disks {
                        left: SideHost::Up(left).into_disk(),
                        right,
                        archive: disks.archive,
                    },
                ));
            }
        };
        match start_coordinator(alloc, disks.archive, pair) {
            Ok(coordinator) => Ok(World::of(Running {
                pair,
                left: SideHost::Up(left),
                right: SideHost::Up(right),
                coordinator: CoordinatorHost::Up(coordinator),
                lists: no_lists(alloc),
            })),
            Err((why, archive)) => Err((
                why,
                Disks {
                    left: SideHost::Up(left).into_disk(),
                    right: SideHost::Up(right).into_disk(),
                    archive,
                },
            )),
        }
    }
}

/// Nothing was heard yet. It takes no memory.
fn no_lists(alloc: Global) -> Lists
    ensures sent { result.sent.items ≡ [] }
    ensures acknowledged { result.acknowledged.items ≡ [] }
    ensures refusals { result.refusals.items ≡ [] }
    ensures reports { result.reports.items ≡ [] }
{
    Lists {
        sent: Vec::new(alloc),
        acknowledged: Vec::new(alloc),
        refusals: Vec::new(alloc),
        reports: Vec::new(alloc),
    }
}
