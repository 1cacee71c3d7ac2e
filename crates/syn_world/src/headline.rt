//! A run of a world from three disks to what a stop may leave on them, and the opening after it.
ghost use Rattle.std.specs.Prelude.{◌≡◌, ◌≢◌, ◌⊎◌, ◌<◌, ◌^◌, ℕ, IfErr, IfOk, List, MatchResult};
ghost use Rattle.std.specs.Prelude.{map};
ghost use Rattle.syn_promise.specs.Told.{Told};
ghost use Rattle.syn_runs.specs.Acknowledged.{Stores};
ghost use Rattle.syn_runs.specs.World.{Step as ModelStep};
ghost use Rattle.syn_world.specs.Starts.{CountsFailure, IsFromOutside};
ghost use Rattle.syn_model.specs.Refusal as why;
ghost use Rattle.syn_refusal.specs.Refusals.{cause_of};
ghost use Rattle.syn_world.specs.Headlines.{FindsCause, FindsPair, OpensAgain, RefusedComeBack};
ghost use Rattle.syn_world.specs.Headlines.{RunsFrom};
ghost use Rattle.syn_world.specs.Openings.{AreOfPair, ComeBack, CountsAsOpened, RefusesDisks};
ghost use Rattle.syn_world.specs.Openings.{StandFor, failed_calls, shown_on};
ghost use Rattle.syn_world.specs.Promises.{HoldsAsPromised, KeepPart, KeepsPromise};
ghost use Rattle.syn_world.specs.Promises.{LeavePromised};
ghost use Rattle.syn_world.specs.Steps.{step_of};
ghost use Rattle.syn_world.specs.Worlds.{pair_in};

use crate::SimulatedDisk;
use crate::laws::disk_laws;
use crate::step::Step;
use crate::world::{Disks, World};
use std::alloc::Global;
use syn_refusal::Refusal;

/// Opens the world of a pair from its three disks, and goes by these steps, one after another.
///
/// Whatever a stop may leave on the disks after the last of them stands for what was there before,
/// and what was acknowledged since, in order. Each disk may have one change more, the one that its
/// machine was making.
///
/// Refused as the opening is, and 11 where memory is refused for a list of the world. Then the
/// disks come back as the steps until then left them, and the same holds of those.
pub fn run<D: SimulatedDisk>(
    alloc: Global,
    disks: Disks<D>,
    steps: &[Step],
) -> Result<World<D>, (Refusal, Disks<D>)>
    // The whole promise, also of a run that ends as memory is refused for a list of the world.
    ensures promised { (pair : ℕ) (before : Stores)
        → StandFor D.Limit.seen D.Limit.arms pair disks before
        → MatchResult result
        (λ world. (told : Told) × KeepsPromise pair before (map step_of steps.now) told world)
        (λ refused. ComeBack D.Limit.may_leave disks refused.1
        ⊎ KeepPart D.Limit.may_leave pair before (map step_of steps.now) refused.1) }

    // The exact run, of which the laws of runs speak, with what it told.
    ensures runs { (pair : ℕ) (before : Stores)
        → StandFor D.Limit.seen D.Limit.arms pair disks before
        → RunsFrom pair disks before (map step_of steps.now) result }

    // Disks of a pair are refused for no other cause.
    ensures refused { (pair : ℕ) (before : Stores)
        → StandFor D.Limit.seen D.Limit.arms pair disks before
        → IfErr result (λ refused. IsFromOutside refused.0) }

    // Of any disks, whatever they hold: it begins only from those of one pair.
    ensures pair { IfOk result (λ _. (pair : ℕ) × AreOfPair (shown_on D.Limit.seen disks) pair) }
    ensures cause { IfErr result (λ refused. (cause_of refused.0 ≡ why.Memory)
        ⊎ RefusesDisks (shown_on D.Limit.seen disks) refused.0) }
    ensures failures { IfErr result (λ refused. cause_of refused.0 ≡ why.Device
        → failed_calls D.Limit.failures disks < failed_calls D.Limit.failures refused.1) }
    // Refused disks come back: nothing was written where no world was opened from them.
    ensures back { IfErr result (λ refused.
        RefusedComeBack D.Limit.may_leave D.Limit.seen disks refused.1) }
    ensures opened { IfErr result (λ refused. cause_of refused.0 ≢ why.Memory
        → ComeBack D.Limit.may_leave disks refused.1) }
{
    disk_laws();
    syn_promise::promise();
    match World::open(alloc, disks) {
        Ok(mut world) => match world.go_by(alloc, steps) {
            Ok(()) => Ok(world),
            Err(_) => Err((Refusal::Memory, world.into_disks())),
        },
        Err(refused) => Err(refused),
    }
}

/// Opens the world of a pair again from its three disks, after a stop of all of its machines.
///
/// Refused 9 where a device call fails, 11 where memory is refused, and 18, 26, 19 and 20 where the
/// disks are no pair's, as [`World::open`] is; the disks of a run that was safe are refused for
/// none of these four. The disks come back, and nothing is written.
pub fn recover<D: SimulatedDisk>(
    alloc: Global,
    disks: Disks<D>,
) -> Result<World<D>, (Refusal, Disks<D>)>
    // What is promised of whatever a stop may leave on the disks holds of what is opened.
    ensures promised { (pair : ℕ) (before : Stores) (steps : List ModelStep) (told : Told)
        → pair < 2 ^ 64 → LeavePromised D.Limit.may_leave pair before steps told disks
        → IfOk result (HoldsAsPromised pair before steps told) }
    ensures refused { (pair : ℕ) (before : Stores) (steps : List ModelStep) (told : Told)
        → pair < 2 ^ 64 → LeavePromised D.Limit.may_leave pair before steps told disks
        → IfErr result (λ refused. IsFromOutside refused.0) }

    // A run may go on from it.
    ensures opened { IfOk result (OpensAgain disks) }
    ensures back { IfErr result (λ refused. ComeBack D.Limit.may_leave disks refused.1) }

    // Of any disks, whatever they hold: only those of one pair are opened.
    ensures pair { IfOk result (λ world. FindsPair D.Limit.may_leave disks (pair_in world)) }
    ensures cause { IfErr result (λ refused. FindsCause D.Limit.may_leave disks refused.0) }
    ensures failures { MatchResult result
        (λ world. CountsAsOpened world disks)
        (λ refused. CountsFailure refused.0 (failed_calls D.Limit.failures disks)
        (failed_calls D.Limit.failures refused.1)) }
{
    let stopped = Disks {
        left: disks.left.after_stop(),
        right: disks.right.after_stop(),
        archive: disks.archive.after_stop(),
    };
    World::open(alloc, stopped)
}
