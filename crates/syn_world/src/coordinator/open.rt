//! A coordinator is opened: from its disk alone, after a stop of its machine, or again.
ghost use Rattle.std.specs.Prelude.{◌≡◌, ℕ, IfErr, IfOk, MatchResult, Some};
ghost use Rattle.syn_disk.specs.Disk.{NothingNew};
ghost use Rattle.syn_machine.specs.Coordinator.{CoordinatorMachine, coordinator_kind};
ghost use Rattle.syn_machine.specs.MachineSteps.{Does, Open, Reopen};
ghost use Rattle.syn_world.specs.CoordinatorOpenings.{OpeningIsStep, SettlesFound};
ghost use Rattle.syn_world.specs.Coordinators.{IsCoordinator, archive_disk};
ghost use Rattle.syn_world.specs.Starts.{CanStart, CountsFailure, HoldsArchive, IsFromOutside};
ghost use Rattle.syn_world.specs.Starts.{RefusesArchive, StartsCoordinator};
ghost use Rattle.syn_model.specs.Archive.{Archive as KeptArchive};
ghost use Rattle.syn_archive.specs.Keepings.{of_archive};
ghost use Rattle.syn_coordinator.specs.Coordinators.{Stands, device_of};
ghost use Rattle.syn_coordinator.specs.Openings.{RestsWith};

use super::settle::down;
use super::{CoordinatorHost, DownCoordinator};
use crate::disk::SimulatedDisk;
use std::alloc::Global;
use syn_archive::Archive;
use syn_coordinator::Coordinator;
use syn_disk::Disk;
use syn_image::Kept;
use syn_journal::opening_laws;
use syn_refusal::Refusal;

/// Opens the disk of the pair's archive, with no session and nothing known of it. Nothing is
/// written, and the disk comes back where it is refused.
///
/// Refused 9 where a device call fails, 11 where memory is refused, 18 where the disk holds no
/// image, 26 where that is of version 1, 19 where it means no archive, and 20 where that is of
/// another pair.
pub fn start_coordinator<D: SimulatedDisk>(
    alloc: Global,
    disk: D,
    pair: u64,
) -> Result<Coordinator<D>, (Refusal, D)>
    ensures starts { (kept : KeptArchive)
        → CanStart (of_archive pair) (D.Limit.arms disk) (D.Limit.seen disk) kept
        → IfOk result (StartsCoordinator pair (D.Limit.seen disk) kept) }
    ensures holds { IfOk result (λ _. HoldsArchive pair (D.Limit.seen disk)) }
    ensures cause { IfErr result
        (λ refused. RefusesArchive (Some pair) (D.Limit.seen disk) refused.0) }
    ensures refused { (kept : KeptArchive)
        → CanStart (of_archive pair) (D.Limit.arms disk) (D.Limit.seen disk) kept
        → IfErr result (λ refused. IsFromOutside refused.0) }
    ensures left { IfErr result
        (λ refused. NothingNew (D.Limit.may_leave disk) (D.Limit.may_leave refused.1)) }
    ensures failures { MatchResult result
        (λ coordinator. D.Limit.failures (device_of coordinator) ≡ D.Limit.failures disk)
        (λ refused. CountsFailure refused.0 (D.Limit.failures disk)
        (D.Limit.failures refused.1)) }
{
    opening_laws();
    match Archive::open(alloc, disk, Some(pair)) {
        Ok(archive) => {
            archive.keeps_on_disk();
            Ok(Coordinator::new(alloc, archive))
        }
        Err((error, disk)) => Err((error.refusal(), disk)),
    }
}

/// A coordinator after an opening.
#[derive(Drop)]
pub struct CoordinatorOpening<D: Disk> {
    pub coordinator: CoordinatorHost<D>,
    /// The record that was being written, where the disk has it: it is acknowledged.
    pub found: Option<Kept>,
    /// What a user is refused.
    pub refused: Option<Refusal>,
}

impl<D: SimulatedDisk> CoordinatorHost<D> {
    /// The machine is started again, and opens its disk; nothing happens where it is up. It may
    /// find there the record that was being written as it stopped or its device failed.
    ///
    /// Refused 9 where a device call fails, and 11 where memory is refused. Then it stays down.
    pub fn open(self, alloc: Global, pair: u64) -> CoordinatorOpening<D>
        ensures { (machine : CoordinatorMachine) → IsCoordinator pair self machine
            → OpeningIsStep pair machine (D.Limit.failures (archive_disk self))
            (Does (coordinator_kind pair) machine Open) result }
    {
        match self {
            CoordinatorHost::Up(coordinator) => CoordinatorOpening {
                coordinator: CoordinatorHost::Up(coordinator),
                found: None,
                refused: None,
            },
            CoordinatorHost::Down(down) => open_down(alloc, down, pair),
        }
    }

    /// The archive's own disk is opened again; nothing happens where the machine is down. It runs
    /// again where it was halted, and may find the record that was being written as its device
    /// failed. A session that runs goes on.
    ///
    /// Refused 9 where a device call fails, and 11 where memory is refused. After 9 it is halted.
    pub fn reopen(self, alloc: Global) -> CoordinatorOpening<D>
        ensures { (pair : ℕ) (machine : CoordinatorMachine) → IsCoordinator pair self machine
            → OpeningIsStep pair machine (D.Limit.failures (archive_disk self))
            (Does (coordinator_kind pair) machine Reopen) result }
    {
        match self {
            CoordinatorHost::Up(coordinator) => reopen_up(alloc, coordinator),
            CoordinatorHost::Down(down) => CoordinatorOpening {
                coordinator: CoordinatorHost::Down(down),
                found: None,
                refused: None,
            },
        }
    }
}

/// The opening of a machine that is down.
fn open_down<D: SimulatedDisk>(
    alloc: Global,
    down: DownCoordinator<D>,
    pair: u64,
) -> CoordinatorOpening<D>
    ensures { (machine : CoordinatorMachine)
        → RestsWith D.Limit.arms D.Limit.may_leave pair down.disk down.tried machine
        → OpeningIsStep pair machine (D.Limit.failures down.disk)
        (Does (coordinator_kind pair) machine Open) result }
{
    let DownCoordinator { disk, tried } = down;
    match Coordinator::open(alloc, disk, pair, tried) {
        Ok((coordinator, found)) => CoordinatorOpening {
            coordinator: CoordinatorHost::Up(coordinator),
            found,
            refused: None,
        },
        Err((error, disk, tried)) => CoordinatorOpening {
            coordinator: CoordinatorHost::Down(DownCoordinator { disk, tried }),
            found: None,
            refused: Some(error.refusal()),
        },
    }
}

/// Another opening of a machine that is up.
fn reopen_up<D: SimulatedDisk>(alloc: Global, coordinator: Coordinator<D>) -> CoordinatorOpening<D>
    ensures { (pair : ℕ) (machine : CoordinatorMachine) → Stands coordinator pair machine
        → OpeningIsStep pair machine (D.Limit.failures (device_of coordinator))
        (Does (coordinator_kind pair) machine Reopen) result }
{
    let mut coordinator = coordinator;
    match coordinator.reopen(alloc) {
        Ok(found) => settle_found(coordinator, found, None),
        Err(error) => settle_found(coordinator, None, Some(error.refusal())),
    }
}

/// The coordinator after another opening, of which this is to be told. Where its machine stopped
/// in the call, nothing is told.
fn settle_found<D: SimulatedDisk>(
    coordinator: Coordinator<D>,
    found: Option<Kept>,
    refused: Option<Refusal>,
) -> CoordinatorOpening<D>
    ensures { SettlesFound coordinator found refused result }
{
    if coordinator.is_cut() {
        return CoordinatorOpening {
            coordinator: down(coordinator),
            found: None,
            refused: None,
        };
    }
    CoordinatorOpening {
        coordinator: CoordinatorHost::Up(coordinator),
        found,
        refused,
    }
}
