//! The coordinator of a world, whose machine is up or down.
ghost use Rattle.std.specs.Prelude.{◌≡◌, ◌≢◌, [], ℕ, List, IfSome, false, true};
ghost use Rattle.syn_disk.specs.Armed.{armed};
ghost use Rattle.syn_disk.specs.Arms.{is_stopped};
ghost use Rattle.syn_machine.specs.Coordinator.{CoordinatorMachine, coordinator_kind, no_call};
ghost use Rattle.syn_machine.specs.MachineSteps.{Checkpoint, Does, Fail, Stop, refused_by};
ghost use Rattle.syn_world.specs.CoordinatorSteps.{CallIsStep, Settles};
ghost use Rattle.syn_world.specs.Outcomes.{TellsRefused};
ghost use Rattle.syn_journal.specs.Calls.{armed_at};
ghost use Rattle.syn_archive.specs.Keepings.{of_archive};
ghost use Rattle.syn_journal.specs.Meaning.{MayBeOf};
ghost use Rattle.syn_coordinator.specs.Coordinators.{Stands, device_of, with_arms};

use crate::coordinator::settle::{down, halted, settle};
use crate::disk::SimulatedDisk;
use crate::outcome::CoordinatorOutcome;
use std::alloc::Global;
use syn_archive::ArchiveError;
use syn_coordinator::{Coordinator, TriedRecord};
use syn_disk::{Arm, Disk};
use syn_refusal::Refusal;

mod open;
mod sessions;
mod settle;

pub use open::{CoordinatorOpening, start_coordinator};

/// The coordinator of a world.
#[derive(Drop)]
pub enum CoordinatorHost<D: Disk> {
    Up(Coordinator<D>),
    Down(DownCoordinator<D>),
}

/// A coordinator whose machine is down.
#[derive(Drop)]
pub struct DownCoordinator<D> {
    pub disk: D,
    /// The record that was being written as a device call failed or the machine stopped.
    pub tried: Option<TriedRecord>,
}

/// A coordinator after a step, with what came of it. Of that nothing is told where memory for it
/// is refused.
#[derive(Drop)]
pub struct CoordinatorCall<D: Disk> {
    pub coordinator: CoordinatorHost<D>,
    pub outcome: Option<CoordinatorOutcome>,
}

impl<D: SimulatedDisk> CoordinatorHost<D> {
    ghost use Rattle.syn_world.specs.Coordinators.{IsCoordinator, IsStep, archive_disk};

    /// The disk, as the last step left it.
    pub fn into_disk(self) -> D
        ensures disk { result ≡ archive_disk self }
        ensures left { (pair : ℕ) (machine : CoordinatorMachine) → IsCoordinator pair self machine
            → (bytes : List ℕ) → D.Limit.may_leave result bytes
            → MayBeOf (of_archive pair) machine.journal bytes }
    {
        match self {
            CoordinatorHost::Up(coordinator) => coordinator.into_archive().into_disk(),
            CoordinatorHost::Down(down) => down.disk,
        }
    }

    /// The device call with this number from now on fails, and is not made; at 0 none does.
    pub fn fail(self, call: u64) -> CoordinatorHost<D>
        ensures { (pair : ℕ) (machine : CoordinatorMachine) → IsCoordinator pair self machine
            → IsStep pair machine (D.Limit.failures (archive_disk self))
            (Does (coordinator_kind pair) machine (Fail call)) result no_call [] }
    {
        match self {
            CoordinatorHost::Up(coordinator) => {
                CoordinatorHost::Up(armed_with(coordinator, Arm::Fail(call)))
            }
            CoordinatorHost::Down(down) => CoordinatorHost::Down(down),
        }
    }

    /// So many device calls are still made, and the machine stops after the last of them; at 0 it
    /// stops at once, and the session that runs is lost.
    pub fn stop(self, calls: u64) -> CoordinatorHost<D>
        ensures { (pair : ℕ) (machine : CoordinatorMachine) → IsCoordinator pair self machine
            → IsStep pair machine (D.Limit.failures (archive_disk self))
            (Does (coordinator_kind pair) machine (Stop calls)) result no_call [] }
    {
        match self {
            CoordinatorHost::Up(coordinator) => {
                if calls == 0 {
                    down(coordinator)
                } else {
                    CoordinatorHost::Up(armed_with(coordinator, Arm::Stop(calls)))
                }
            }
            CoordinatorHost::Down(down) => CoordinatorHost::Down(down),
        }
    }

    /// The archive is written anew as one image. A session that runs goes on. Refused as a
    /// checkpoint of the coordinator is.
    pub fn checkpoint(self, alloc: Global) -> CoordinatorCall<D>
        ensures { (pair : ℕ) (machine : CoordinatorMachine) → IsCoordinator pair self machine
            → CallIsStep pair machine (D.Limit.failures (archive_disk self))
            (Does (coordinator_kind pair) machine Checkpoint) result }
    {
        match self {
            CoordinatorHost::Up(coordinator) => compact(alloc, coordinator),
            CoordinatorHost::Down(rest) => CoordinatorHost::Down(rest).refused(alloc, None),
        }
    }

    /// Nothing was done, and it was refused so, if it was refused.
    pub(crate) fn refused(self, alloc: Global, refused: Option<Refusal>) -> CoordinatorCall<D>
        ensures coordinator { result.coordinator ≡ self }
        ensures outcome { IfSome result.outcome (λ told. TellsRefused told refused) }
    {
        CoordinatorCall {
            coordinator: self,
            outcome: Some(CoordinatorOutcome::refused_with(alloc, refused)),
        }
    }
}

/// Arms the archive's disk.
fn armed_with<D: SimulatedDisk>(coordinator: Coordinator<D>, arm: Arm) -> Coordinator<D>
    ensures arms { D.Limit.arms (device_of result) ≡ armed (D.Limit.arms (device_of coordinator))
        arm }
    ensures stands { (pair : ℕ) (machine : CoordinatorMachine) → Stands coordinator pair machine
        → is_stopped (D.Limit.arms (device_of result)) ≡ false
        → Stands result pair (with_arms machine (armed_at (D.Limit.arms (device_of result)))) }
    ensures count { D.Limit.failures (device_of result) ≡ D.Limit.failures (device_of coordinator) }
{
    let mut coordinator = coordinator;
    coordinator.arm(arm);
    coordinator
}

/// The checkpoint of a coordinator that is up.
fn compact<D: SimulatedDisk>(alloc: Global, coordinator: Coordinator<D>) -> CoordinatorCall<D>
    ensures { (pair : ℕ) (machine : CoordinatorMachine) → Stands coordinator pair machine
        → CallIsStep pair machine (D.Limit.failures (device_of coordinator))
        (Does (coordinator_kind pair) machine Checkpoint) result }
{
    let mut coordinator = coordinator;
    match coordinator.checkpoint(alloc) {
        Ok(()) => settle_compacted(alloc, coordinator),
        Err(error) => {
            if is_device(error) {
                return settle_compacted(alloc, coordinator);
            }
            CoordinatorHost::Up(coordinator).refused(alloc, Some(error.refusal()))
        }
    }
}

/// Whether a device call failed.
fn is_device(error: ArchiveError) -> bool
    ensures device { result ≡ true → error ≡ ArchiveError.Device }
    ensures other { result ≡ false → error ≢ ArchiveError.Device }
{
    error == ArchiveError::Device
}

/// The coordinator after a checkpoint that was made. Where its device failed, it is refused 9.
fn settle_compacted<D: SimulatedDisk>(
    alloc: Global,
    coordinator: Coordinator<D>,
) -> CoordinatorCall<D>
    ensures { Settles coordinator no_call refused_by result }
{
    let refused = halted(&coordinator);
    let outcome = CoordinatorOutcome::refused_with(alloc, refused);
    settle(alloc, coordinator, Some(outcome))
}
