//! What a call leaves of a coordinator, and what comes of it.
ghost use Rattle.std.specs.Prelude.{◌≡◌, ◌&&◌, [], ℕ, List, IfSome, if◌then◌else◌, not, option_map};
ghost use Rattle.syn_machine.specs.Coordinator.{Call, CoordinatorMachine};
ghost use Rattle.syn_machine.specs.Machine.{Status};
ghost use Rattle.syn_machine.specs.MachineSteps.{refused_by};
ghost use Rattle.syn_world.specs.CoordinatorSteps.{IsToTell, Settles, StopsAs};
ghost use Rattle.syn_world.specs.Coordinators.{IsCoordinator, archive_disk};
ghost use Rattle.syn_world.specs.Outcomes.{TellsKeptOf, causes_in};
ghost use Rattle.syn_model.specs.Refusal.{Refusal as Cause};
ghost use Rattle.syn_coordinator.specs.Coordinators.{Stands, device_of, in_report, report_shown};
ghost use Rattle.syn_coordinator.specs.Coordinators.{runs};
ghost use Rattle.syn_session.specs.Reports.{report_model};

use super::{CoordinatorCall, CoordinatorHost, DownCoordinator};
use crate::disk::SimulatedDisk;
use crate::outcome::CoordinatorOutcome;
use std::alloc::Global;
use syn_coordinator::Coordinator;
use syn_disk::Disk;
use syn_refusal::Refusal;
use syn_session::Report;

/// The machine stopped. What is in memory is lost, and so is a session that ran.
pub(crate) fn down<D: SimulatedDisk>(coordinator: Coordinator<D>) -> CoordinatorHost<D>
    ensures stops { (pair : ℕ) (machine : CoordinatorMachine) → StopsAs coordinator pair machine
        → IsCoordinator pair result machine }
    ensures count { D.Limit.failures (archive_disk result)
        ≡ D.Limit.failures (device_of coordinator) }
{
    let (archive, tried) = coordinator.into_parts();
    let disk = archive.into_disk();
    CoordinatorHost::Down(DownCoordinator {
        disk: disk.after_stop(),
        tried,
    })
}

/// The coordinator after a call that was made, of which this is to be told. Where its machine
/// stopped in the call, nothing is told but what was kept before.
pub(crate) fn settle<D: SimulatedDisk>(
    alloc: Global,
    coordinator: Coordinator<D>,
    outcome: Option<CoordinatorOutcome>,
) -> CoordinatorCall<D>
    ensures { (told : Call) (refusals_at : Status → List Cause)
        → IfSome outcome (λ o. IsToTell coordinator o told refusals_at)
        → Settles coordinator told refusals_at result }
{
    if coordinator.is_cut() {
        return CoordinatorCall {
            coordinator: down(coordinator),
            outcome: kept_alone(alloc, outcome),
        };
    }
    CoordinatorCall {
        coordinator: CoordinatorHost::Up(coordinator),
        outcome,
    }
}

/// What a user is refused with, where the call left the archive halted.
pub(crate) fn halted<D: Disk>(coordinator: &Coordinator<D>) -> Option<Refusal>
    ensures { (pair : ℕ) (machine : CoordinatorMachine) → Stands coordinator.now pair machine
        → causes_in result ≡ refused_by machine.journal.status }
{
    if coordinator.archive().is_halted() {
        Some(Refusal::Device)
    } else {
        None
    }
}

/// The report of a session that ended in a call, before which one ran or none did.
pub(crate) fn ended<D: Disk>(coordinator: &Coordinator<D>, ran: bool) -> Option<&Report>
    ensures { in_report (option_map (λ report. report_model report.now) result)
        ≡ (if ran && not (runs coordinator.now) then in_report (report_shown coordinator.now)
        else []) }
{
    if ran && !coordinator.is_running() {
        coordinator.report()
    } else {
        None
    }
}

/// What is told where the machine stopped.
fn kept_alone(alloc: Global, outcome: Option<CoordinatorOutcome>) -> Option<CoordinatorOutcome>
    ensures { TellsKeptOf outcome result }
{
    match outcome {
        Some(outcome) => Some(outcome.kept_alone(alloc)),
        None => None,
    }
}
