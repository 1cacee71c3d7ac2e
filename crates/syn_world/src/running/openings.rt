//! The openings of the world's coordinator.
ghost use Rattle.std.specs.Prelude.{IfSome};
ghost use Rattle.syn_runs.specs.World.{World as ModelWorld, Coordinator, Open, Reopen};
ghost use Rattle.syn_world.specs.Failures.{failures_in};
ghost use Rattle.syn_world.specs.Worlds.{TellsFound};

use super::Running;
use crate::{CoordinatorOutcome, SimulatedDisk};
use std::alloc::Global;
use syn_image::Kept;
use syn_refusal::Refusal;

impl<D: SimulatedDisk> Running<D> {
    ghost use Rattle.syn_world.specs.Worlds.{GoesSo, IsRunning};

    /// The coordinator's machine is started again, if it is down. The record that was being written
    /// is acknowledged where its disk has it.
    pub(crate) fn open_coordinator(self, alloc: Global) -> Result<Running<D>, Running<D>>
        ensures { (model : ModelWorld) → IsRunning self model
            → GoesSo model (failures_in self) (Open Coordinator) result }
    {
        let mut world = self;
        let opening = world.coordinator.open(alloc, world.pair);
        world.coordinator = opening.coordinator;
        world.told(opened_with(alloc, opening.found, opening.refused))
    }

    /// The coordinator opens its own disk again, unless its machine is down. The record that was
    /// being written is acknowledged where its disk has it.
    pub(crate) fn reopen_coordinator(self, alloc: Global) -> Result<Running<D>, Running<D>>
        ensures { (model : ModelWorld) → IsRunning self model
            → GoesSo model (failures_in self) (Reopen Coordinator) result }
    {
        let mut world = self;
        let opening = world.coordinator.reopen(alloc);
        world.coordinator = opening.coordinator;
        world.told(opened_with(alloc, opening.found, opening.refused))
    }
}

/// What came of an opening that found this record, or none, and was refused so, if it was. None
/// where memory for it is refused.
fn opened_with(
    alloc: Global,
    found: Option<Kept>,
    refused: Option<Refusal>,
) -> Option<CoordinatorOutcome>
    ensures { IfSome result (λ outcome. TellsFound outcome found refused) }
{
    let mut kept = Vec::new(alloc);
    if let Some(record) = found {
        if kept.push(record).is_err() {
            return None;
        }
    }
    Some(CoordinatorOutcome {
        kept,
        sent: Vec::new(alloc),
        ended: None,
        refused,
    })
}
