//! Scripts that are run.
ghost use Rattle.std.specs.Prelude.{IfOk, IfErr};
ghost use Rattle.syn_simulate.specs.Players.{world_of};
ghost use Rattle.syn_simulate.specs.Simulations.{IsNoRun, RunsScript};

use crate::Script;
use crate::disks::stops_of;
use crate::error::SimulateError;
use crate::player::Player;
use crate::start::formatted_world;
use std::alloc::Global;
use syn_disk::{Cut, MemDisk};
use syn_world::World;

/// The player after the steps of the script. Its world starts with three machines that are up: two
/// sides with an empty replica each, and a coordinator with an empty archive, all of pair 1. A
/// machine's i-th stop leaves of its disk what its i-th stop line says.
///
/// The run keeps its promise, whatever a stop of all machines may leave on the disks of the world.
///
/// Refused with the number of the first line that says no step, counted from 1, before anything is
/// done; and 11 where memory is refused.
pub fn play(alloc: Global, script: &[u8]) -> Result<Player<Cut<MemDisk>>, SimulateError>
    ensures run { IfOk result (λ player. RunsScript script.now (world_of player)) }
    ensures refused { IfErr result (IsNoRun script.now) }
{
    let lines = Script::parse(alloc, script)?;
    let stops = stops_of(alloc, &lines)?;
    let world = formatted_world(alloc, stops)?;
    match Player::new(alloc, world).play_all(alloc, lines) {
        Ok(player) => {
            player.world().promise();
            Ok(player)
        }
        Err(disks) => {
            drop(disks);
            Err(SimulateError::Memory)
        }
    }
}

/// The world after the steps of the script, as `play` leaves it. It is refused as that is.
pub fn simulate(alloc: Global, script: &[u8]) -> Result<World<Cut<MemDisk>>, SimulateError>
    ensures run { IfOk result (RunsScript script.now) }
    ensures refused { IfErr result (IsNoRun script.now) }
{
    Ok(play(alloc, script)?.into_world())
}
