//! What `syn simulate` prints.
ghost use Rattle.std.specs.Prelude.{◌≡◌, IfOk, IfSome};
ghost use Rattle.syn.specs.Simulated.{PrintsRun};
ghost use Rattle.syn_simulate.specs.Words.{Text};
ghost use Rattle.syn_simulate.specs.Simulations.{RunsScript};

use std::alloc::Global;
use std::fs::{Files, OpenOptions};
use std::io::{Read, Write};
use syn_command::{CommandError, Failure};
use syn_disk::{Cut, MemDisk, OsFile};
use syn_refusal::Refusal;
use syn_simulate::{Player, SimulateError, draw_chart, play, show_world, simulate};
use syn_world::{SimulatedDisk, World};

/// Runs the script in the file, and prints the world after it, which it answers.
///
/// The first line that says no step is told. Refused 9 where the file cannot be read or the output
/// not be written, and 11 where memory is refused.
pub fn run_script<F: Files, O: Write>(
    alloc: Global,
    files: &F,
    name: &str,
    output: &mut O,
) -> Result<World<Cut<MemDisk>>, Failure>
where
    F::File: OsFile,
    ensures { IfOk result (λ world. (script : Text)
        × PrintsRun script (O.contents output.old) (O.contents output.new) world) }
{
    let script = read_script(alloc, files, name)?;
    print_script(alloc, &script, output)
}

/// Draws each message, stop, opening and record of the script in the file, and prints the world
/// after it. It is refused as `run_script` is.
pub fn trace_script<F: Files, O: Write>(
    alloc: Global,
    files: &F,
    name: &str,
    output: &mut O,
) -> Result<World<Cut<MemDisk>>, Failure>
where
    F::File: OsFile,
{
    let script = read_script(alloc, files, name)?;
    let player = play(alloc, &script).map_err(failure_of)?;
    print_traced(alloc, &script, player, output)
}

/// Lets the world go. It is taken apart first: to let go of a whole one is long to prove, with all
/// that it has.
pub fn let_go<D: SimulatedDisk + Drop>(world: World<D>) {
    let _ = world.into_disks();
}

/// Prints the chart of the script, which was played, and then the world after it, which it
/// answers.
fn print_traced<D: SimulatedDisk + Drop, O: Write>(
    alloc: Global,
    script: &[u8],
    player: Player<D>,
    output: &mut O,
) -> Result<World<D>, Failure> {
    let printed = print_chart(alloc, script, &player, output);
    let world = player.into_world();
    match printed {
        Ok(()) => print_world(alloc, world, output),
        Err(why) => {
            let_go(world);
            Err(why)
        }
    }
}

/// Prints the chart of the script, which was played.
fn print_chart<D: SimulatedDisk, O: Write>(
    alloc: Global,
    script: &[u8],
    player: &Player<D>,
    output: &mut O,
) -> Result<(), Failure> {
    let chart = draw_chart(alloc, script, player).map_err(failure_of)?;
    output.write_all(chart.as_bytes())?;
    Ok(())
}

/// Runs the script, and prints the world after it, which it answers.
fn print_script<O: Write>(
    alloc: Global,
    script: &[u8],
    output: &mut O,
) -> Result<World<Cut<MemDisk>>, Failure>
    ensures { IfOk result
        (PrintsRun script.now (O.contents output.old) (O.contents output.new)) }
{
    match simulate(alloc, script) {
        Ok(world) => print_world(alloc, world, output),
        Err(error) => Err(failure_of(error)),
    }
}

/// Prints the world, which it answers. Where one of its steps was refused for lack of memory, which
/// no script asks for, the run is not the script's, and it is refused 11.
fn print_world<D: SimulatedDisk + Drop, O: Write>(
    alloc: Global,
    world: World<D>,
    output: &mut O,
) -> Result<World<D>, Failure>
    ensures { (script : Text) → RunsScript script world
        → IfOk result (PrintsRun script (O.contents output.old) (O.contents output.new)) }
{
    if was_short_of_memory(&world) {
        let_go(world);
        return Err(Failure::Refused(CommandError::Memory));
    }
    match show_world(alloc, &world, output) {
        Ok(()) => Ok(world),
        Err(why) => {
            let_go(world);
            Err(Failure::from(why))
        }
    }
}

/// A step of the world was refused for lack of memory.
fn was_short_of_memory<D: SimulatedDisk>(world: &World<D>) -> bool {
    world
        .refusals()
        .iter()
        .any(|why| matches!(why, Refusal::Memory))
}

/// The bytes of the file.
fn read_script<F: Files>(alloc: Global, files: &F, name: &str) -> Result<Vec<u8>, CommandError>
where
    F::File: OsFile,
{
    let mut file = files.open_file(OpenOptions::new().read(true), name)?;
    all_of(alloc, &mut file)
}

/// All that the reader gives.
fn all_of<R: Read>(alloc: Global, reader: &mut R) -> Result<Vec<u8>, CommandError>
    ensures { IfOk result (λ read. IfSome (R.remaining reader.old) (λ all. read.items ≡ all)) }
{
    let mut bytes = Vec::new(alloc);
    reader.read_to_end(&mut bytes)?;
    Ok(bytes)
}

/// Why the script was not run.
fn failure_of(error: SimulateError) -> Failure {
    match error {
        SimulateError::Script(number) => Failure::Line(number),
        SimulateError::Refused(why) => Failure::Refused(CommandError::Refused(why)),
        SimulateError::Memory => Failure::Refused(CommandError::Memory),
    }
}
