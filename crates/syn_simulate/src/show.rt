//! What is printed of a world.
ghost use Rattle.std.specs.Prelude.{OnOk, option_map};
ghost use Rattle.std.specs.Io.KnownBytes.{Appends};
ghost use Rattle.syn_simulate.specs.Shown.{archive_or_down, down_shown, replica_or_down};
ghost use Rattle.syn_simulate.specs.Shown.{reports_shown, world_shown};

use std::alloc::Global;
use std::io::Write;
use syn_archive::Archive;
use syn_disk::Disk;
use syn_path::Side;
use syn_print::{PrintError, show_archive, show_replica, show_report};
use syn_replica::Replica;
use syn_session::Report;
use syn_world::World;

/// Prints the world: the report of each session that ended, in order, and then for `left`, `right`
/// and `archive` that word and what its machine's image shows, or `down`.
///
/// Refused 9 where the output cannot be written, and 11 where memory is refused.
pub fn show_world<D: Disk, W: Write>(
    alloc: Global,
    world: &World<D>,
    output: &mut W,
) -> Result<(), PrintError>
    ensures { OnOk result (Appends (W.contents output.old) (W.contents output.new)
        (world_shown world.now)) }
{
    show_reports(alloc, world.reports(), output)?;
    output.write_all(b"left\n")?;
    show_side(alloc, world.replica(Side::Left), output)?;
    output.write_all(b"right\n")?;
    show_side(alloc, world.replica(Side::Right), output)?;
    output.write_all(b"archive\n")?;
    show_coordinator(alloc, world.archive(), output)
}

/// Prints each of the reports, in their order.
fn show_reports<W: Write>(
    alloc: Global,
    reports: &[(Report, usize)],
    output: &mut W,
) -> Result<(), PrintError>
    ensures { OnOk result (Appends (W.contents output.old) (W.contents output.new)
        (reports_shown reports.now)) }
{
    for (report, _) in reports {
        show_report(alloc, report, output)?;
    }
    Ok(())
}

/// Prints what the side's replica shows, or `down`.
fn show_side<D: Disk, W: Write>(
    alloc: Global,
    side: Option<&Replica<D>>,
    output: &mut W,
) -> Result<(), PrintError>
    ensures { OnOk result (Appends (W.contents output.old) (W.contents output.new)
        (replica_or_down (option_map (λ replica. replica.now) side.entry))) }
{
    match side {
        Some(replica) => show_replica(alloc, replica, output),
        None => show_down(output),
    }
}

/// Prints what the coordinator's archive shows, or `down`.
fn show_coordinator<D: Disk, W: Write>(
    alloc: Global,
    archive: Option<&Archive<D>>,
    output: &mut W,
) -> Result<(), PrintError>
    ensures { OnOk result (Appends (W.contents output.old) (W.contents output.new)
        (archive_or_down (option_map (λ archive. archive.now) archive.entry))) }
{
    match archive {
        Some(archive) => show_archive(alloc, archive, output),
        None => show_down(output),
    }
}

/// Prints that a machine is down.
fn show_down<W: Write>(output: &mut W) -> Result<(), PrintError>
    ensures { OnOk result (Appends (W.contents output.old) (W.contents output.new) down_shown) }
{
    output.write_all(b"down\n")?;
    Ok(())
}
